ghost use Rattle.std.specs.Prelude.{◌≡◌, false, ◌≤◌, length, map, filter, IfOk, OnOk, OnErr};
ghost use Rattle.participants.specs.Live.{live_ones};
ghost use Rattle.instance_table.specs.Spare.{spare};
ghost use Rattle.session_rules.specs.declared.reply.Reply.TheVariants as reply;
ghost use Rattle.session_rules.specs.declared.deed.Deed.TheVariants.{Loses};
ghost use Rattle.session_rules.specs.Issues.{most_moves};
ghost use Rattle.session_rules.specs.Deeds.{is_nothing, changed};
ghost use Rattle.session_rules.specs.Steps.{does};
ghost use Rattle.session_rules.specs.Facts.{Kept};
ghost use Rattle.session_rules.specs.Grounds.{Grounded};
ghost use Rattle.session_spec.specs.Stores.{nothing_brought};
ghost use Rattle.session_state.specs.Handed.{is_list};
ghost use Rattle.session_state.specs.Issuings.{IsPlanned};
ghost use Rattle.session_state.specs.Losings.{lacks_second, first_lost, fails, stays, without};
ghost use Rattle.session_state.specs.Standings.{setting, rules_of, state, store, lost, state_then, store_then, HasRoom, IsUnchanged};

use crate::Standing;
use crate::issuing::{Issuing, Source, plan};
use instance_table::Instance;
use proto_names::{Signature, lacks};
use session_rules::{Reply, Verdict, judge_lose};
use std::alloc::{AllocError, Global};

/// Whether it is a second round that lacks the share of party p.
fn lacks_second(p: u32, instance: &Instance) -> bool
    ensures { result ≡ lacks_second p instance.now }
{
    instance.signature.is(Signature::Rlk2) && lacks(p, instance)
}

/// The number of the first round whose second round lacks the share of party p, if there is one.
#[tactic(auto, unfolding(crate::specs::Losings::first_lost))]
fn first_lost(p: u32, instances: &[Instance]) -> Option<u32>
    ensures { result ≡ first_lost p instances.now }
{
    instances
        .iter()
        .find(|instance| lacks_second(p, instance))
        .map(|instance| instance.round1)
}

/// Whether an instance is void once party p is lost, where the second round that lacks its share, if there is one, is
/// behind `first`.
fn fails(p: u32, first: Option<u32>, instance: &Instance) -> bool
    ensures { result ≡ fails p first instance.now }
{
    lacks(p, instance) || first == Some(instance.id)
}

/// A copy of those that stay.
fn staying(
    alloc: Global,
    p: u32,
    first: Option<u32>,
    instances: &[Instance],
) -> Result<Vec<Instance>, AllocError>
    ensures { IfOk result (λ copies. copies.items ≡ filter (stays p first) instances.now) }
{
    instances
        .iter()
        .filter(|instance| !fails(p, first, instance))
        .copied()
        .collect(alloc)
}

impl Standing {
    /// What the rules say to the loss of party p.
    fn verdict_on_loss(&self, p: u32) -> Verdict
        ensures said { result ≡ lost self.now p }
        ensures loses { is_nothing result.deed ≡ false → result ≡ does reply.Left (Loses p) }
        ensures plain { is_list result.reply ≡ false }
    {
        judge_lose(&self.present, p)
    }

    /// A copy of the instances that still aren't void once party p is lost.
    #[tactic(auto, using(crate::proofs::Live::live_left))]
    fn live_without(
        &self,
        alloc: Global,
        p: u32,
        first: Option<u32>,
    ) -> Result<Vec<Instance>, AllocError>
        ensures { IfOk result (λ copies. copies.items
            ≡ live_ones (map (without p first) (state self.now).instances)) }
    {
        staying(alloc, p, first, self.table.live())
    }

    /// What the rules of issue do once party p is lost, and the instances that lack its share are given up, with the
    /// first round of a second one.
    fn planned_without(
        &self,
        alloc: Global,
        p: u32,
        first: Option<u32>,
    ) -> Result<Issuing, AllocError>
        requires party { 1 ≤ p }
        requires last { p ≤ 32 }
        requires room { HasRoom self.now }
        requires kept { Kept (rules_of self.now) (state self.now) }
        requires first { first ≡ first_lost p (state self.now).instances }
        ensures planned { IfOk result (λ x. IsPlanned self.now.params (rules_of self.now)
            (changed (Loses p) (state self.now)) (store self.now) x.steps.items) }
        ensures few { IfOk result (λ x. length x.steps.items ≤ most_moves (rules_of self.now)) }
    {
        let present = self.present.without(p);
        let live = self.live_without(alloc, p, first)?;
        plan(
            alloc,
            &self.ring,
            &self.groups,
            &self.rules,
            self.needed.as_slice(),
            &present,
            live,
            self.table.issued(),
            self.states.as_slice(),
            &Source::held(&self.table, &self.outputs),
        )
    }

    /// Party p is absent from now on, and each instance that lacks its share is given up, with the first round of a
    /// second one.
    fn depart(&mut self, p: u32, first: Option<u32>)
        requires party { 1 ≤ p }
        requires last { p ≤ 32 }
        requires kept { Kept (rules_of self.old) (state self.old) }
        requires kept_then { Kept (rules_of self.old) (changed (Loses p) (state self.old)) }
        requires first { first ≡ first_lost p (state self.old).instances }
        ensures state { state self.new ≡ changed (Loses p) (state self.old) }
        ensures store { store self.new ≡ store self.old }
        ensures setting { setting self.new ≡ setting self.old }
        ensures params { self.new.params ≡ self.old.params }
        ensures spare { spare self.new.table ≡ spare self.old.table }
    {
        self.present = self.present.without(p);
        self.table.lose(p);
        if let Some(id) = first {
            self.table.void(id, p);
        }
    }

    /// Party p is absent from now on, and each instance that lacks its share is given up, with the first round of a
    /// second one: Left, or Already where it was absent. Only Left takes memory, for the instances that are issued.
    pub fn lose(&mut self, alloc: Global, p: u32) -> Result<Reply, AllocError>
        requires first { 1 ≤ p }
        requires last { p ≤ 32 }
        requires room { HasRoom self.old }
        requires kept { Kept (rules_of self.old) (state self.old) }
        requires grounded { Grounded (rules_of self.old) (state self.old) }
        ensures reply { IfOk result (λ r. r ≡ (lost self.old p).reply) }
        ensures plain { IfOk result (λ r. is_list r ≡ false) }
        ensures state { OnOk result (state self.new ≡ state_then self.old (lost self.old p)) }
        ensures store { OnOk result (store self.new
            ≡ store_then self.old (lost self.old p) nothing_brought) }
        ensures setting { setting self.new ≡ setting self.old }
        ensures params { self.new.params ≡ self.old.params }
        ensures unchanged { OnErr result (IsUnchanged self.old self.new) }
        ensures free { OnErr result ((lost self.old p).reply ≡ reply.Left) }
    {
        let verdict = self.verdict_on_loss(p);
        if verdict.deed.is_nothing() {
            return Ok(verdict.reply);
        }
        let first = first_lost(p, self.table.live());
        let issuing = self.planned_without(alloc, p, first)?;
        self.room(issuing.steps.len() as u32)?;
        self.depart(p, first);
        self.issue_planned(issuing);
        Ok(verdict.reply)
    }
}
