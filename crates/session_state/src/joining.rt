ghost use Rattle.std.specs.Prelude.{◌≡◌, false, ◌≤◌, length, IfOk, OnOk, OnErr};
ghost use Rattle.instance_table.specs.Spare.{spare};
ghost use Rattle.session_rules.specs.declared.reply.Reply.TheVariants as reply;
ghost use Rattle.session_rules.specs.declared.deed.Deed.TheVariants.{Joins};
ghost use Rattle.session_rules.specs.Issues.{most_moves};
ghost use Rattle.session_rules.specs.Deeds.{is_nothing};
ghost use Rattle.session_rules.specs.Steps.{does};
ghost use Rattle.session_rules.specs.Facts.{Kept};
ghost use Rattle.session_rules.specs.Grounds.{Grounded};
ghost use Rattle.session_spec.specs.Stores.{nothing_brought};
ghost use Rattle.session_state.specs.Handed.{is_list};
ghost use Rattle.session_state.specs.Issuings.{IsPlanned};
ghost use Rattle.session_state.specs.Standings.{setting, rules_of, state, store, joined, state_then, store_then, HasRoom, IsUnchanged};

use crate::Standing;
use crate::issuing::{Issuing, Source, plan};
use proto_names::PartySet;
use session_rules::{Reply, Verdict, judge_join};
use std::alloc::{AllocError, Global};

impl Standing {
    /// What the rules say to party p that joins.
    fn verdict_on_join(&self, p: u32) -> Verdict
        ensures said { result ≡ joined self.now p }
        ensures joins { is_nothing result.deed ≡ false → result ≡ does reply.Joined (Joins p) }
        ensures plain { is_list result.reply ≡ false }
    {
        judge_join(&self.present, p)
    }

    /// What the rules of issue do once these parties are present.
    fn planned_among(&self, alloc: Global, present: &PartySet) -> Result<Issuing, AllocError>
        requires room { HasRoom self.now }
        requires kept { Kept (rules_of self.now) (state self.now) }
        requires grounded { Grounded (rules_of self.now) (state self.now) }
        ensures planned { IfOk result (λ x. IsPlanned self.now.params (rules_of self.now)
            (record (state self.now) { present = present.now.bits }) (store self.now)
            x.steps.items) }
        ensures few { IfOk result (λ x. length x.steps.items ≤ most_moves (rules_of self.now)) }
    {
        let live = self.table.live_copied(alloc)?;
        plan(
            alloc,
            &self.ring,
            &self.groups,
            &self.rules,
            self.needed.as_slice(),
            present,
            live,
            self.table.issued(),
            self.states.as_slice(),
            &Source::held(&self.table, &self.outputs),
        )
    }

    /// These parties are present from now on.
    fn gather(&mut self, present: PartySet)
        ensures state { state self.new ≡ record (state self.old) { present = present.bits } }
        ensures store { store self.new ≡ store self.old }
        ensures setting { setting self.new ≡ setting self.old }
        ensures params { self.new.params ≡ self.old.params }
        ensures spare { spare self.new.table ≡ spare self.old.table }
    {
        self.present = present;
    }

    /// Party p is present from now on: Joined, or Already where it was. Only Joined takes memory, for the instances
    /// that are issued.
    pub fn join(&mut self, alloc: Global, p: u32) -> Result<Reply, AllocError>
        requires first { 1 ≤ p }
        requires last { p ≤ 32 }
        requires room { HasRoom self.old }
        requires kept { Kept (rules_of self.old) (state self.old) }
        requires grounded { Grounded (rules_of self.old) (state self.old) }
        ensures reply { IfOk result (λ r. r ≡ (joined self.old p).reply) }
        ensures plain { IfOk result (λ r. is_list r ≡ false) }
        ensures state { OnOk result (state self.new ≡ state_then self.old (joined self.old p)) }
        ensures store { OnOk result (store self.new
            ≡ store_then self.old (joined self.old p) nothing_brought) }
        ensures setting { setting self.new ≡ setting self.old }
        ensures params { self.new.params ≡ self.old.params }
        ensures unchanged { OnErr result (IsUnchanged self.old self.new) }
        ensures free { OnErr result ((joined self.old p).reply ≡ reply.Joined) }
    {
        let verdict = self.verdict_on_join(p);
        if verdict.deed.is_nothing() {
            return Ok(verdict.reply);
        }
        let present = self.present.with(p);
        let issuing = self.planned_among(alloc, &present)?;
        self.room(issuing.steps.len() as u32)?;
        self.gather(present);
        self.issue_planned(issuing);
        Ok(verdict.reply)
    }
}
