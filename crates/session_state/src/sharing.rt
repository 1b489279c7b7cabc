ghost use Rattle.std.specs.Prelude.{◌≡◌, ◌≢◌, true, false, ◌<◌, ◌^◌, length, All, Some, None, IfOk, OnOk, OnErr};
ghost use Rattle.ring_spec.specs.Ring.{IsPoly};
ghost use Rattle.proto_names.specs.Instances.{after_share, missing};
ghost use Rattle.proto_names.specs.declared.instance.Instance.{Instance};
ghost use Rattle.session_rules.specs.declared.reply.Reply.TheVariants as reply;
ghost use Rattle.session_rules.specs.declared.deed.Deed.TheVariants.{Counts};
ghost use Rattle.session_rules.specs.Deeds.{is_nothing, counts_for};
ghost use Rattle.session_rules.specs.Steps.{does, counted};
ghost use Rattle.session_rules.specs.Facts.{Kept};
ghost use Rattle.session_rules.specs.Grounds.{Grounded};
ghost use Rattle.session_state.specs.Handed.{is_list};
ghost use Rattle.session_spec.specs.Stores.{share_brought, with_rows};
ghost use Rattle.session_state.specs.Wanted.{IsWanted};
ghost use Rattle.session_state.specs.Standings.{setting, rules_of, state, store, delivered, state_then, store_then, HasRoom, IsUnchanged};

use crate::Standing;
use instance_table::{Instance, Share};
use proto_names::missing;
use session_rules::{Reply, Verdict, judge_deliver};
use std::alloc::{AllocError, Global};

impl Standing {
    /// What the rules say to a share.
    fn verdict_on_share(&self, share: &Share) -> Verdict
        requires few_rows { length share.now.rows < 2 ^ 32 }
        requires kept { Kept (rules_of self.now) (state self.now) }
        ensures said { result ≡ delivered self.now share.now.id share.now.party
            (length share.now.rows) }
        ensures refused { counts_for result.deed ≡ None → is_nothing result.deed ≡ true }
        ensures counts { (i : Instance) → counts_for result.deed ≡ Some i → result
            ≡ does (counted share.now.party i) (Counts i share.now.party) }
        ensures wanted { (i : Instance) → counts_for result.deed ≡ Some i
            → IsWanted (rules_of self.now) (state self.now) share.now.id share.now.party
            (length share.now.rows) i }
        ensures plain { is_list result.reply ≡ false }
    {
        let rows = share.rows.len() as u32;
        judge_deliver(
            &self.rules,
            self.table.instances(),
            share.id,
            share.party,
            rows,
        )
    }

    /// Counts a share that isn't the last one of its instance.
    fn count(&mut self, share: &Share, instance: &Instance)
        requires fits { All (IsPoly self.old.params.q self.old.params.n) share.now.rows }
        requires kept { Kept (rules_of self.old) (state self.old) }
        requires wanted { IsWanted (rules_of self.old) (state self.old) share.now.id share.now.party
            (length share.now.rows) instance.now }
        requires more { missing share.now.party instance.now ≢ 0 }
        ensures state { state self.new ≡ record (state self.old)
            { instances = after_share share.now.id share.now.party (state self.old).instances } }
        ensures store { store self.new
            ≡ with_rows (setting self.old) share.now.id share.now.rows (store self.old) }
        ensures setting { setting self.new ≡ setting self.old }
        ensures params { self.new.params ≡ self.old.params }
    {
        self.table.count(&self.ring, share);
    }

    /// Counts a share: Unknown, Stranger, Late, Repeat or Shape where it isn't wanted as it is, else Counted, or
    /// Completed where it was the last. Its rows are added to the sums of its instance; a complete decryption
    /// answers its circuit. Only Completed takes memory.
    pub fn deliver(&mut self, alloc: Global, share: &Share) -> Result<Reply, AllocError>
        requires fits { All (IsPoly self.old.params.q self.old.params.n) share.now.rows }
        requires few_rows { length share.now.rows < 2 ^ 32 }
        requires room { HasRoom self.old }
        requires kept { Kept (rules_of self.old) (state self.old) }
        requires grounded { Grounded (rules_of self.old) (state self.old) }
        ensures reply { IfOk result (λ r. r
            ≡ (delivered self.old share.now.id share.now.party (length share.now.rows)).reply) }
        ensures plain { IfOk result (λ r. is_list r ≡ false) }
        ensures state { OnOk result (state self.new
            ≡ state_then self.old (delivered self.old share.now.id share.now.party
            (length share.now.rows))) }
        ensures store { OnOk result (store self.new
            ≡ store_then self.old (delivered self.old share.now.id share.now.party
            (length share.now.rows)) (share_brought share.now.rows)) }
        ensures setting { setting self.new ≡ setting self.old }
        ensures params { self.new.params ≡ self.old.params }
        ensures unchanged { OnErr result (IsUnchanged self.old self.new) }
        ensures free { OnErr result ((delivered self.old share.now.id share.now.party
            (length share.now.rows)).reply ≡ reply.Completed) }
    {
        let verdict = self.verdict_on_share(share);
        let Some(instance) = verdict.deed.counts() else {
            return Ok(verdict.reply);
        };
        if missing(share.party, &instance) == 0 {
            self.complete(alloc, share, &instance)?;
        } else {
            self.count(share, &instance);
        }
        Ok(verdict.reply)
    }
}
