ghost use Rattle.std.specs.Prelude.{◌≡◌, ◌≤◌, ◌<◌, ◌+◌, ◌-◌, ◌^◌, ℕ, [], ◌∷◌, ◌++◌, length, All, Some, IsTrue, OnOk, slice_index_or};
ghost use Rattle.mod_ring.specs.Fits.{Fits};
ghost use Rattle.proto_names.specs.Instances.{with_fresh, after_share, after_void, after_lost};
ghost use Rattle.proto_names.specs.Roles.{last_place};
ghost use Rattle.instance_table.specs.Tables.{no_sums, after_rows, awaits, stands, count_of};
ghost use Rattle.instance_table.specs.Spare.{spare};

use crate::attempts::count_attempt;
use crate::readers::place_of;
use crate::rows::add_rows;
use crate::{Brief, Count, Share, Table, living, numbered};
use mod_ring::{Polys, Ring};
use proto_names::Signature;
use std::alloc::AllocError;
use std::sync::Arc;

impl Table {
    /// Makes room for so many instances: they can then be issued without memory.
    #[tactic(auto, unfolding(crate::specs::Spare::spare))]
    pub fn room(&mut self, instances: u32) -> Result<(), AllocError>
        ensures room { OnOk result (instances ≤ spare self.new) }
        ensures never_less { spare self.old ≤ spare self.new }
        ensures instances { self.new.instances.items ≡ self.old.instances.items }
        ensures briefs { self.new.briefs.items ≡ self.old.briefs.items }
        ensures sums { self.new.sums.items ≡ self.old.sums.items }
        ensures ring { self.new.params ≡ self.old.params }
    {
        let more = instances as usize;
        self.instances.reserve(more)?;
        self.briefs.reserve(more)?;
        self.sums.reserve(more)?;
        self.live.reserve(more)?;
        self.attempts.reserve(more)?;
        if self.places < instances {
            self.places = instances;
        }
        Ok(())
    }

    /// Gives an instance up, because party `by` was lost.
    #[tactic(auto, unfolding(crate::specs::Spare::spare))]
    pub fn void(&mut self, id: u32, by: u32)
        requires stands { IsTrue (stands self.old.instances.items id) }
        ensures instances { self.new.instances.items ≡ after_void id by self.old.instances.items }
        ensures briefs { self.new.briefs.items ≡ self.old.briefs.items }
        ensures sums { self.new.sums.items ≡ self.old.sums.items }
        ensures ring { self.new.params ≡ self.old.params }
        ensures spare { spare self.new ≡ spare self.old }
    {
        numbered::void(&mut self.instances, id, by);
        living::leave_out(&mut self.live, id);
    }

    /// Gives up each instance that lacks the share of party p.
    #[tactic(auto, unfolding(crate::specs::Spare::spare))]
    pub fn lose(&mut self, p: u32)
        ensures instances { self.new.instances.items ≡ after_lost p self.old.instances.items }
        ensures briefs { self.new.briefs.items ≡ self.old.briefs.items }
        ensures sums { self.new.sums.items ≡ self.old.sums.items }
        ensures ring { self.new.params ≡ self.old.params }
        ensures spare { spare self.new ≡ spare self.old }
    {
        numbered::lose(&mut self.instances, p);
        living::leave_out_lost(&mut self.live, p);
    }

    /// Adds the rows of a share to the sums of an instance.
    #[tactic(auto, unfolding(crate::specs::Spare::spare, crate::specs::Tables::after_rows))]
    fn add_rows_of(&mut self, ring: &Ring, id: u32, rows: &Polys)
        requires ring { ring.now.params ≡ self.old.params }
        requires first { 1 ≤ id }
        requires last { id ≤ length self.old.sums.items }
        requires number { length rows.now ≡ length (slice_index_or self.old.sums.items (id - 1) []) }
        requires fits { All (Fits ring.now) rows.now }
        ensures sums { self.new.sums.items ≡ after_rows ring.now.params.q ring.now.params.n id rows.now self.old.sums.items }
        ensures instances { self.new.instances.items ≡ self.old.instances.items }
        ensures briefs { self.new.briefs.items ≡ self.old.briefs.items }
        ensures ring { self.new.params ≡ self.old.params }
        ensures spare { spare self.new ≡ spare self.old }
    {
        add_rows(ring, &mut self.sums[place_of(id)], rows);
    }

    /// Marks the share of party p for an instance as counted.
    #[tactic(auto, unfolding(crate::specs::Spare::spare), using(crate::proofs::Places::awaits_party))]
    fn mark(&mut self, id: u32, p: u32) -> Count
        requires { IsTrue (awaits self.old.instances.items id p) }
        ensures count { Some result ≡ count_of self.old.instances.items id p }
        ensures instances { self.new.instances.items ≡ after_share id p self.old.instances.items }
        ensures briefs { self.new.briefs.items ≡ self.old.briefs.items }
        ensures sums { self.new.sums.items ≡ self.old.sums.items }
        ensures ring { self.new.params ≡ self.old.params }
        ensures spare { spare self.new ≡ spare self.old }
    {
        living::count_share(&mut self.live, id, p);
        numbered::mark(&mut self.instances, id, p)
    }

    /// Counts the share of a party: its rows are added to the sums of that one instance.
    #[tactic(auto, using(crate::proofs::Places::awaits_issued))]
    pub fn count(&mut self, ring: &Ring, share: &Share) -> Count
        requires ring { ring.now.params ≡ self.old.params }
        requires awaited { IsTrue (awaits self.old.instances.items share.now.id share.now.party) }
        requires number { length share.now.rows ≡ length (slice_index_or self.old.sums.items (share.now.id - 1) []) }
        requires fits { All (Fits ring.now) share.now.rows }
        ensures count { Some result ≡ count_of self.old.instances.items share.now.id share.now.party }
        ensures instances { self.new.instances.items ≡ after_share share.now.id share.now.party self.old.instances.items }
        ensures sums { self.new.sums.items ≡ after_rows ring.now.params.q ring.now.params.n share.now.id share.now.rows self.old.sums.items }
        ensures briefs { self.new.briefs.items ≡ self.old.briefs.items }
        ensures ring { self.new.params ≡ self.old.params }
        ensures spare { spare self.new ≡ spare self.old }
    {
        self.add_rows_of(ring, share.id, &share.rows);
        self.mark(share.id, share.party)
    }

    /// Puts an instance behind the others, for the last group of its brief, with the brief and with sums to
    /// which no share is added, and gives its number.
    #[tactic(auto, unfolding(crate::specs::Spare::spare))]
    pub fn issue(&mut self, signature: Signature, brief: Arc<Brief>, sums: Polys) -> u32
        requires room { 1 ≤ spare self.old }
        requires few { length self.old.instances.items < 2 ^ 30 }
        requires id { brief.value.id ≡ length self.old.instances.items + 1 }
        requires signature { brief.value.signature ≡ signature }
        requires some_group { 1 ≤ length brief.value.groups.value }
        requires few_groups { length brief.value.groups.value ≤ 2 ^ 30 }
        requires zeros { sums ≡ no_sums self.old.params signature }
        ensures id { result ≡ length self.old.instances.items + 1 }
        ensures instances { self.new.instances.items
            ≡ with_fresh self.old.instances.items signature brief.value.set brief.value.round1
            (last_place brief.value.groups.value) }
        ensures briefs { self.new.briefs.items ≡ self.old.briefs.items ++ brief ∷ [] }
        ensures sums { self.new.sums.items ≡ self.old.sums.items ++ sums ∷ [] }
        ensures ring { self.new.params ≡ self.old.params }
        ensures spare { spare self.new + 1 ≡ spare self.old }
    {
        let attempt = count_attempt(&mut self.attempts, signature);
        let id = self.instances.len() as u32 + 1;
        let instance = numbered::opened(id, attempt, signature, &brief);
        self.instances.push_reserved(instance);
        self.live.push_reserved(instance);
        self.briefs.push_reserved(brief);
        self.sums.push_reserved(sums);
        self.places -= 1;
        id
    }
}
