ghost use Rattle.std.specs.Prelude.{◌≡◌, ◌≤◌, ◌-◌, ◌↔◌, ℕ, length, All, Some, IfOk, IfSome, IsSome, IsTrue, option_copied, option_map};
ghost use Rattle.ring_spec.specs.Ring.{IsPoly};
ghost use Rattle.proto_names.specs.Names.{is_void};
ghost use Rattle.proto_names.specs.Instances.{instance, owed_shares, after_share};
ghost use Rattle.proto_names.specs.Roles.{role_of};
ghost use Rattle.share_spec.specs.Sets.{count as number_of};
ghost use Rattle.participants.specs.Live.{live_ones};
ghost use Rattle.participants.specs.Loads.{load_in, loads_of, chosen};
ghost use Rattle.instance_table.specs.Tables.{role_told, row_count, row_counts, awaits, stands, told};

use crate::{Brief, Table, living};
use mod_ring::Polys;
use param_set::Ids;
use participants::Loads;
use proto_names::{Instance, PartySet, Stage, lacks};
use std::alloc::{AllocError, Global};
use std::sync::Arc;

/// Whether an instance is void.
#[tactic(auto, unfolding(proto_names::specs::Names::is_void))]
fn is_void(instance: &Instance) -> bool
    ensures { result ≡ is_void instance.now.stage }
{
    matches!(instance.stage, Stage::Void { .. })
}

/// The numbers of the instances that lack the share of party p, in the order of the list.
#[tactic(auto, unfolding(proto_names::specs::Instances::owed_shares))]
fn owed(alloc: Global, p: u32, instances: &[Instance]) -> Result<Vec<u32>, AllocError>
    ensures { IfOk result (λ ids. ids.items ≡ owed_shares p instances.now) }
{
    instances
        .iter()
        .filter(|instance| lacks(p, instance))
        .map(|instance| instance.id)
        .collect(alloc)
}

/// The place of an instance in the lists, for a number from 1 on.
pub(crate) fn place_of(id: u32) -> usize
    requires { 1 ≤ id }
    ensures { result ≡ id - 1 }
{
    id as usize - 1
}

impl Table {
    /// How many instances were issued.
    pub fn issued(&self) -> u32
        ensures { result ≡ length self.now.instances.items }
    {
        self.instances.len() as u32
    }

    /// All instances, in the order of their numbers.
    pub fn instances(&self) -> &[Instance]
        ensures { result.now ≡ self.now.instances.items }
    {
        self.instances.as_slice()
    }

    /// The instances that aren't void, in the order of their numbers.
    pub fn live(&self) -> &[Instance]
        ensures { result.now ≡ live_ones self.now.instances.items }
    {
        self.live.as_slice()
    }

    /// A copy of the instances that aren't void.
    pub fn live_copied(&self, alloc: Global) -> Result<Vec<Instance>, AllocError>
        ensures { IfOk result (λ copies. copies.items ≡ live_ones self.now.instances.items) }
    {
        Vec::from_slice(alloc, self.live.as_slice())
    }

    /// A copy of those that aren't void, as they are once the share of party p for one of them is
    /// counted.
    #[tactic(auto, using(crate::proofs::Places::awaits_party, crate::proofs::Lives::live_counted))]
    pub fn live_with_share(
        &self,
        alloc: Global,
        id: u32,
        p: u32,
    ) -> Result<Vec<Instance>, AllocError>
        requires { IsTrue (awaits self.now.instances.items id p) }
        ensures { IfOk result (λ copies. copies.items
            ≡ live_ones (after_share id p self.now.instances.items)) }
    {
        living::with_share_of(alloc, self.live.as_slice(), id, p)
    }

    /// How many opened instances wait for the share of party p.
    #[tactic(auto, using(crate::proofs::Lives::live_few))]
    pub fn load(&self, p: u32) -> u32
        requires first { 1 ≤ p }
        requires last { p ≤ 32 }
        ensures { result ≡ load_in (loads_of self.now.instances.items) p }
    {
        living::load(self.live.as_slice(), p)
    }

    /// Of a set the first k parties, by rising load and then by rising number, and None where it
    /// has fewer.
    #[tactic(auto, using(participants::proofs::Live::loads_live, crate::proofs::Lives::live_few))]
    pub fn pick(&self, among: PartySet, k: u32) -> Option<PartySet>
        ensures some { IfSome result (λ some. some.bits
            ≡ chosen k (loads_of self.now.instances.items) among.bits) }
        ensures enough { IsSome result ↔ (k ≤ number_of among.bits) }
    {
        participants::pick(&Loads::of(self.live.as_slice()), among, k)
    }

    /// The instance with a number, if that many were issued.
    pub fn find(&self, id: u32) -> Option<&Instance>
        ensures value { option_copied result ≡ instance self.now.instances.items id }
        ensures issued { IsSome result ↔ ((1 ≤ id) × (id ≤ length self.now.instances.items)) }
    {
        proto_names::find(self.instances.as_slice(), id)
    }

    /// Whether an instance was issued and isn't void.
    #[tactic(auto, unfolding(crate::specs::Tables::stands, proto_names::specs::Instances::instance))]
    fn stands(&self, id: u32) -> bool
        ensures value { result ≡ stands self.now.instances.items id }
        ensures first { IsTrue result → 1 ≤ id }
        ensures last { IsTrue result → id ≤ length self.now.instances.items }
    {
        match self.find(id) {
            None => false,
            Some(instance) => !is_void(instance),
        }
    }

    /// The entry of an instance in a list that goes by instances, if it was issued and isn't void.
    #[tactic(auto, unfolding(crate::specs::Tables::told))]
    fn entry_of<'a, T>(&self, id: u32, entries: &'a [T]) -> Option<&'a T>
        requires { length entries.now ≡ length self.now.instances.items }
        ensures value { option_copied result ≡ told self.now.instances.items entries.now id }
        ensures while_it_stands { IsSome result ↔ IsTrue (stands self.now.instances.items id) }
    {
        if self.stands(id) {
            entries.get(place_of(id))
        } else {
            None
        }
    }

    /// What the parties of an instance are told, if it was issued and isn't void.
    pub fn brief(&self, id: u32) -> Option<&Arc<Brief>>
        ensures value { option_copied result ≡ told self.now.instances.items self.now.briefs.items id }
        ensures while_it_stands { IsSome result ↔ IsTrue (stands self.now.instances.items id) }
        ensures role { IfSome result (λ brief. Some (role_told brief.now)
            ≡ option_map role_of (instance self.now.instances.items id)) }
    {
        self.entry_of(id, self.briefs.as_slice())
    }

    /// The sums of an instance, if it was issued and isn't void.
    pub fn sums(&self, id: u32) -> Option<&Polys>
        ensures value { option_copied result ≡ told self.now.instances.items self.now.sums.items id }
        ensures while_it_stands { IsSome result ↔ IsTrue (stands self.now.instances.items id) }
        ensures rows { IfSome result (λ sums. Some (row_count sums.now) ≡ option_map (row_counts self.now.params) (instance self.now.instances.items id)) }
        ensures fits { IfSome result (λ sums. All (IsPoly self.now.params.q self.now.params.n) sums.now) }
    {
        self.entry_of(id, self.sums.as_slice())
    }

    /// The numbers of the instances that lack the share of party p, rising.
    #[tactic(auto, using(crate::proofs::Lives::owed_live))]
    pub fn pending(&self, alloc: Global, p: u32) -> Result<Ids, AllocError>
        ensures { IfOk result (λ ids. ids ≡ owed_shares p self.now.instances.items) }
    {
        Ok(Ids::from_vec(owed(alloc, p, self.live.as_slice())?))
    }
}
