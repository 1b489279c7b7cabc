ghost use Rattle.std.specs.Prelude.{◌≡◌, ◌≤◌, ◌+◌, ◌^◌, [], map, length, All, IfOk, vec_len};
ghost use Rattle.std.specs.List.{range_with_len, count_by};
ghost use Rattle.std.specs.Vec.{vec_capacity};
ghost use Rattle.ring_spec.specs.Ring.{IsPoly};
ghost use Rattle.proto_names.specs.Instances.{id_of, is_of};
ghost use Rattle.proto_names.specs.Roles.{role_of};
ghost use Rattle.proto_names.specs.declared.signature.Signature.{Signature};
ghost use Rattle.participants.specs.Live.{live_ones};
ghost use Rattle.instance_table.specs.Attempts.{attempts_in};
ghost use Rattle.instance_table.specs.Tables.{role_told, row_count, row_counts};

use crate::Brief;
use crate::attempts::Attempt;
use mod_ring::{Polys, Ring};
use param_set::Params;
use proto_names::Instance;
use std::alloc::{AllocError, Global};
use std::sync::Arc;

/// The instances of a session, each with its brief and its sums, in the order in which they were
/// issued: the one with number i is the i-th. Those that aren't void are kept in a list of their
/// own beside them, so that of the changes only the loss of a party walks over all.
#[derive(Drop)]
pub struct Table {
    /// The parameters of the ring to which the sums belong.
    pub(crate) params: Params,
    pub(crate) instances: Vec<Instance>,
    pub(crate) briefs: Vec<Arc<Brief>>,
    /// Of each instance the sum of the shares that were counted, row by row.
    pub(crate) sums: Vec<Polys>,
    /// The instances that aren't void, in the order of their numbers.
    pub(crate) live: Vec<Instance>,
    /// How many instances of each signature were issued, void ones too.
    pub(crate) attempts: Vec<Attempt>,
    /// How many more instances there is room for.
    pub(crate) places: u32,
    pub ghost few: { length instances.items ≤ 2 ^ 30 },
    pub ghost numbered: { map id_of instances.items ≡ range_with_len 1 (length instances.items) },
    pub ghost briefed: { map role_told briefs.items ≡ map role_of instances.items },
    pub ghost rows: { map row_count sums.items ≡ map (row_counts params) instances.items },
    pub ghost fits: { All (All (IsPoly params.q params.n)) sums.items },
    pub ghost alive: { live.items ≡ live_ones instances.items },
    pub ghost counted: { (σ : Signature)
        → attempts_in attempts.items σ ≡ count_by (is_of σ) instances.items },
    pub ghost room_for_instances: { vec_len instances + places ≤ vec_capacity instances },
    pub ghost room_for_briefs: { vec_len briefs + places ≤ vec_capacity briefs },
    pub ghost room_for_sums: { vec_len sums + places ≤ vec_capacity sums },
    pub ghost room_for_live: { vec_len live + places ≤ vec_capacity live },
    pub ghost room_for_attempts: { vec_len attempts + places ≤ vec_capacity attempts },
}

impl Table {
    /// A table over this ring, with no instance.
    #[tactic(auto, unfolding(participants::specs::Live::live_ones, crate::specs::Attempts::attempts_in))]
    pub fn new(alloc: Global, ring: &Ring) -> Result<Table, AllocError>
        ensures ring { IfOk result (λ table. table.params ≡ ring.now.params) }
        ensures instances { IfOk result (λ table. table.instances.items ≡ []) }
        ensures briefs { IfOk result (λ table. table.briefs.items ≡ []) }
        ensures sums { IfOk result (λ table. table.sums.items ≡ []) }
    {
        Ok(Table {
            params: *ring.params(),
            instances: Vec::new(alloc),
            briefs: Vec::new(alloc),
            sums: Vec::new(alloc),
            live: Vec::new(alloc),
            attempts: Vec::new(alloc),
            places: 0,
        })
    }
}
