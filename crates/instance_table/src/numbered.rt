//! A list of all instances, in which the one with number i is the i-th.
ghost use Rattle.std.specs.Prelude.{◌≡◌, ◌≤◌, ◌+◌, ◌^◌, List, map, length, Some, IsTrue, vec_len};
ghost use Rattle.std.specs.List.{range_with_len, count_by};
ghost use Rattle.std.specs.Vec.{vec_capacity};
ghost use Rattle.proto_names.specs.Instances.{id_of, is_of, fresh, after_share, after_void, after_lost};
ghost use Rattle.proto_names.specs.Roles.{last_place};
ghost use Rattle.proto_names.specs.declared.instance.Instance.{Instance};
ghost use Rattle.instance_table.specs.Tables.{awaits, stands, count_of};

use crate::readers::place_of;
use crate::share::outcome;
use crate::{Brief, Count};
use proto_names::{
    Instance, PartySet, Signature, Stage, after_loss, given_up, missing, with_share,
};

/// A new instance under a number, for the last group of its brief.
#[tactic(auto, unfolding(proto_names::specs::Instances::fresh))]
pub(crate) fn opened(id: u32, attempt: u32, signature: Signature, brief: &Brief) -> Instance
    requires some_group { 1 ≤ length brief.now.groups.value }
    requires few_groups { length brief.now.groups.value ≤ 2 ^ 30 }
    ensures { (all : List Instance) → id ≡ length all + 1
        → attempt ≡ count_by (is_of signature) all + 1
        → result ≡ fresh all signature brief.now.set brief.now.round1
        (last_place brief.now.groups.value) }
{
    Instance {
        id,
        signature,
        set: brief.set,
        attempt,
        sent: PartySet { bits: 0 },
        stage: Stage::Opened,
        round1: brief.round1,
        group: brief.groups.last_place(),
    }
}

/// Gives the instance with a number up, because party `by` was lost.
#[tactic(auto, using(crate::proofs::Places::stands_issued))]
pub(crate) fn void(instances: &mut Vec<Instance>, id: u32, by: u32)
    requires numbered { map id_of instances.old.items
        ≡ range_with_len 1 (length instances.old.items) }
    requires stands { IsTrue (stands instances.old.items id) }
    ensures items { instances.new.items ≡ after_void id by instances.old.items }
    ensures len { vec_len instances.new ≡ vec_len instances.old }
    ensures capacity { vec_capacity instances.new ≡ vec_capacity instances.old }
{
    let place = place_of(id);
    let instance = given_up(by, &instances[place]);
    instances[place] = instance;
}

/// Gives up each instance that lacks the share of party p.
#[tactic(auto, unfolding(proto_names::specs::Instances::after_lost))]
pub(crate) fn lose(instances: &mut Vec<Instance>, p: u32)
    ensures items { instances.new.items ≡ after_lost p instances.old.items }
    ensures len { vec_len instances.new ≡ vec_len instances.old }
    ensures capacity { vec_capacity instances.new ≡ vec_capacity instances.old }
{
    for place in 0..instances.len() {
        let instance = after_loss(p, &instances[place]);
        instances[place] = instance;
    }
}

/// Marks the share of party p for the instance with a number as counted.
#[tactic(auto, using(crate::proofs::Places::awaits_issued, crate::proofs::Places::awaits_party))]
pub(crate) fn mark(instances: &mut Vec<Instance>, id: u32, p: u32) -> Count
    requires numbered { map id_of instances.old.items
        ≡ range_with_len 1 (length instances.old.items) }
    requires awaited { IsTrue (awaits instances.old.items id p) }
    ensures count { Some result ≡ count_of instances.old.items id p }
    ensures items { instances.new.items ≡ after_share id p instances.old.items }
    ensures len { vec_len instances.new ≡ vec_len instances.old }
    ensures capacity { vec_capacity instances.new ≡ vec_capacity instances.old }
{
    let place = place_of(id);
    let missing = missing(p, &instances[place]);
    let instance = with_share(p, &instances[place]);
    instances[place] = instance;
    outcome(missing)
}
