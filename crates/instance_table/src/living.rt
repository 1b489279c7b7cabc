//! A list of the instances that aren't void.
ghost use Rattle.std.specs.Prelude.{◌≡◌, ◌≤◌, ◌^◌, length, map, filter, IfOk, vec_len};
ghost use Rattle.std.specs.List.{count_by};
ghost use Rattle.std.specs.Vec.{vec_capacity};
ghost use Rattle.proto_names.specs.Instances.{counted_at, lacks};
ghost use Rattle.instance_table.specs.Lists.{is_other, keeps};

use proto_names::{Instance, counted_at, lacks};
use std::alloc::{AllocError, Global};

/// Leaves the instance with a number out.
pub(crate) fn leave_out(live: &mut Vec<Instance>, id: u32)
    ensures items { live.new.items ≡ filter (is_other id) live.old.items }
    ensures len { vec_len live.new ≤ vec_len live.old }
    ensures capacity { vec_capacity live.new ≡ vec_capacity live.old }
{
    live.retain(|instance| instance.id != id);
}

/// Leaves out those that lack the share of party p.
pub(crate) fn leave_out_lost(live: &mut Vec<Instance>, p: u32)
    ensures items { live.new.items ≡ filter (keeps p) live.old.items }
    ensures len { vec_len live.new ≤ vec_len live.old }
    ensures capacity { vec_capacity live.new ≡ vec_capacity live.old }
{
    live.retain(|instance| !lacks(p, instance));
}

/// Counts the share of party p for the instance with a number.
pub(crate) fn count_share(live: &mut Vec<Instance>, id: u32, p: u32)
    requires first { 1 ≤ p }
    requires last { p ≤ 32 }
    ensures items { live.new.items ≡ map (counted_at id p) live.old.items }
    ensures len { vec_len live.new ≡ vec_len live.old }
    ensures capacity { vec_capacity live.new ≡ vec_capacity live.old }
{
    for place in 0..live.len() {
        let instance = counted_at(id, p, &live[place]);
        live[place] = instance;
    }
}

/// A copy, as they are once the share of party p for the one with a number is counted.
pub(crate) fn with_share_of(
    alloc: Global,
    live: &[Instance],
    id: u32,
    p: u32,
) -> Result<Vec<Instance>, AllocError>
    requires first { 1 ≤ p }
    requires last { p ≤ 32 }
    ensures { IfOk result (λ copies. copies.items ≡ map (counted_at id p) live.now) }
{
    live.iter()
        .map(|instance| counted_at(id, p, instance))
        .collect(alloc)
}

/// How many lack the share of party p.
pub(crate) fn load(live: &[Instance], p: u32) -> u32
    requires { length live.now ≤ 2 ^ 30 }
    ensures { result ≡ count_by (lacks p) live.now }
{
    live.iter().filter(|instance| lacks(p, instance)).count() as u32
}
