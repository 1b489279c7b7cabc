//! What the rules say to a call, over what they look at; nothing is changed.
ghost use Rattle.std.specs.Prelude.{◌≡◌, ◌≤◌, ◌<◌, [], length, slice_index_or, IsTrue};
ghost use Rattle.session_rules.specs.States.{seen, plan, circuit, is_taken_by};
ghost use Rattle.session_rules.specs.Steps.{says, does, counted, accepted, by_stage, is_input, join, lose, deliver, input, take, finish, give_back};

use crate::issue::has_done;
use crate::owed::{is_admitted, owner};
use crate::ready::next_ready;
use crate::{CircuitState, Deed, Fixed, Given, Reply, Verdict};
use proto_names::{Instance, PartySet, Signature, Stage, find, missing, rows_of};

/// A reply with which nothing is done.
pub fn says(reply: Reply) -> Verdict
    ensures { result ≡ says reply }
{
    Verdict {
        reply,
        deed: Deed::Nothing,
    }
}

/// A reply with which something is done.
fn does(reply: Reply, deed: Deed) -> Verdict
    ensures { result ≡ does reply deed }
{
    Verdict { reply, deed }
}

/// Party p joins.
#[tactic(auto, unfolding(crate::specs::Steps::join))]
pub fn judge_join(present: &PartySet, p: u32) -> Verdict
    ensures { result ≡ join (seen present.now.bits [] [] []) p }
{
    if present.has(p) {
        says(Reply::Already)
    } else {
        does(Reply::Joined, Deed::Joins { p })
    }
}

/// Party p is lost.
#[tactic(auto, unfolding(crate::specs::Steps::lose))]
pub fn judge_lose(present: &PartySet, p: u32) -> Verdict
    ensures { result ≡ lose (seen present.now.bits [] [] []) p }
{
    if present.has(p) {
        does(Reply::Left, Deed::Loses { p })
    } else {
        says(Reply::Already)
    }
}

/// The reply to a share that is counted.
#[tactic(auto, unfolding(crate::specs::Steps::counted))]
fn counted(p: u32, instance: &Instance) -> Reply
    requires first { 1 ≤ p }
    requires last { p ≤ 32 }
    ensures { result ≡ counted p instance.now }
{
    let missing = missing(p, instance);
    if missing == 0 {
        Reply::Completed
    } else {
        Reply::Counted { missing }
    }
}

/// A share of so many rows for an instance that isn't void.
#[tactic(auto, unfolding(crate::specs::Steps::accepted))]
fn accepted(fixed: &Fixed, instance: &Instance, p: u32, rows: u32) -> Verdict
    requires gadget { fixed.now.rows ≤ 55 }
    requires first { 1 ≤ p }
    requires last { p ≤ 32 }
    ensures { result ≡ accepted fixed.now instance.now p rows }
{
    if instance.sent.has(p) {
        return says(Reply::Repeat);
    }
    let want = rows_of(instance.signature, fixed.rows as u64);
    if want != rows {
        return says(Reply::Shape { want, got: rows });
    }
    does(
        counted(p, instance),
        Deed::Counts {
            instance: *instance,
            p,
        },
    )
}

/// A share of so many rows for any instance in which the party takes part.
#[tactic(auto, unfolding(crate::specs::Steps::by_stage))]
fn by_stage(fixed: &Fixed, instance: &Instance, p: u32, rows: u32) -> Verdict
    requires gadget { fixed.now.rows ≤ 55 }
    requires first { 1 ≤ p }
    requires last { p ≤ 32 }
    ensures { result ≡ by_stage fixed.now instance.now p rows instance.now.stage }
{
    match instance.stage {
        Stage::Void { by } => says(Reply::Late { by }),
        Stage::Opened | Stage::Complete => accepted(fixed, instance, p, rows),
    }
}

/// A share of party p for the instance with a number, of so many rows.
#[tactic(auto, unfolding(crate::specs::Steps::deliver, share_spec::specs::Sets::has))]
pub fn judge_deliver(fixed: &Fixed, instances: &[Instance], id: u32, p: u32, rows: u32) -> Verdict
    requires gadget { fixed.now.rows ≤ 55 }
    requires few { length instances.now ≤ 4294967295 }
    ensures { result ≡ deliver fixed.now (seen 0 instances.now [] []) id p rows }
{
    match find(instances, id) {
        None => says(Reply::Unknown {
            issued: instances.len() as u32,
        }),
        Some(instance) => {
            if instance.set.has(p) {
                by_stage(fixed, instance, p, rows)
            } else {
                says(Reply::Stranger)
            }
        }
    }
}

/// Whether circuit c is admitted and has an input k.
#[tactic(auto, unfolding(crate::specs::Steps::is_input))]
fn is_input(fixed: &Fixed, c: u32, k: u32) -> bool
    ensures input { result ≡ is_input fixed.now c k }
    ensures there { IsTrue result → c < length fixed.now.plans }
{
    match fixed.plans.as_slice().get(c as usize) {
        None => false,
        Some(plan) => is_admitted(plan) && (k as usize) < plan.owners.len(),
    }
}

/// An input k of circuit c.
#[tactic(auto, unfolding(crate::specs::Steps::input))]
pub fn judge_input(
    fixed: &Fixed,
    present: &PartySet,
    instances: &[Instance],
    given: &[Given],
    c: u32,
    k: u32,
) -> Verdict
    requires given { length given.now ≡ length fixed.now.plans }
    ensures { result ≡ input fixed.now (seen present.now.bits instances.now given.now []) c k }
{
    if !is_input(fixed, c, k) {
        return says(Reply::NoInput);
    }
    if !has_done(Signature::Pk, instances) {
        return says(Reply::NoKey);
    }
    if !present.has(owner(&fixed.plans.as_slice()[c as usize], k)) {
        return says(Reply::Absent);
    }
    if given[c as usize].has(k) {
        return says(Reply::Repeat);
    }
    does(
        Reply::Given,
        Deed::Gives {
            circuit: c,
            input: k,
        },
    )
}

/// A circuit is taken.
#[tactic(auto, unfolding(crate::specs::Steps::take))]
pub fn judge_take(
    fixed: &Fixed,
    instances: &[Instance],
    given: &[Given],
    circuits: &[CircuitState],
    caller: u32,
) -> Verdict
    requires few { length circuits.now ≤ 64 }
    requires given { length given.now ≡ length circuits.now }
    requires plans { length fixed.now.plans ≡ length circuits.now }
    ensures { result ≡ take fixed.now (seen 0 instances.now given.now circuits.now) caller }
{
    match next_ready(fixed, instances, given, circuits) {
        None => says(Reply::Nothing),
        Some(circuit) => does(
            Reply::Job { circuit },
            Deed::Turns {
                circuit,
                to: CircuitState::Taken { caller },
            },
        ),
    }
}

/// Whether a circuit is a caller's; one that isn't there is nobody's.
fn is_taken_by(circuits: &[CircuitState], caller: u32, c: u32) -> bool
    ensures { result ≡ is_taken_by caller (circuit circuits.now c) }
{
    match circuits.get(c as usize) {
        Some(CircuitState::Taken { caller: whose }) => *whose == caller,
        _ => false,
    }
}

/// Circuit c is evaluated.
#[tactic(auto, unfolding(crate::specs::Steps::finish))]
pub fn judge_finish(circuits: &[CircuitState], caller: u32, c: u32) -> Verdict
    ensures { result ≡ finish (seen 0 [] [] circuits.now) caller c }
{
    if is_taken_by(circuits, caller, c) {
        does(
            Reply::Finished,
            Deed::Turns {
                circuit: c,
                to: CircuitState::Evaluated,
            },
        )
    } else {
        says(Reply::NotTaken)
    }
}

/// Circuit c is given back.
#[tactic(auto, unfolding(crate::specs::Steps::give_back))]
pub fn judge_give_back(circuits: &[CircuitState], caller: u32, c: u32) -> Verdict
    ensures { result ≡ give_back (seen 0 [] [] circuits.now) caller c }
{
    if is_taken_by(circuits, caller, c) {
        does(
            Reply::Returned,
            Deed::Turns {
                circuit: c,
                to: CircuitState::Idle,
            },
        )
    } else {
        says(Reply::NotTaken)
    }
}
