//! The rules of issue, over what they look at: the fixed data, the parties that are present, the
//! instances with the loads that they make, and the circuits.
ghost use Rattle.std.specs.Prelude.{◌≡◌, ◌<◌, ◌≤◌, [], length};
ghost use Rattle.std.specs.List.{find, range_with_len};
ghost use Rattle.proto_names.specs.Instances.{lives, is_done};
ghost use Rattle.participants.specs.Loads.{loads_of};
ghost use Rattle.session_rules.specs.States.{seen, circuit, is_evaluated, has_live, has_done};
ghost use Rattle.session_rules.specs.Issues.{keys, enough, condition, may_issue, may_decrypt, next_decryption, next_signature, outdated, rule_1, issued_as, rule_2, next_move};

use crate::{CircuitState, Fixed, Move};
use participants::{Loads, choose};
use proto_names::{Instance, PartySet, Signature, Stage};

/// Whether an instance has a signature, and is opened or complete.
#[tactic(auto, unfolding(proto_names::specs::Instances::lives))]
pub(crate) fn lives(signature: Signature, instance: &Instance) -> bool
    ensures { result ≡ lives signature instance.now }
{
    instance.signature.is(signature) && !matches!(instance.stage, Stage::Void { .. })
}

/// Whether an instance has a signature, and is complete.
#[tactic(auto, unfolding(proto_names::specs::Instances::is_done))]
pub(crate) fn is_done(signature: Signature, instance: &Instance) -> bool
    ensures { result ≡ is_done signature instance.now }
{
    instance.signature.is(signature) && matches!(instance.stage, Stage::Complete)
}

/// Whether an instance of a signature is opened or complete.
#[tactic(auto, unfolding(crate::specs::States::has_live))]
pub fn has_live(signature: Signature, instances: &[Instance]) -> bool
    ensures { result ≡ has_live signature instances.now }
{
    instances.iter().any(|instance| lives(signature, instance))
}

/// Whether an instance of a signature is complete.
#[tactic(auto, unfolding(crate::specs::States::has_done))]
pub fn has_done(signature: Signature, instances: &[Instance]) -> bool
    ensures { result ≡ has_done signature instances.now }
{
    instances
        .iter()
        .any(|instance| is_done(signature, instance))
}

/// Whether as many parties are present as act together.
#[tactic(auto, unfolding(crate::specs::Issues::enough))]
fn enough(fixed: &Fixed, present: &PartySet) -> bool
    ensures { result ≡ enough fixed.now (seen present.now.bits [] [] []) }
{
    fixed.threshold <= present.count()
}

/// Whether the condition of a signature stands.
#[tactic(auto, using(crate::proofs::Seen::looks), unfolding(crate::specs::Issues::condition))]
fn condition(
    fixed: &Fixed,
    present: &PartySet,
    instances: &[Instance],
    signature: Signature,
) -> bool
    ensures { result ≡ condition fixed.now (seen present.now.bits instances.now [] []) signature }
{
    if signature.is(Signature::Rlk2) {
        has_done(Signature::Rlk1, instances)
    } else {
        enough(fixed, present)
    }
}

/// Whether an instance of a signature may be issued.
#[tactic(auto, unfolding(crate::specs::Issues::may_issue))]
fn may_issue(
    fixed: &Fixed,
    present: &PartySet,
    instances: &[Instance],
    signature: Signature,
) -> bool
    ensures { result ≡ may_issue fixed.now (seen present.now.bits instances.now [] []) signature }
{
    condition(fixed, present, instances, signature) && !has_live(signature, instances)
}

/// Whether a circuit is evaluated.
fn is_evaluated(circuits: &[CircuitState], c: u32) -> bool
    requires { c < length circuits.now }
    ensures { result ≡ is_evaluated (circuit circuits.now c) }
{
    matches!(circuits[c as usize], CircuitState::Evaluated)
}

/// Whether the decryption of a circuit is needed and may be issued.
#[tactic(auto, using(crate::proofs::Seen::decrypt_seen))]
fn may_decrypt(
    fixed: &Fixed,
    present: &PartySet,
    instances: &[Instance],
    circuits: &[CircuitState],
    c: u32,
) -> bool
    requires { c < length circuits.now }
    ensures { result ≡ may_decrypt fixed.now (seen present.now.bits instances.now [] circuits.now) c }
{
    is_evaluated(circuits, c) && may_issue(fixed, present, instances, Signature::Dec(c))
}

/// The first circuit whose decryption may be issued.
fn first_decryption(
    fixed: &Fixed,
    present: &PartySet,
    instances: &[Instance],
    circuits: &[CircuitState],
) -> Option<u32>
    requires few { length circuits.now ≤ 64 }
    ensures { result ≡ find (may_decrypt fixed.now (seen present.now.bits instances.now [] circuits.now)) (range_with_len 0 (length circuits.now)) }
{
    (0..circuits.len() as u32).find(|c| may_decrypt(fixed, present, instances, circuits, *c))
}

/// The decryption of the first circuit for which it may be issued.
#[tactic(auto, unfolding(crate::specs::Issues::next_decryption))]
fn next_decryption(
    fixed: &Fixed,
    present: &PartySet,
    instances: &[Instance],
    circuits: &[CircuitState],
) -> Option<Signature>
    requires few { length circuits.now ≤ 64 }
    ensures { result ≡ next_decryption fixed.now (seen present.now.bits instances.now [] circuits.now) }
{
    first_decryption(fixed, present, instances, circuits).map(|c| Signature::Dec(c))
}

/// The first key that is needed and may be issued.
fn first_key(
    fixed: &Fixed,
    needed: &[Signature],
    present: &PartySet,
    instances: &[Instance],
) -> Option<Signature>
    ensures { result ≡ find (may_issue fixed.now (seen present.now.bits instances.now [] [])) needed.now }
{
    needed.iter().copied().find(|signature| may_issue(fixed, present, instances, *signature))
}

/// The first signature that is needed and may be issued.
#[tactic(auto, using(crate::proofs::Seen::looks), unfolding(crate::specs::Issues::next_signature))]
fn next_signature(
    fixed: &Fixed,
    needed: &[Signature],
    present: &PartySet,
    instances: &[Instance],
    circuits: &[CircuitState],
) -> Option<Signature>
    requires keys { needed.now ≡ keys fixed.now }
    requires few { length circuits.now ≤ 64 }
    ensures { result ≡ next_signature fixed.now (seen present.now.bits instances.now [] circuits.now) }
{
    match first_key(fixed, needed, present, instances) {
        Some(signature) => Some(signature),
        None => next_decryption(fixed, present, instances, circuits),
    }
}

/// The move that gives a complete first round up, if one of its parties is absent.
#[tactic(auto, unfolding(crate::specs::Issues::outdated))]
fn outdated(present: &PartySet, first_round: &Instance) -> Option<Move>
    ensures { result ≡ outdated (seen present.now.bits [] [] []) first_round.now }
{
    let id = first_round.id;
    match first_round.set.first_outside(present) {
        Some(by) => Some(Move::GiveUp { id, by }),
        None => None,
    }
}

/// The first complete instance of a signature.
fn first_done(signature: Signature, instances: &[Instance]) -> Option<Instance>
    ensures { result ≡ find (is_done signature) instances.now }
{
    instances
        .iter()
        .copied()
        .find(|instance| is_done(signature, instance))
}

/// Rule 1: a complete first round without a second one is given up, where one of its parties is absent.
#[tactic(auto, using(crate::proofs::Seen::looks), unfolding(crate::specs::Issues::rule_1))]
fn rule_1(present: &PartySet, instances: &[Instance]) -> Option<Move>
    ensures { result ≡ rule_1 (seen present.now.bits instances.now [] []) }
{
    if has_live(Signature::Rlk2, instances) {
        return None;
    }
    match first_done(Signature::Rlk1, instances) {
        Some(first_round) => outdated(present, &first_round),
        None => None,
    }
}

/// The move that issues an instance of a signature: a second round for the parties of its first, all else for
/// the first T parties that are present, by rising load and then by rising number.
#[tactic(auto, unfolding(crate::specs::Issues::issued_as, crate::specs::Issues::chosen_present))]
fn issued_as(
    fixed: &Fixed,
    present: &PartySet,
    instances: &[Instance],
    loads: &Loads,
    signature: Signature,
) -> Option<Move>
    requires loads { loads.now ≡ loads_of instances.now }
    ensures { result ≡ issued_as fixed.now (seen present.now.bits instances.now [] []) signature }
{
    if signature.is(Signature::Rlk2) {
        return first_done(Signature::Rlk1, instances).map(|first_round| Move::Issue {
            signature: Signature::Rlk2,
            set: first_round.set,
            round1: first_round.id,
        });
    }
    Some(Move::Issue {
        signature,
        set: choose(loads, *present, fixed.threshold),
        round1: 0,
    })
}

/// Rule 2: the next signature is issued.
#[tactic(auto, using(crate::proofs::Seen::looks), unfolding(crate::specs::Issues::rule_2))]
fn rule_2(
    fixed: &Fixed,
    needed: &[Signature],
    present: &PartySet,
    instances: &[Instance],
    loads: &Loads,
    circuits: &[CircuitState],
) -> Option<Move>
    requires keys { needed.now ≡ keys fixed.now }
    requires few { length circuits.now ≤ 64 }
    requires loads { loads.now ≡ loads_of instances.now }
    ensures { result ≡ rule_2 fixed.now (seen present.now.bits instances.now [] circuits.now) }
{
    match next_signature(fixed, needed, present, instances, circuits) {
        Some(signature) => issued_as(fixed, present, instances, loads, signature),
        None => None,
    }
}

/// The next move, if a rule applies. Rule 1 is tried first.
#[tactic(auto, using(crate::proofs::Seen::looks), unfolding(crate::specs::Issues::next_move))]
pub(crate) fn next_move(
    fixed: &Fixed,
    needed: &[Signature],
    present: &PartySet,
    instances: &[Instance],
    loads: &Loads,
    circuits: &[CircuitState],
) -> Option<Move>
    requires keys { needed.now ≡ keys fixed.now }
    requires few { length circuits.now ≤ 64 }
    requires loads { loads.now ≡ loads_of instances.now }
    ensures { result ≡ next_move fixed.now (seen present.now.bits instances.now [] circuits.now) }
{
    match rule_1(present, instances) {
        Some(given_up) => Some(given_up),
        None => rule_2(fixed, needed, present, instances, loads, circuits),
    }
}
