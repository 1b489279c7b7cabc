//! Which circuit may be evaluated next.
ghost use Rattle.std.specs.Prelude.{◌≡◌, ◌<◌, ◌≤◌, [], length};
ghost use Rattle.std.specs.List.{find, range_with_len, list_all};
ghost use Rattle.session_rules.specs.States.{seen, circuit};
ghost use Rattle.session_rules.specs.Steps.{has_turn, has_keys, ready, next_ready};

use crate::issue::has_done;
use crate::{CircuitState, Fixed, Given, Plan};
use param_set::Ids;
use proto_names::{Instance, Signature};

/// Whether the keys of some rotations are complete.
fn has_turns(instances: &[Instance], turns: &Ids) -> bool
    ensures { result ≡ list_all (has_turn (seen 0 instances.now [] [])) turns.now }
{
    turns
        .as_slice()
        .iter()
        .all(|g| has_done(Signature::Rot(*g), instances))
}

/// Whether the keys that a circuit needs are complete.
#[tactic(auto, unfolding(crate::specs::Steps::has_keys))]
fn has_keys(instances: &[Instance], plan: &Plan) -> bool
    ensures { result ≡ has_keys (seen 0 instances.now [] []) plan.now }
{
    (!plan.product || has_done(Signature::Rlk2, instances)) && has_turns(instances, &plan.turns)
}

/// Whether a circuit may be evaluated: it is idle, its inputs are given, and its keys are complete.
#[tactic(auto, unfolding(crate::specs::Steps::ready, crate::specs::Steps::has_keys))]
pub fn is_ready(
    fixed: &Fixed,
    instances: &[Instance],
    given: &[Given],
    circuits: &[CircuitState],
    c: u32,
) -> bool
    requires there { c < length circuits.now }
    requires given { length given.now ≡ length circuits.now }
    requires plans { length fixed.now.plans ≡ length circuits.now }
    ensures { result ≡ ready fixed.now (seen 0 instances.now given.now circuits.now) c }
{
    let place = c as usize;
    matches!(circuits[place], CircuitState::Idle)
        && given[place].all()
        && has_keys(instances, &fixed.plans.as_slice()[place])
}

/// The first circuit that may be evaluated.
#[tactic(auto, unfolding(crate::specs::Steps::next_ready))]
pub fn next_ready(
    fixed: &Fixed,
    instances: &[Instance],
    given: &[Given],
    circuits: &[CircuitState],
) -> Option<u32>
    requires few { length circuits.now ≤ 64 }
    requires given { length given.now ≡ length circuits.now }
    requires plans { length fixed.now.plans ≡ length circuits.now }
    ensures { result ≡ next_ready fixed.now (seen 0 instances.now given.now circuits.now) }
{
    (0..circuits.len() as u32).find(|c| is_ready(fixed, instances, given, circuits, *c))
}
