//! What a party owes: shares of instances, and inputs.
ghost use Rattle.std.specs.Prelude.{◌≡◌, ℕ, ◌<◌, ◌≤◌, [], length, map, filter, IfOk, slice_index_or};
ghost use Rattle.std.specs.List.{range_with_len, flat_map};
ghost use Rattle.proto_names.specs.Instances.{lacks, owed_shares};
ghost use Rattle.session_rules.specs.States.{seen, is_admitted, plan};
ghost use Rattle.session_rules.specs.Steps.{place, lacks_input, owed_of, owed_inputs};
ghost use Rattle.proto_names.specs.declared.signature.Signature.TheVariants.{Pk};

use crate::issue::has_done;
use crate::{CircuitState, Fixed, Given, Plan};
use param_set::{Ids, Slots};
use proto_names::{Instance, Signature};
use std::alloc::{AllocError, Global};

/// Whether a circuit is admitted.
pub(crate) fn is_admitted(plan: &Plan) -> bool
    ensures { result ≡ is_admitted plan.now }
{
    !matches!(plan.opening, CircuitState::Refused { .. })
}

/// The owner of input k of a circuit, and 0 where there is no such input.
pub(crate) fn owner(plan: &Plan, k: u32) -> u32
    ensures { result ≡ slice_index_or plan.now.owners k 0 }
{
    let owners = plan.owners.as_slice();
    let place = k as usize;
    if place < owners.len() {
        owners[place]
    } else {
        0
    }
}

/// Whether input k of circuit c is party p's and isn't given.
#[tactic(auto, unfolding(crate::specs::Steps::lacks_input))]
fn lacks_input(fixed: &Fixed, given: &[Given], p: u32, c: u32, k: u32) -> bool
    requires plans { c < length fixed.now.plans }
    requires given { c < length given.now }
    ensures { result ≡ lacks_input fixed.now (seen 0 [] given.now []) p c k }
{
    owner(&fixed.plans.as_slice()[c as usize], k) == p && !given[c as usize].has(k)
}

/// The places of party p's inputs of circuit c that aren't given, of its first `inputs` ones.
fn places(
    alloc: Global,
    fixed: &Fixed,
    given: &[Given],
    p: u32,
    c: u32,
    inputs: u32,
) -> Result<Vec<(u32, u32)>, AllocError>
    requires plans { c < length fixed.now.plans }
    requires given { c < length given.now }
    ensures { IfOk result (λ v. v.items ≡ map (place c) (filter (lacks_input fixed.now (seen 0 [] given.now []) p c) (range_with_len 0 inputs))) }
{
    (0..inputs)
        .filter(|k| lacks_input(fixed, given, p, c, *k))
        .map(|k| (c, k))
        .collect(alloc)
}

/// The places of party p's inputs of circuit c that aren't given, if the circuit is admitted.
#[tactic(auto, unfolding(crate::specs::Steps::owed_of))]
fn owed_of(
    alloc: Global,
    fixed: &Fixed,
    given: &[Given],
    p: u32,
    c: u32,
) -> Result<Vec<(u32, u32)>, AllocError>
    requires plans { c < length fixed.now.plans }
    requires given { c < length given.now }
    requires few { length (plan fixed.now c).owners ≤ 1024 }
    ensures { IfOk result (λ v. v.items ≡ owed_of fixed.now (seen 0 [] given.now []) p c) }
{
    let plan = &fixed.plans.as_slice()[c as usize];
    if is_admitted(plan) {
        places(alloc, fixed, given, p, c, plan.owners.len() as u32)
    } else {
        Ok(Vec::new(alloc))
    }
}

/// The places of party p's inputs of the first `circuits` circuits, rising.
#[tactic(auto, using(crate::proofs::Gathered::one_by_one))]
fn owed_of_all(
    alloc: Global,
    fixed: &Fixed,
    given: &[Given],
    p: u32,
    circuits: u32,
) -> Result<Vec<(u32, u32)>, AllocError>
    requires plans { circuits ≤ length fixed.now.plans }
    requires given { circuits ≤ length given.now }
    requires few { (c : ℕ) → c < circuits → length (plan fixed.now c).owners ≤ 1024 }
    ensures { IfOk result (λ v. v.items ≡ flat_map (owed_of fixed.now (seen 0 [] given.now []) p) (range_with_len 0 circuits)) }
{
    let mut owed = Vec::new(alloc);
    'circuits: for c in 0..circuits {
        let more = owed_of(alloc, fixed, given, p, c)?;
        owed.extend_from_slice(more.as_slice())?;
    }
    Ok(owed)
}

/// The places of party p's inputs of admitted circuits that aren't given, rising; none before there is
/// a public key.
#[tactic(auto, unfolding(crate::specs::Steps::owed_inputs, crate::specs::Steps::owed_of, crate::specs::Steps::lacks_input))]
pub fn owed_inputs(
    alloc: Global,
    fixed: &Fixed,
    instances: &[Instance],
    given: &[Given],
    p: u32,
) -> Result<Slots, AllocError>
    requires given { length given.now ≡ length fixed.now.plans }
    requires few_plans { length fixed.now.plans ≤ 64 }
    requires few { (c : ℕ) → c < length fixed.now.plans → length (plan fixed.now c).owners ≤ 1024 }
    ensures { IfOk result (λ owed. owed ≡ owed_inputs fixed.now (seen 0 instances.now given.now []) p) }
{
    if has_done(Signature::Pk, instances) {
        let owed = owed_of_all(alloc, fixed, given, p, fixed.plans.len() as u32)?;
        Ok(Slots::from_vec(owed))
    } else {
        Ok(Slots::new(alloc))
    }
}
