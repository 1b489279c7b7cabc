//! The fixed data of a session, from its parameters and its circuits.
ghost use Rattle.std.specs.Prelude.{◌≡◌, ◌+◌, ◌*◌, ◌≤◌, [], ◌∷◌, ◌++◌, None, IfOk, cond, nat_eq, filter, map, length};
ghost use Rattle.std.specs.List.{range_with_len, list_any};
ghost use Rattle.circuit_form.specs.Circuits.{first_fault, owners};
ghost use Rattle.param_set.specs.Numbers.{numbers_of};
ghost use Rattle.noise_ledger.specs.Ledger.{first_over};
ghost use Rattle.proto_names.specs.declared.signature.Signature.TheVariants.{Pk, Rlk1, Rlk2, Rot};
ghost use Rattle.session_rules.specs.Issues.{keys, wants_key, wants_relin};
ghost use Rattle.session_rules.specs.Fixing.{begins_as, rotates, plan_of, admits_turn, is_turned, fixed_from};

use crate::owed::is_admitted;
use crate::{CircuitState, Fixed, Plan, PlanList, SessionNumbers, SharedNodes};
use circuit_form::Circuit;
use noise_ledger::admit;
use param_set::{Ids, Params};
use proto_names::Signature;
use std::alloc::{AllocError, Global};
use std::sync::Arc;

/// The owners of a circuit's inputs.
#[tactic(auto, using(crate::proofs::Taken::item_by_item))]
fn owners_of(alloc: Global, circuit: &Circuit) -> Result<Ids, AllocError>
    ensures { IfOk result (λ ids. ids ≡ owners circuit.now) }
{
    let mut owners = Ids::new(alloc);
    'inputs: for k in 0..circuit.inputs() {
        if let Some(owner) = circuit.owner(k) {
            owners.push(owner)?;
        }
    }
    Ok(owners)
}

/// The g of a circuit's rotations that are below a bound, rising.
fn turns_below(alloc: Global, bound: u32, circuit: &Circuit) -> Result<Vec<u32>, AllocError>
    ensures { IfOk result (λ v. v.items ≡ filter (rotates circuit.now) (range_with_len 0 bound)) }
{
    (0..bound).filter(|g| circuit.has_rot(*g)).collect(alloc)
}

/// The g of a circuit's rotations, rising.
fn turns_of(alloc: Global, params: &Params, circuit: &Circuit) -> Result<Ids, AllocError>
    ensures { IfOk result (λ ids. ids ≡ filter (rotates circuit.now) (range_with_len 0 (2 * params.now.n))) }
{
    let turns = turns_below(alloc, 2 * params.n() as u32, circuit)?;
    Ok(Ids::from_vec(turns))
}

/// How a circuit begins: refused at its first place whose bound is above the limit, else idle.
#[tactic(auto, unfolding(crate::specs::Fixing::begins_as))]
fn opening_of(params: &Params, circuit: &Circuit) -> CircuitState
    requires { first_fault params.now.n params.now.t params.now.parties circuit.now ≡ None }
    ensures { result ≡ begins_as (numbers_of params.now) circuit.now (first_over (numbers_of params.now) circuit.now) }
{
    let mut bounds = [0u128; 256];
    match admit(params, circuit, &mut bounds[..circuit.len() as usize]) {
        Ok(_) => CircuitState::Idle,
        Err(over) => CircuitState::Refused {
            place: over.place,
            bound: over.bound,
            limit: over.limit,
        },
    }
}

/// A circuit, as far as the rules look at it.
#[tactic(auto, unfolding(crate::specs::Fixing::plan_of))]
pub fn plan_of(alloc: Global, params: &Params, circuit: &Arc<Circuit>) -> Result<Plan, AllocError>
    requires { first_fault params.now.n params.now.t params.now.parties circuit.now.value ≡ None }
    ensures { IfOk result (λ plan. plan ≡ plan_of (numbers_of params.now) circuit.now.value) }
{
    Ok(Plan {
        nodes: SharedNodes::of(circuit)?,
        owners: owners_of(alloc, circuit)?,
        product: circuit.has_product(),
        turns: turns_of(alloc, params, circuit)?,
        opening: opening_of(params, circuit),
    })
}

/// Whether a circuit is admitted and rotates by g.
fn admits_turn(g: u32, plan: &Plan) -> bool
    ensures { result ≡ admits_turn g plan.now }
{
    is_admitted(plan) && contains(plan.turns.as_slice(), g)
}

/// Whether g is among some numbers.
fn contains(turns: &[u32], g: u32) -> bool
    ensures { result ≡ list_any (nat_eq g) turns.now }
{
    turns.iter().any(|h| g == *h)
}

/// Whether an admitted circuit rotates by g.
fn is_turned(plans: &[Plan], g: u32) -> bool
    ensures { result ≡ is_turned plans.now g }
{
    plans.iter().any(|plan| admits_turn(g, plan))
}

/// The g below a bound of the rotations of admitted circuits, rising.
fn admitted_turns(alloc: Global, bound: u32, plans: &[Plan]) -> Result<Vec<u32>, AllocError>
    ensures { IfOk result (λ v. v.items ≡ filter (is_turned plans.now) (range_with_len 0 bound)) }
{
    (0..bound).filter(|g| is_turned(plans, *g)).collect(alloc)
}

impl Fixed {
    /// The fixed data of a session with these circuits.
    #[tactic(auto, unfolding(crate::specs::Fixing::fixed_from))]
    pub fn new(alloc: Global, params: &Params, plans: PlanList) -> Result<Fixed, AllocError>
        ensures { IfOk result (λ fixed. fixed ≡ fixed_from (numbers_of params.now) plans) }
    {
        let turns = admitted_turns(alloc, 2 * params.n() as u32, plans.as_slice())?;
        Ok(Fixed {
            numbers: SessionNumbers::of(params),
            threshold: params.threshold() as u32,
            rows: params.rows() as u32,
            plans,
            turns: Ids::from_vec(turns),
        })
    }

    /// The keys that admitted circuits need, in the order in which they are issued.
    #[tactic(auto, unfolding(crate::specs::Issues::keys))]
    pub fn keys(&self, alloc: Global) -> Result<Vec<Signature>, AllocError>
        ensures keys { IfOk result (λ v. v.items ≡ keys self.now) }
        ensures few { IfOk result (λ v. length v.items ≤ 3 + length self.now.turns) }
    {
        let mut keys = key_of_inputs(alloc, self.plans.as_slice())?;
        let rounds = keys_of_products(alloc, self.plans.as_slice())?;
        let turns = keys_of_turns(alloc, self.turns.as_slice())?;
        keys.extend_from_slice(rounds.as_slice())?;
        keys.extend_from_slice(turns.as_slice())?;
        Ok(keys)
    }
}

/// The public key, if an admitted circuit has an input.
fn key_of_inputs(alloc: Global, plans: &[Plan]) -> Result<Vec<Signature>, AllocError>
    ensures keys { IfOk result (λ v. v.items ≡ cond (list_any wants_key plans.now) (Pk ∷ []) []) }
    ensures few { IfOk result (λ v. length v.items ≤ 1) }
{
    if any_wants_key(plans) {
        Ok(vec![in alloc; Signature::Pk]?)
    } else {
        Ok(Vec::new(alloc))
    }
}

/// Both rounds of the relinearisation key, if an admitted circuit has a full product.
fn keys_of_products(alloc: Global, plans: &[Plan]) -> Result<Vec<Signature>, AllocError>
    ensures keys { IfOk result (λ v. v.items ≡ cond (list_any wants_relin plans.now) (Rlk1 ∷ Rlk2 ∷ []) []) }
    ensures few { IfOk result (λ v. length v.items ≤ 2) }
{
    if any_wants_relin(plans) {
        Ok(vec![in alloc; Signature::Rlk1, Signature::Rlk2]?)
    } else {
        Ok(Vec::new(alloc))
    }
}

/// The keys of some rotations.
fn keys_of_turns(alloc: Global, turns: &[u32]) -> Result<Vec<Signature>, AllocError>
    ensures keys { IfOk result (λ v. v.items ≡ map Rot turns.now) }
    ensures few { IfOk result (λ v. length v.items ≡ length turns.now) }
{
    turns.iter().map(|g| Signature::Rot(*g)).collect(alloc)
}

/// Whether a circuit is admitted and has an input.
fn wants_key(plan: &Plan) -> bool
    ensures { result ≡ wants_key plan.now }
{
    is_admitted(plan) && !plan.owners.is_empty()
}

/// Whether a circuit is admitted and has a full product.
fn wants_relin(plan: &Plan) -> bool
    ensures { result ≡ wants_relin plan.now }
{
    is_admitted(plan) && plan.product
}

/// Whether an admitted circuit has an input.
fn any_wants_key(plans: &[Plan]) -> bool
    ensures { result ≡ list_any wants_key plans.now }
{
    plans.iter().any(|plan| wants_key(plan))
}

/// Whether an admitted circuit has a full product.
fn any_wants_relin(plans: &[Plan]) -> bool
    ensures { result ≡ list_any wants_relin plans.now }
{
    plans.iter().any(|plan| wants_relin(plan))
}
