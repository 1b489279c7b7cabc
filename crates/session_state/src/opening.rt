ghost use Rattle.std.specs.Prelude.{◌≡◌, ℕ, ◌≤◌, List, [], length, map, replicate, false, All, IfOk, None};
ghost use Rattle.param_set.specs.Numbers.{numbers_of};
ghost use Rattle.proto_names.specs.Roles.{first_groups};
ghost use Rattle.session_rules.specs.Fixing.{plan_of as plan_by};
ghost use Rattle.session_rules.specs.States.{opening, opening_of, none_given};
ghost use Rattle.session_spec.specs.Settings.{rules as rules_for, nodes_of, Keeps};
ghost use Rattle.session_spec.specs.Stores.{empty, no_inputs};
ghost use Rattle.session_state.specs.Parts.{setting_by, ciphers_in};
ghost use Rattle.session_state.specs.Standings.{setting, state, store};

use crate::{Circuits, Places, Standing};
use instance_table::Table;
use mod_ring::{Ciphertext, Ring};
use param_set::Params;
use proto_names::{Groups, PartySet};
use session_rules::{CircuitState, Fixed, Given, PlanList, plan_of};
use std::alloc::{AllocError, Global};
use std::sync::Arc;

/// The circuits, as far as the rules look at them.
fn plans_of(alloc: Global, params: &Params, circuits: &Circuits) -> Result<PlanList, AllocError>
    requires { All (Keeps params.now) circuits.now }
    ensures { IfOk result (λ plans. plans
        ≡ map (plan_by (numbers_of params.now)) (map nodes_of circuits.now)) }
{
    let mut plans = PlanList::new(alloc);
    'circuits: for place in 0..circuits.len() {
        plans.push(plan_of(alloc, params, &circuits.at(place).circuit)?)?;
    }
    Ok(plans)
}

/// The list of the one group, to which the parties deal at first.
fn first_group(alloc: Global, params: &Params) -> Result<Arc<Groups>, AllocError>
    ensures { IfOk result (λ groups. groups.value
        ≡ first_groups params.now.threshold params.now.parties) }
{
    let groups = Groups::first(alloc, params.threshold() as u32, params.parties() as u32)?;
    Ok(Arc::new(alloc, groups)?)
}

/// Of each circuit that none of its inputs is given.
fn given_none(alloc: Global, rules: &Fixed) -> Result<Vec<Given>, AllocError>
    ensures { IfOk result (λ given. given.items ≡ map none_given rules.now.plans) }
{
    let mut given = Vec::new(alloc);
    'plans: for plan in rules.plans.as_slice() {
        given.push(Given::none(alloc, plan.owners.len())?)?;
    }
    Ok(given)
}

/// How each circuit begins.
fn begun(alloc: Global, rules: &Fixed) -> Result<Vec<CircuitState>, AllocError>
    ensures { IfOk result (λ states. states.items ≡ map opening_of rules.now.plans) }
{
    rules
        .plans
        .as_slice()
        .iter()
        .map(|plan| plan.opening)
        .collect(alloc)
}

/// Of each circuit an empty place for each of its inputs.
#[tactic(auto, using(crate::proofs::Listed::inputs_more))]
fn no_inputs_of(
    alloc: Global,
    circuits: &Circuits,
) -> Result<Vec<Places<Arc<Ciphertext>>>, AllocError>
    ensures { IfOk result (λ inputs. map ciphers_in inputs.items ≡ map no_inputs circuits.now) }
{
    let mut inputs = Vec::new(alloc);
    'circuits: for place in 0..circuits.len() {
        let number = circuits.at(place).circuit.inputs() as usize;
        inputs.push(Places::empty(alloc, number)?)?;
    }
    Ok(inputs)
}

impl Standing {
    /// At first nobody is present, nothing is issued or given, and a circuit is idle, or refused by the ledger. There
    /// are at most 64 circuits, with at most 16 different rotations.
    pub fn new(
        alloc: Global,
        ring: Arc<Ring>,
        public: [u8; 32],
        circuits: Circuits,
    ) -> Result<Standing, AllocError>
        requires keep { All (Keeps ring.value.params) circuits }
        requires few { length circuits ≤ 64 }
        requires turns { length (rules_for (setting_by ring.value.params public circuits)).turns
            ≤ 16 }
        ensures params { IfOk result (λ st. st.params ≡ ring.value.params) }
        ensures setting { IfOk result (λ st. setting st
            ≡ setting_by ring.value.params public circuits) }
        ensures state { IfOk result (λ st. state st
            ≡ opening (rules_for (setting_by ring.value.params public circuits))) }
        ensures store { IfOk result (λ st. store st
            ≡ empty (setting_by ring.value.params public circuits)) }
    {
        let params = *ring.params();
        let plans = plans_of(alloc, &params, &circuits)?;
        let rules = Fixed::new(alloc, &params, plans)?;
        Ok(Standing {
            params,
            public,
            needed: rules.keys(alloc)?,
            groups: first_group(alloc, &params)?,
            present: PartySet { bits: 0 },
            table: Table::new(alloc, &ring)?,
            given: given_none(alloc, &rules)?,
            states: begun(alloc, &rules)?,
            inputs: no_inputs_of(alloc, &circuits)?,
            outputs: Places::empty(alloc, circuits.len())?,
            answers: Places::empty(alloc, circuits.len())?,
            key: None,
            ring,
            circuits,
            rules,
        })
    }
}
