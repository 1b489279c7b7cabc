//! The calls for a sum of inputs of the parties 1 and 2 among three, of whom any two act.
ghost use Rattle.std.specs.Prelude.{◌≡◌, ◌≤◌, [], length, IfOk, IfSome};

use crate::common::frame;
use circuit_form::{Circuit, Node};
use param_set::Ids;
use proto_names::{Instance, PartySet, Signature, Stage};
use session_rules::{
    CircuitState, Fixed, Given, Move, Plan, PlanList, SessionNumbers, SharedNodes, next_ready,
    plan_of, planned_moves,
};
use std::alloc::{AllocError, Global};
use std::sync::Arc;
use std::test::Fail;

/// The list of one plan.
fn only(alloc: Global, plan: Plan) -> Result<PlanList, AllocError>
    ensures { IfOk result (λ plans. length plans ≡ 1) }
{
    let mut plans = PlanList::new(alloc);
    plans.push(plan)?;
    Ok(plans)
}

/// What is fixed for the circuit of some nodes, if they are one.
fn fixed_of(alloc: Global, nodes: Vec<Node>) -> Result<Option<Fixed>, Fail> {
    let params = frame(3, 2)?;
    match Circuit::new(&params, nodes) {
        Err(_) => Ok(None),
        Ok(circuit) => {
            let circuit = Arc::new(alloc, circuit)?;
            let plans = only(alloc, plan_of(alloc, &params, &circuit)?)?;
            Ok(Some(Fixed::new(alloc, &params, plans)?))
        }
    }
}

/// Whether this alone is the key that is needed.
fn is_the_key(alloc: Global, fixed: &Fixed, key: Signature) -> Result<bool, AllocError> {
    let keys = fixed.keys(alloc)?;
    Ok(keys.as_slice() == [key].as_slice())
}

/// The sum of inputs of the parties 1 and 2.
fn sum(alloc: Global) -> Result<Vec<Node>, AllocError> {
    Ok(vec![in alloc;
        Node::Input { owner: 1 },
        Node::Input { owner: 2 },
        Node::Add { left: 0, right: 1 },
    ]?)
}

#[test]
fn fixes_what_circuits_need(rt: HostRuntime) -> Result<(), Fail> {
    let alloc = rt.alloc();
    let Some(fixed) = fixed_of(alloc, sum(alloc)?)? else {
        panic!(rt; "no circuit")
    };
    assert_eq!(rt; (fixed.threshold, fixed.rows), (2, 7));
    assert!(rt; is_the_key(alloc, &fixed, Signature::Pk)?);
    Ok(())
}

/// What is fixed for the sum, if it is a circuit.
fn fixed_for_sum(alloc: Global) -> Result<Option<Fixed>, Fail>
    ensures plans { IfOk result (λ made. IfSome made (λ fixed. length fixed.plans ≡ 1)) }
    ensures turns { IfOk result (λ made. IfSome made (λ fixed. fixed.turns ≡ [])) }
{
    let params = frame(3, 2)?;
    let Ok(circuit) = Circuit::new(&params, sum(alloc)?) else {
        return Ok(None);
    };
    let circuit = Arc::new(alloc, circuit)?;
    let owners = Ids::from_vec(vec![in alloc; 1, 2]?);
    let plan = Plan {
        nodes: SharedNodes::of(&circuit)?,
        owners,
        product: false,
        turns: Ids::new(alloc),
        opening: CircuitState::Idle,
    };
    Ok(Some(Fixed {
        numbers: SessionNumbers::of(&params),
        threshold: 2,
        rows: 7,
        plans: only(alloc, plan)?,
        turns: Ids::new(alloc),
    }))
}

/// The parties 2 and 3.
const SET: PartySet = PartySet { bits: 6 };

/// The complete key.
const KEY: Instance = Instance {
    id: 1,
    signature: Signature::Pk,
    set: SET,
    attempt: 1,
    sent: SET,
    stage: Stage::Complete,
    round1: 0,
    group: 0,
};

/// Whether these are all moves, with the set present and so many instances issued, of which these
/// are the live ones.
fn are_the_moves(
    alloc: Global,
    fixed: &Fixed,
    live: Vec<Instance>,
    issued: u32,
    wanted: &[Move],
) -> Result<bool, AllocError>
    requires plans { length fixed.now.plans ≡ 1 }
    requires turns { fixed.now.turns ≡ [] }
    requires few { length live.items ≤ 1 }
    requires issued { issued ≤ 1 }
{
    let needed = fixed.keys(alloc)?;
    let idle = [CircuitState::Idle];
    let moves = planned_moves(alloc, fixed, needed.as_slice(), &SET, live, issued, &idle)?;
    Ok(moves.as_slice() == wanted)
}

/// Whether the key comes next, and nothing where it is complete.
fn key_comes_once(alloc: Global, fixed: &Fixed) -> Result<bool, AllocError>
    requires plans { length fixed.now.plans ≡ 1 }
    requires turns { fixed.now.turns ≡ [] }
{
    let key = Move::Issue {
        signature: Signature::Pk,
        set: SET,
        round1: 0,
    };
    let complete = vec![in alloc; KEY]?;
    let before = are_the_moves(alloc, fixed, Vec::new(alloc), 0, &[key])?;
    let after = are_the_moves(alloc, fixed, complete, 1, &[])?;
    Ok(before && after)
}

/// The circuit that may be evaluated, with the key complete and so many inputs missing.
fn ready(alloc: Global, fixed: &Fixed, missing: usize) -> Result<Option<u32>, AllocError>
    requires { length fixed.now.plans ≡ 1 }
{
    let complete = [KEY];
    let given = vec![in alloc; Given::none(alloc, missing)?]?;
    let idle = [CircuitState::Idle];
    Ok(next_ready(fixed, &complete, given.as_slice(), &idle))
}

/// The same with two inputs missing, and with none.
fn ready_before_and_after(
    alloc: Global,
    fixed: &Fixed,
) -> Result<(Option<u32>, Option<u32>), AllocError>
    requires { length fixed.now.plans ≡ 1 }
{
    let before = ready(alloc, fixed, 2)?;
    let after = ready(alloc, fixed, 0)?;
    Ok((before, after))
}

#[test]
fn finds_out_what_comes_next(rt: HostRuntime) -> Result<(), Fail> {
    let alloc = rt.alloc();
    let Some(fixed) = fixed_for_sum(alloc)? else {
        panic!(rt; "no circuit")
    };
    assert!(rt; key_comes_once(alloc, &fixed)?);
    assert_eq!(rt; ready_before_and_after(alloc, &fixed)?, (None, Some(0)));
    Ok(())
}
