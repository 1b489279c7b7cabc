//! A session over the sum of inputs of the parties 1 and 2 among three, of whom any two act, at its opening.
ghost use Rattle.std.specs.Prelude.{IfOk, IfSome};
ghost use Rattle.session_rules.specs.Facts.{Kept};
ghost use Rattle.session_rules.specs.Grounds.{Grounded};
ghost use Rattle.session_state.specs.Standings.{rules_of, state};

use crate::common::{frame, one_sum, zeros};
use mod_ring::Ring;
use session_rules::{CircuitState, Reply};
use session_state::Standing;
use std::alloc::{AllocError, Global};
use std::sync::Arc;
use std::test::Fail;

/// A session over that circuit alone.
fn opened(alloc: Global) -> Result<Option<Standing>, Fail>
    ensures kept { IfOk result (λ made. IfSome made (λ st. Kept (rules_of st) (state st))) }
    ensures grounded { IfOk result (λ made. IfSome made (λ st. Grounded (rules_of st) (state st))) }
{
    let params = frame(3, 2)?;
    let ring = Arc::new(alloc, Ring::new(alloc, &params)?)?;
    let Some(circuits) = one_sum(alloc, &params)? else {
        return Ok(None);
    };
    let public = [7; 32];
    Ok(Some(Standing::new(alloc, ring, public, circuits)?))
}

/// Whether nothing of a circuit is there.
fn has_nothing_of(standing: &Standing, circuit: u32) -> bool {
    !standing.is_ready(circuit)
        && standing.output(circuit).is_none()
        && standing.answer(circuit).is_none()
}

/// Whether it has its parameters and its circuit, and nothing else.
fn is_at_its_opening(standing: &Standing) -> bool {
    standing.params().parties() == 3
        && standing.ring().params().n() == 8
        && standing.circuits().len() == 1
        && standing.present().bits == 0
        && standing.instances().is_empty()
        && standing.circuit_states() == [CircuitState::Idle].as_slice()
        && standing.sums(1).is_none()
        && has_nothing_of(standing, 0)
        && has_nothing_of(standing, 1)
}

#[test]
fn opens_with_nothing(rt: HostRuntime) -> Result<(), Fail> {
    let Some(standing) = opened(rt.alloc())? else {
        panic!(rt; "no standing")
    };
    assert!(rt; is_at_its_opening(&standing));
    Ok(())
}

/// Whether party 1 is told that it is absent, and no key.
fn lists_nothing(alloc: Global, standing: &Standing) -> Result<bool, AllocError> {
    let listing = standing.pending(alloc, 1)?;
    Ok(matches!(&listing.reply, Reply::Absent) && listing.key.is_none())
}

/// Whether nothing is told of instance 1, as none was issued.
fn knows_no_instance(standing: &Standing) -> Result<bool, AllocError> {
    let briefing = standing.brief(1)?;
    Ok(matches!(&briefing.reply, Reply::Unknown { issued: 0 }) && briefing.brief.is_none())
}

#[test]
fn tells_that_nothing_is_owed(rt: HostRuntime) -> Result<(), Fail> {
    let Some(standing) = opened(rt.alloc())? else {
        panic!(rt; "no standing")
    };
    assert!(rt; lists_nothing(rt.alloc(), &standing)?);
    assert!(rt; knows_no_instance(&standing)?);
    Ok(())
}

/// Whether an input of zeros is refused for want of a key.
fn wants_the_key(alloc: Global, standing: &mut Standing) -> Result<bool, AllocError>
    requires kept { Kept (rules_of standing.old) (state standing.old) }
    requires grounded { Grounded (rules_of standing.old) (state standing.old) }
{
    let ct = zeros(alloc, standing.ring())?;
    let reply = standing.input(alloc, 0, 0, ct)?;
    Ok(matches!(&reply, Reply::NoKey))
}

#[test]
fn takes_no_input_before_the_key(rt: HostRuntime) -> Result<(), Fail> {
    let Some(mut standing) = opened(rt.alloc())? else {
        panic!(rt; "no standing")
    };
    assert!(rt; wants_the_key(rt.alloc(), &mut standing)?);
    assert_eq!(rt; standing.circuit_states(), [CircuitState::Idle].as_slice());
    Ok(())
}

/// Whether there is no job.
fn has_no_job(alloc: Global, standing: &mut Standing) -> Result<bool, AllocError>
    requires kept { Kept (rules_of standing.old) (state standing.old) }
    requires grounded { Grounded (rules_of standing.old) (state standing.old) }
{
    let taking = standing.take(alloc, 5)?;
    Ok(matches!(&taking.reply, Reply::Nothing) && taking.job.is_none())
}

#[test]
fn gives_no_job_before_the_inputs(rt: HostRuntime) -> Result<(), Fail> {
    let Some(mut standing) = opened(rt.alloc())? else {
        panic!(rt; "no standing")
    };
    assert!(rt; has_no_job(rt.alloc(), &mut standing)?);
    assert_eq!(rt; standing.circuit_states(), [CircuitState::Idle].as_slice());
    Ok(())
}
