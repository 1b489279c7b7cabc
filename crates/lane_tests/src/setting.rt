//! What the tests begin with: a session of one party, with one circuit that is a constant, and its party.
ghost use Rattle.std.specs.Prelude.{◌≡◌, ◌≤◌, length, All, IfOk, IfSome};
ghost use Rattle.session_spec.specs.Settings.{Keeps, IsSwitchFree};
ghost use Rattle.session_core.specs.Calls.{known};
ghost use Rattle.lane_tests.specs.Constants.{AsksForNone, HasNoInput};

use circuit_form::{Circuit, Node, Plain};
use mod_ring::Ring;
use param_set::{Params, RawParams};
use party_roll::NoRoll;
use session_core::{Circuits, Offered, Session};
use std::alloc::{AllocError, Global};
use std::sync::Arc;

/// n = 8, q = 7 * 2^52 + 1, t = 16, digits of 8 bits, and noise and flood within 1, for one party.
fn of_one() -> Option<Params>
    ensures { IfSome result (λ params. (params.n ≡ 8) × (params.parties ≡ 1)) }
{
    Params::check(&RawParams {
        n: 8,
        q: 31_525_197_391_593_473,
        t: 16,
        root: 3,
        digit_bits: 8,
        err: 1,
        flood: 1,
        parties: 1,
        threshold: 1,
    })
    .ok()
}

/// The constant 7, as the only circuit of a session.
#[tactic(auto, unfolding(cipher_spec::specs::Ciphers::is_switch_free, circuit_form::specs::Circuits::owners))]
fn seven(alloc: Global, params: &Params) -> Result<Option<Circuits>, AllocError>
    ensures keep { IfOk result (λ made. IfSome made (λ circuits. All (Keeps params.now) circuits)) }
    ensures free { IfOk result (λ made. IfSome made (λ circuits. All IsSwitchFree circuits)) }
    ensures one { IfOk result (λ made. IfSome made (λ circuits. length circuits ≡ 1)) }
    ensures none { IfOk result (λ made. IfSome made (λ circuits. All AsksForNone circuits)) }
{
    let value = Plain::from_vec(vec![in alloc; 7, 0, 0, 0, 0, 0, 0, 0]?);
    let nodes = vec![in alloc; Node::Const { value }]?;
    match Circuit::new(params, nodes) {
        Err(_) => Ok(None),
        Ok(circuit) => {
            let mut circuits = Circuits::new(alloc);
            circuits.push(Offered {
                circuit: Arc::new(alloc, circuit)?,
                values: None,
            })?;
            Ok(Some(circuits))
        }
    }
}

/// A session over one circuit, in which nothing was called, that answers at most so many calls.
pub fn open(alloc: Global, max_calls: u32) -> Result<Option<Session<NoRoll>>, AllocError>
    requires some { 1 ≤ max_calls }
    requires most { max_calls ≤ 100 }
    ensures most { IfOk result (λ made. IfSome made (λ s. s.max_calls ≡ max_calls)) }
    ensures parties { IfOk result (λ made. IfSome made (λ s. s.standing.params.parties ≡ 1)) }
    ensures none { IfOk result (λ made. IfSome made (λ s. HasNoInput (known s).setting)) }
{
    let Some(params) = of_one() else {
        return Ok(None);
    };
    let Some(circuits) = seven(alloc, &params)? else {
        return Ok(None);
    };
    let ring = Arc::new(alloc, Ring::new(alloc, &params)?)?;
    Ok(Some(Session::new(alloc, NoRoll::new([0; 32]), ring, circuits, max_calls)?))
}
