//! What several tests begin with: parameters, a circuit, and a ciphertext.
ghost use Rattle.std.specs.Prelude.{◌≡◌, false, length, All, IfOk, IfSome};
ghost use Rattle.param_set.specs.Numbers.{numbers_of};
ghost use Rattle.ring_spec.specs.Pairs.{CipherFits};
ghost use Rattle.session_spec.specs.Settings.{Keeps, IsSwitchFree};

use circuit_form::{Circuit, Node};
use mod_ring::{Ciphertext, Ring, zero};
use param_set::{ParamFault, Params, RawParams};
use session_state::{Circuits, Offered};
use std::alloc::{AllocError, Global};
use std::sync::Arc;

/// n = 8, q = 7 * 2^52 + 1, t = 16, digits of 8 bits that aren't balanced, and noise and flood within 1, for
/// `threshold` of `parties` parties.
pub fn frame(parties: u64, threshold: u64) -> Result<Params, ParamFault>
    ensures { IfOk result (λ params. numbers_of params ≡ record {
      n = 8;
      q = 31525197391593473;
      t = 16;
      digit_bits = 8;
      balanced = false;
      err = 1;
      flood = 1;
      parties = parties;
      threshold = threshold;
    }) }
{
    Params::check(&RawParams {
        n: 8,
        q: 31_525_197_391_593_473,
        t: 16,
        root: 3,
        digit_bits: 8,
        err: 1,
        flood: 1,
        parties,
        threshold,
    })
}

/// The sum of an input of party 1 and one of party 2, as the only circuit of a session.
#[tactic(auto, unfolding(cipher_spec::specs::Ciphers::is_switch_free))]
pub fn one_sum(alloc: Global, params: &Params) -> Result<Option<Circuits>, AllocError>
    ensures keep { IfOk result (λ made. IfSome made (λ circuits. All (Keeps params.now) circuits)) }
    ensures free { IfOk result (λ made. IfSome made (λ circuits. All IsSwitchFree circuits)) }
    ensures one { IfOk result (λ made. IfSome made (λ circuits. length circuits ≡ 1)) }
{
    let nodes = vec![in alloc;
        Node::Input { owner: 1 },
        Node::Input { owner: 2 },
        Node::Add { left: 0, right: 1 },
    ]?;
    match Circuit::new(params, nodes) {
        Err(_) => Ok(None),
        Ok(circuit) => {
            let mut circuits = Circuits::new(alloc);
            circuits.push(Offered {
                circuit: Arc::new(alloc, circuit)?,
                values: None,
            })?;
            Ok(Some(circuits))
        }
    }
}

/// A ciphertext of zeros.
pub fn zeros(alloc: Global, ring: &Ring) -> Result<Ciphertext, AllocError>
    ensures { IfOk result (λ ct. CipherFits ring.now.params.q ring.now.params.n ct) }
{
    Ok(Ciphertext {
        c0: zero(alloc, ring)?,
        c1: zero(alloc, ring)?,
    })
}
