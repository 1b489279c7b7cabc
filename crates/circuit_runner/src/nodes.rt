ghost use Rattle.std.specs.Prelude.{◌≡◌, true, [], length, All, IfOk, None};
ghost use Rattle.ring_spec.specs.Pairs.{CipherFits};
ghost use Rattle.circuit_form.specs.Circuits.{first_fault, owners};
ghost use Rattle.param_set.specs.Numbers.{numbers_of};
ghost use Rattle.cipher_spec.specs.Keys.{no_keys};
ghost use Rattle.cipher_spec.specs.Ciphers.{is_switch_free, ciphers_from};

use crate::inputs::Inputs;
use crate::steps::{given_after, node_cipher};
use bfv_core::Ciphertext;
use circuit_form::Circuit;
use mod_ring::Ring;
use std::alloc::{AllocError, Global};

/// The ciphertexts of all nodes.
pub(crate) fn node_ciphers(
    alloc: Global,
    ring: &Ring,
    circuit: &Circuit,
    inputs: &Inputs,
) -> Result<Vec<Ciphertext>, AllocError>
    requires circuit { first_fault ring.now.params.n ring.now.params.t ring.now.params.parties circuit.now ≡ None }
    requires switch_free { is_switch_free circuit.now ≡ true }
    requires enough { length inputs.now ≡ length (owners circuit.now) }
    requires inputs { All (CipherFits ring.now.params.q ring.now.params.n) inputs.now }
    ensures values { IfOk result (λ v. v.items ≡ ciphers_from (numbers_of ring.now.params) no_keys inputs.now circuit.now [] 0 circuit.now) }
    ensures count { IfOk result (λ v. length v.items ≡ length circuit.now) }
    ensures fit { IfOk result (λ v. All (CipherFits ring.now.params.q ring.now.params.n) v.items) }
{
    let mut done = Vec::with_capacity(alloc, circuit.len() as usize)?;
    let mut given = 0usize;
    'nodes: for k in 0..circuit.len() {
        match circuit.node(k) {
            None => unreachable!(),
            Some(node) => {
                let cipher = node_cipher(
                    alloc,
                    ring,
                    circuit,
                    inputs,
                    done.as_slice(),
                    given,
                    node,
                )?;
                given = given_after(given, node);
                done.push(cipher)?;
            }
        }
    }
    Ok(done)
}
