ghost use Rattle.std.specs.Prelude.{◌≡◌, true, length, All, IfOk, None};
ghost use Rattle.ring_spec.specs.Pairs.{CipherFits};
ghost use Rattle.circuit_form.specs.Circuits.{first_fault, owners};
ghost use Rattle.param_set.specs.Numbers.{numbers_of};
ghost use Rattle.cipher_spec.specs.Keys.{no_keys};
ghost use Rattle.cipher_spec.specs.Ciphers.{is_switch_free, output_cipher};

use crate::inputs::Inputs;
use crate::nodes::node_ciphers;
use bfv_core::Ciphertext;
use circuit_form::Circuit;
use mod_ring::Ring;
use std::alloc::{AllocError, Global};
use std::sync::Arc;

/// A circuit that a caller has taken, with the ciphertexts of its inputs.
#[derive(Drop)]
pub struct Job {
    /// The circuit's number in its session.
    pub number: u32,
    pub circuit: Arc<Circuit>,
    pub inputs: Inputs,
}

/// The output of a job: the ciphertext of its circuit's last node. The circuit keeps its rules for the
/// ring's parameters and has neither a rotation nor a product of two nodes that aren't constants, and
/// the inputs are as many as it asks for.
#[tactic(auto, unfolding(circuit_form::specs::Circuits::first_fault, cipher_spec::specs::Ciphers::output_cipher))]
pub fn evaluate(alloc: Global, ring: &Ring, job: &Job) -> Result<Ciphertext, AllocError>
    requires circuit { first_fault ring.now.params.n ring.now.params.t ring.now.params.parties job.now.circuit.value ≡ None }
    requires switch_free { is_switch_free job.now.circuit.value ≡ true }
    requires count { length job.now.inputs ≡ length (owners job.now.circuit.value) }
    requires inputs { All (CipherFits ring.now.params.q ring.now.params.n) job.now.inputs }
    ensures value { IfOk result (λ c. c ≡ output_cipher (numbers_of ring.now.params) no_keys job.now.inputs job.now.circuit.value) }
    ensures fits { IfOk result (λ c. CipherFits ring.now.params.q ring.now.params.n c) }
{
    let mut done = node_ciphers(alloc, ring, &job.circuit, &job.inputs)?;
    match done.pop() {
        Some(last) => Ok(last),
        None => unreachable!(),
    }
}
