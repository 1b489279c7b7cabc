ghost use Rattle.std.specs.Prelude.{◌≡◌, ◌+◌, ◌<◌, ◌≤◌, false, true, length, All, IfOk, IfSome, IfNone, None};
ghost use Rattle.std.specs.List.{slice_get};
ghost use Rattle.ring_spec.specs.Pairs.{CipherFits};
ghost use Rattle.circuit_form.specs.Circuits.{may_stand, first_fault, is_const, is_full};
ghost use Rattle.circuit_form.specs.Values.{given_after};
ghost use Rattle.param_set.specs.Numbers.{numbers_of};
ghost use Rattle.cipher_spec.specs.Keys.{no_keys};
ghost use Rattle.cipher_spec.specs.Ciphers.{is_rotation, const_at, product_cipher, node_cipher};

use crate::inputs::Inputs;
use bfv_core::{Ciphertext, add, copied, mul_plain, neg, sub, trivial};
use circuit_form::{Circuit, Node, Plain};
use mod_ring::Ring;
use std::alloc::{AllocError, Global};

/// Another ciphertext with the same parts.
fn copy(alloc: Global, ring: &Ring, c: &Ciphertext) -> Result<Ciphertext, AllocError>
    requires { CipherFits ring.now.params.q ring.now.params.n c.now }
    ensures value { IfOk result (λ d. d ≡ c.now) }
    ensures fits { IfOk result (λ d. CipherFits ring.now.params.q ring.now.params.n d) }
{
    let c0 = copied(alloc, ring, &c.c0)?;
    let c1 = copied(alloc, ring, &c.c1)?;
    Ok(Ciphertext { c0, c1 })
}

/// The constant at a place, if one stands there.
fn const_at(circuit: &Circuit, k: u32) -> Option<&Plain>
    ensures value { IfSome result (λ m. m.now ≡ const_at circuit.now k) }
    ensures some { IfSome result (λ m. is_const (slice_get circuit.now k) ≡ true) }
    ensures none { IfNone result (is_const (slice_get circuit.now k) ≡ false) }
{
    match circuit.node(k) {
        Some(Node::Const { value }) => Some(value),
        _ => None,
    }
}

/// The product of two nodes, one of which is a constant.
#[tactic(auto, using(crate::proofs::Constants::const_fits), unfolding(cipher_spec::specs::Ciphers::product_cipher))]
fn product(
    alloc: Global,
    ring: &Ring,
    circuit: &Circuit,
    done: &[Ciphertext],
    left: u32,
    right: u32,
) -> Result<Ciphertext, AllocError>
    requires circuit { first_fault ring.now.params.n ring.now.params.t ring.now.params.parties circuit.now ≡ None }
    requires one { is_const (slice_get circuit.now right) ≡ false → is_const (slice_get circuit.now left) ≡ true }
    requires left { left < length done.now }
    requires right { right < length done.now }
    requires done { All (CipherFits ring.now.params.q ring.now.params.n) done.now }
    ensures value { IfOk result (λ c. c ≡ product_cipher (numbers_of ring.now.params) no_keys circuit.now done.now left right) }
    ensures fits { IfOk result (λ c. CipherFits ring.now.params.q ring.now.params.n c) }
{
    if let Some(value) = const_at(circuit, right) {
        mul_plain(alloc, ring, &done[left as usize], value)
    } else if let Some(value) = const_at(circuit, left) {
        mul_plain(alloc, ring, &done[right as usize], value)
    } else {
        unreachable!()
    }
}

/// The ciphertext of a node: `done` are those of the nodes before it, `given` of which are inputs.
#[tactic(auto, unfolding(circuit_form::specs::Circuits::may_stand, cipher_spec::specs::Ciphers::node_cipher, circuit_form::specs::Values::given_after))]
pub(crate) fn node_cipher(
    alloc: Global,
    ring: &Ring,
    circuit: &Circuit,
    inputs: &Inputs,
    done: &[Ciphertext],
    given: usize,
    node: &Node,
) -> Result<Ciphertext, AllocError>
    requires circuit { first_fault ring.now.params.n ring.now.params.t ring.now.params.parties circuit.now ≡ None }
    requires stands { may_stand ring.now.params.n ring.now.params.t ring.now.params.parties (length done.now) node.now ≡ true }
    requires not_full { is_full circuit.now node.now ≡ false }
    requires no_rotation { is_rotation node.now ≡ false }
    requires inputs { All (CipherFits ring.now.params.q ring.now.params.n) inputs.now }
    requires done { All (CipherFits ring.now.params.q ring.now.params.n) done.now }
    requires enough { given_after given node.now ≤ length inputs.now }
    ensures value { IfOk result (λ c. c ≡ node_cipher (numbers_of ring.now.params) no_keys inputs.now circuit.now done.now given node.now) }
    ensures fits { IfOk result (λ c. CipherFits ring.now.params.q ring.now.params.n c) }
{
    match node {
        Node::Input { owner: _ } => copy(alloc, ring, inputs.at(given)),
        Node::Const { value } => trivial(alloc, ring, value),
        Node::Add { left, right } => {
            add(alloc, ring, &done[*left as usize], &done[*right as usize])
        }
        Node::Sub { left, right } => {
            sub(alloc, ring, &done[*left as usize], &done[*right as usize])
        }
        Node::Neg { of } => neg(alloc, ring, &done[*of as usize]),
        Node::Mul { left, right } => product(alloc, ring, circuit, done, *left, *right),
        Node::Rot { g: _, of: _ } => unreachable!(),
    }
}

/// The inputs given once a node is done.
#[tactic(auto, unfolding(circuit_form::specs::Values::given_after))]
pub(crate) fn given_after(given: usize, node: &Node) -> usize
    requires { given < 256 }
    ensures value { result ≡ given_after given node.now }
    ensures one_more { result ≤ given + 1 }
{
    match node {
        Node::Input { owner: _ } => given + 1,
        _ => given,
    }
}
