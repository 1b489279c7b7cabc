//! Small circuits over inputs without noise, whose second part is zero, against plaintexts worked out by
//! hand, at n = 8 and t = 16.
ghost use Rattle.std.specs.Prelude.{◌≡◌, ◌<◌, All, IfOk, None};
ghost use Rattle.ring_spec.specs.Pairs.{CipherFits};
ghost use Rattle.circuit_form.specs.Circuits.{first_fault};

use crate::common::frame;
use bfv_core::{Ciphertext, round_phase, trivial};
use circuit_form::{Circuit, Node, Plain};
use circuit_runner::{Inputs, Job, evaluate, is_switch_free};
use mod_ring::Ring;
use std::alloc::{AllocError, Global};
use std::sync::Arc;
use std::test::Fail;

/// A plaintext of eight coefficients.
fn plain(alloc: Global, coeffs: [u64; 8]) -> Result<Plain, AllocError>
    ensures { IfOk result (λ m. m ≡ coeffs) }
{
    Ok(Plain::from_vec(Vec::from_slice(alloc, coeffs.as_slice())?))
}

/// Puts an input that carries a plaintext without noise behind the others.
fn push(alloc: Global, ring: &Ring, list: &mut Inputs, coeffs: [u64; 8]) -> Result<(), AllocError>
    requires degree { ring.now.params.n ≡ 8 }
    requires below { All (λ x. x < ring.now.params.t) coeffs }
    requires fit { All (CipherFits ring.now.params.q ring.now.params.n) list.old }
    ensures { All (CipherFits ring.now.params.q ring.now.params.n) list.new }
{
    let m = plain(alloc, coeffs)?;
    let c = Arc::new(alloc, trivial(alloc, ring, &m)?)?;
    list.push(c)
}

/// Up to two inputs: 3 + 2 X^7, and 5 + X.
fn inputs(alloc: Global, ring: &Ring, count: u32) -> Result<Inputs, AllocError>
    requires degree { ring.now.params.n ≡ 8 }
    requires modulus { ring.now.params.t ≡ 16 }
    ensures { IfOk result (λ list. All (CipherFits ring.now.params.q ring.now.params.n) list) }
{
    let mut list = Inputs::new(alloc);
    if 0 < count {
        push(alloc, ring, &mut list, [3, 0, 0, 0, 0, 0, 0, 2])?;
    }
    if 1 < count {
        push(alloc, ring, &mut list, [5, 1, 0, 0, 0, 0, 0, 0])?;
    }
    Ok(list)
}

/// The plaintext of an output whose second part is zero.
fn opened(alloc: Global, ring: &Ring, c: &Ciphertext) -> Result<Option<Plain>, AllocError>
    requires { CipherFits ring.now.params.q ring.now.params.n c.now }
{
    if c.c1.coeffs() == [0; 8].as_slice() {
        Ok(Some(round_phase(alloc, ring, &c.c0)?))
    } else {
        Ok(None)
    }
}

/// What the output of a circuit opens to, if it is taken.
fn value_in(alloc: Global, ring: &Ring, circuit: Arc<Circuit>) -> Result<Option<Plain>, AllocError>
    requires degree { ring.now.params.n ≡ 8 }
    requires modulus { ring.now.params.t ≡ 16 }
    requires circuit { first_fault ring.now.params.n ring.now.params.t ring.now.params.parties circuit.value ≡ None }
{
    let inputs = inputs(alloc, ring, circuit.inputs())?;
    if !is_switch_free(&circuit) || inputs.len() != circuit.inputs() as usize {
        return Ok(None);
    }
    let job = Job {
        number: 0,
        circuit,
        inputs,
    };
    let output = evaluate(alloc, ring, &job)?;
    opened(alloc, ring, &output)
}

/// Whether some nodes are a circuit that is taken, and its output opens to these coefficients.
fn gives(alloc: Global, nodes: Vec<Node>, coeffs: [u64; 8]) -> Result<bool, Fail> {
    let ring = Ring::new(alloc, &frame(3, 2)?)?;
    let Ok(circuit) = Circuit::new(ring.params(), nodes) else {
        return Ok(false);
    };
    match value_in(alloc, &ring, Arc::new(alloc, circuit)?)? {
        Some(m) => Ok(m.coeffs() == coeffs.as_slice()),
        None => Ok(false),
    }
}

/// Whether a node behind inputs of the parties 1 and 3 opens to these coefficients.
fn gives_of_two(alloc: Global, last: Node, coeffs: [u64; 8]) -> Result<bool, Fail> {
    let nodes = vec![in alloc; Node::Input { owner: 1 }, Node::Input { owner: 3 }, last]?;
    gives(alloc, nodes, coeffs)
}

#[test]
fn adds_and_subtracts_inputs(rt: HostRuntime) -> Result<(), Fail> {
    let alloc = rt.alloc();
    let sum = Node::Add { left: 0, right: 1 };
    let given = gives_of_two(alloc, sum, [8, 1, 0, 0, 0, 0, 0, 2])?;
    assert!(rt; given, "sum");
    let difference = Node::Sub { left: 0, right: 1 };
    let given = gives_of_two(alloc, difference, [14, 15, 0, 0, 0, 0, 0, 2])?;
    assert!(rt; given, "difference");
    Ok(())
}

#[test]
fn takes_an_input_and_its_negative(rt: HostRuntime) -> Result<(), Fail> {
    let alloc = rt.alloc();
    let nodes = vec![in alloc; Node::Input { owner: 2 }, Node::Neg { of: 0 }]?;
    let given = gives(alloc, nodes, [13, 0, 0, 0, 0, 0, 0, 14])?;
    assert!(rt; given, "negative");
    let nodes = vec![in alloc; Node::Input { owner: 2 }]?;
    let given = gives(alloc, nodes, [3, 0, 0, 0, 0, 0, 0, 2])?;
    assert!(rt; given, "input");
    Ok(())
}

/// A constant of eight coefficients.
fn constant(alloc: Global, coeffs: [u64; 8]) -> Result<Node, AllocError> {
    Ok(Node::Const {
        value: plain(alloc, coeffs)?,
    })
}

/// Whether the product of two nodes opens to these coefficients.
fn product_gives(alloc: Global, left: Node, right: Node, coeffs: [u64; 8]) -> Result<bool, Fail> {
    let nodes = vec![in alloc; left, right, Node::Mul { left: 0, right: 1 }]?;
    gives(alloc, nodes, coeffs)
}

#[test]
fn multiplies_by_constants(rt: HostRuntime) -> Result<(), Fail> {
    let alloc = rt.alloc();
    let value = constant(alloc, [0, 3, 0, 0, 0, 0, 0, 0])?;
    let input = Node::Input { owner: 1 };
    let given = product_gives(alloc, input, value, [10, 9, 0, 0, 0, 0, 0, 0])?;
    assert!(rt; given, "on the right");
    let value = constant(alloc, [0, 3, 0, 0, 0, 0, 0, 0])?;
    let input = Node::Input { owner: 1 };
    let given = product_gives(alloc, value, input, [10, 9, 0, 0, 0, 0, 0, 0])?;
    assert!(rt; given, "on the left");
    Ok(())
}

#[test]
fn takes_a_constant_alone(rt: HostRuntime) -> Result<(), Fail> {
    let alloc = rt.alloc();
    let value = constant(alloc, [0, 3, 0, 0, 0, 0, 0, 15])?;
    let nodes = vec![in alloc; value]?;
    let given = gives(alloc, nodes, [0, 3, 0, 0, 0, 0, 0, 15])?;
    assert!(rt; given, "alone");
    Ok(())
}

/// Whether some nodes need no key switch, if they are a circuit.
fn need_no_switch(nodes: Vec<Node>) -> Result<Option<bool>, Fail> {
    match Circuit::new(&frame(3, 2)?, nodes) {
        Err(_) => Ok(None),
        Ok(circuit) => Ok(Some(is_switch_free(&circuit))),
    }
}

/// The product of two inputs.
fn product(alloc: Global) -> Result<Vec<Node>, AllocError> {
    Ok(vec![in alloc;
        Node::Input { owner: 1 },
        Node::Input { owner: 2 },
        Node::Mul { left: 0, right: 1 },
    ]?)
}

/// An input, and a node behind it.
fn of_one(alloc: Global, last: Node) -> Result<Vec<Node>, AllocError> {
    Ok(vec![in alloc; Node::Input { owner: 1 }, last]?)
}

#[test]
fn tells_circuits_that_need_a_key_switch(rt: HostRuntime) -> Result<(), Fail> {
    let alloc = rt.alloc();
    let of_product = need_no_switch(product(alloc)?)?;
    assert_eq!(rt; of_product, Some(false), "product");
    let of_rotation = need_no_switch(of_one(alloc, Node::Rot { g: 3, of: 0 })?)?;
    assert_eq!(rt; of_rotation, Some(false), "rotation");
    let of_sum = need_no_switch(of_one(alloc, Node::Add { left: 0, right: 0 })?)?;
    assert_eq!(rt; of_sum, Some(true), "sum");
    Ok(())
}

/// Whether the first part of input k has these coefficients.
fn is_at(list: &Inputs, k: usize, coeffs: [u64; 8]) -> bool {
    k < list.len()
        && list.at(k).c0.coeffs() == coeffs.as_slice()
        && list.as_slice()[k].c0.coeffs() == coeffs.as_slice()
}

#[test]
fn keeps_inputs_in_order(rt: HostRuntime) -> Result<(), Fail> {
    let alloc = rt.alloc();
    assert!(rt; Inputs::new(alloc).is_empty());
    let ring = Ring::new(alloc, &frame(3, 2)?)?;
    let list = inputs(alloc, &ring, 2)?;
    assert_eq!(rt; list.len(), 2);
    let first = [
        5_910_974_510_923_776,
        0,
        0,
        0,
        0,
        0,
        0,
        3_940_649_673_949_184,
    ];
    assert!(rt; is_at(&list, 0, first), "input 0");
    let second = [
        9_851_624_184_872_960,
        1_970_324_836_974_592,
        0,
        0,
        0,
        0,
        0,
        0,
    ];
    assert!(rt; is_at(&list, 1, second), "input 1");
    Ok(())
}
