//! Small circuits at n = 8 and t = 16 against values worked out by hand.
ghost use Rattle.std.specs.Prelude.{◌≡◌, ◌<◌, true, All};
ghost use Rattle.ring_spec.specs.Ring.{IsPoly};

use crate::common::frame;
use circuit_form::{Circuit, Node, Plain, plain_value};
use param_set::Params;
use std::alloc::{AllocError, Global};
use std::process::Abort;
use std::test::Fail;

/// A plaintext of eight coefficients.
fn plain(alloc: Global, coeffs: [u64; 8]) -> Result<Plain, AllocError> {
    Ok(Plain::from_vec(Vec::from_slice(alloc, coeffs.as_slice())?))
}

/// Whether a plaintext fits.
fn is_fitting(params: &Params, value: &Plain) -> bool
    ensures { result ≡ true → IsPoly params.now.t params.now.n value.now }
{
    value.len() as u64 == params.n() && all_below(params.t(), value.coeffs())
}

/// Whether each number is below a bound.
fn all_below(bound: u64, numbers: &[u64]) -> bool
    ensures { result ≡ true → All (λ x. x < bound) numbers.now }
{
    numbers.iter().all(|x| *x < bound)
}

/// Whether each plaintext fits.
fn all_fit(params: &Params, inputs: &[Plain]) -> bool
    ensures { result ≡ true → All (IsPoly params.now.t params.now.n) inputs.now }
{
    'inputs: for plain in inputs {
        if !is_fitting(params, plain) {
            return false;
        }
    }
    true
}

/// The plain value of some nodes, if they are a circuit for one party with such inputs.
fn value_of(alloc: Global, nodes: Vec<Node>, inputs: &[Plain]) -> Result<Option<Plain>, Fail> {
    let params = frame(1, 1)?;
    if !all_fit(&params, inputs) {
        return Ok(None);
    }
    match Circuit::new(&params, nodes) {
        Err(_) => Ok(None),
        Ok(circuit) => {
            if circuit.inputs() as usize == inputs.len() {
                Ok(Some(plain_value(alloc, &params, &circuit, inputs)?))
            } else {
                Ok(None)
            }
        }
    }
}

/// Whether some nodes are a circuit for one party that makes this of such inputs.
fn gives(
    alloc: Global,
    nodes: Vec<Node>,
    inputs: Vec<Plain>,
    coeffs: [u64; 8],
) -> Result<bool, Fail> {
    match value_of(alloc, nodes, inputs.as_slice())? {
        Some(value) => Ok(value.coeffs() == coeffs.as_slice()),
        None => Ok(false),
    }
}

/// A list of one plaintext.
fn one(alloc: Global, coeffs: [u64; 8]) -> Result<Vec<Plain>, AllocError> {
    Ok(vec![in alloc; plain(alloc, coeffs)?]?)
}

/// A list of two plaintexts.
fn two(alloc: Global, first: [u64; 8], second: [u64; 8]) -> Result<Vec<Plain>, AllocError> {
    let first = plain(alloc, first)?;
    let second = plain(alloc, second)?;
    Ok(vec![in alloc; first, second]?)
}

/// A constant of eight coefficients.
fn constant(alloc: Global, coeffs: [u64; 8]) -> Result<Node, AllocError> {
    Ok(Node::Const {
        value: plain(alloc, coeffs)?,
    })
}

#[test]
fn computes_plain_values(rt: HostRuntime) -> Result<(), Fail> {
    let alloc = rt.alloc();
    let nodes = vec![in alloc;
        Node::Input { owner: 1 },
        Node::Input { owner: 1 },
        Node::Sub { left: 0, right: 1 },
        Node::Neg { of: 2 },
    ]?;
    let inputs = two(alloc, [3, 0, 0, 0, 0, 0, 0, 0], [5, 0, 0, 0, 0, 0, 0, 0])?;
    let given = gives(alloc, nodes, inputs, [2, 0, 0, 0, 0, 0, 0, 0])?;
    assert!(rt; given, "neg");
    Ok(())
}

#[test]
fn computes_a_product_with_x(rt: HostRuntime) -> Result<(), Fail> {
    let alloc = rt.alloc();
    let x = constant(alloc, [0, 1, 0, 0, 0, 0, 0, 0])?;
    let nodes = vec![in alloc;
        x,
        Node::Input { owner: 1 },
        Node::Mul { left: 1, right: 0 },
    ]?;
    let inputs = one(alloc, [3, 0, 0, 0, 0, 0, 0, 1])?;
    let given = gives(alloc, nodes, inputs, [15, 3, 0, 0, 0, 0, 0, 0])?;
    assert!(rt; given, "mul");
    Ok(())
}

#[test]
fn computes_a_rotation(rt: HostRuntime) -> Result<(), Fail> {
    let alloc = rt.alloc();
    let nodes = vec![in alloc; Node::Input { owner: 1 }, Node::Rot { g: 3, of: 0 }]?;
    let inputs = one(alloc, [0, 0, 0, 1, 0, 0, 0, 0])?;
    let given = gives(alloc, nodes, inputs, [0, 15, 0, 0, 0, 0, 0, 0])?;
    assert!(rt; given, "rot");
    Ok(())
}

#[test]
fn computes_a_sum_with_one(rt: HostRuntime) -> Result<(), Fail> {
    let alloc = rt.alloc();
    let c = constant(alloc, [1, 0, 0, 0, 0, 0, 0, 0])?;
    let nodes = vec![in alloc;
        c,
        Node::Input { owner: 1 },
        Node::Add { left: 0, right: 1 },
    ]?;
    let inputs = one(alloc, [15, 0, 0, 0, 0, 0, 0, 2])?;
    let given = gives(alloc, nodes, inputs, [0, 0, 0, 0, 0, 0, 0, 2])?;
    assert!(rt; given, "add");
    Ok(())
}

/// The node at fault among some nodes, for two parties.
fn fault_of(nodes: Vec<Node>) -> Result<Option<u32>, Fail> {
    match Circuit::new(&frame(2, 1)?, nodes) {
        Ok(_) => Ok(None),
        Err(fault) => Ok(Some(fault.node)),
    }
}

/// The node at fault where a product stands behind an input, and behind it the negative of no node.
fn fault_of_product(alloc: Global, left: u32, right: u32) -> Result<Option<u32>, Fail> {
    let nodes = vec![in alloc;
        Node::Input { owner: 1 },
        Node::Mul { left, right },
        Node::Neg { of: 9 },
    ]?;
    fault_of(nodes)
}

#[test]
fn names_the_first_node_at_fault(rt: HostRuntime) -> Result<(), Fail> {
    let alloc = rt.alloc();
    for (left, right, wanted) in [(0, 0, 2), (1, 0, 1), (0, 1, 1), (0, 2, 1)] {
        let fault = fault_of_product(alloc, left, right)?;
        assert_eq!(rt; fault, Some(wanted), "{left} {right}");
    }
    Ok(())
}

/// The node at fault where a party owns the only input.
fn fault_of_owner(alloc: Global, owner: u32) -> Result<Option<u32>, Fail> {
    fault_of(vec![in alloc; Node::Input { owner }]?)
}

#[test]
fn takes_owners_that_are_parties(rt: HostRuntime) -> Result<(), Fail> {
    let alloc = rt.alloc();
    for (owner, wanted) in [(0, Some(0)), (1, None), (2, None), (3, Some(0))] {
        assert_eq!(rt; fault_of_owner(alloc, owner)?, wanted, "owner {owner}");
    }
    Ok(())
}

/// The node at fault where an input is turned.
fn fault_of_rotation(alloc: Global, g: u32) -> Result<Option<u32>, Fail> {
    let nodes = vec![in alloc; Node::Input { owner: 1 }, Node::Rot { g, of: 0 }]?;
    fault_of(nodes)
}

#[test]
fn takes_odd_rotations_from_3_to_15(rt: HostRuntime) -> Result<(), Fail> {
    let alloc = rt.alloc();
    for (g, wanted) in [
        (1, Some(1)),
        (3, None),
        (4, Some(1)),
        (15, None),
        (17, Some(1)),
    ] {
        assert_eq!(rt; fault_of_rotation(alloc, g)?, wanted, "rotation {g}");
    }
    Ok(())
}

/// The node at fault where the only one is a constant of so many equal coefficients.
fn fault_of_constant(alloc: Global, count: usize, coeff: u64) -> Result<Option<u32>, Fail> {
    let value = Plain::from_vec(vec![in alloc; coeff; count]?);
    fault_of(vec![in alloc; Node::Const { value }]?)
}

#[test]
fn takes_constants_of_eight_coefficients_below_16(rt: HostRuntime) -> Result<(), Fail> {
    let alloc = rt.alloc();
    for (count, coeff, wanted) in [(7usize, 0, Some(0)), (8, 15, None), (8, 16, Some(0))] {
        let fault = fault_of_constant(alloc, count, coeff)?;
        assert_eq!(rt; fault, wanted, "{count} times {coeff}");
    }
    Ok(())
}

/// The node at fault among so many inputs.
fn fault_of_inputs(alloc: Global, count: usize) -> Result<Option<u32>, Fail> {
    let mut nodes = Vec::new(alloc);
    for _ in 0..count {
        nodes.push(Node::Input { owner: 1 })?;
    }
    fault_of(nodes)
}

#[test]
fn takes_1_to_256_nodes(rt: HostRuntime) -> Result<(), Fail> {
    let alloc = rt.alloc();
    for (count, wanted) in [(0usize, Some(0)), (256, None), (257, Some(256))] {
        assert_eq!(rt; fault_of_inputs(alloc, count)?, wanted, "{count} nodes");
    }
    Ok(())
}

/// Reads the nodes of a product of an input of party 2 and a constant, with an input of party 1 behind it.
fn reads_nodes<R: Abort>(rt: &R, circuit: &Circuit) {
    assert_eq!(rt; circuit.len(), 4);
    assert!(rt; matches!(circuit.node(2), Some(Node::Mul { left: 0, right: 1 })));
    assert!(rt; circuit.node(4).is_none());
}

/// Reads its inputs.
fn reads_inputs<R: Abort>(rt: &R, circuit: &Circuit) {
    assert_eq!(rt; circuit.inputs(), 2);
    for (k, wanted) in [(0, Some(2)), (1, Some(1)), (2, None)] {
        assert_eq!(rt; circuit.owner(k), wanted, "input {k}");
    }
}

/// Finds in it no product of inputs and no rotation.
fn reads_no_switch<R: Abort>(rt: &R, circuit: &Circuit) {
    assert!(rt; !circuit.has_product());
    assert!(rt; !circuit.has_rot(5));
}

#[test]
fn reads_a_circuit(rt: HostRuntime) -> Result<(), Fail> {
    let alloc = rt.alloc();
    let seven = constant(alloc, [7, 0, 0, 0, 0, 0, 0, 0])?;
    let nodes = vec![in alloc;
        Node::Input { owner: 2 },
        seven,
        Node::Mul { left: 0, right: 1 },
        Node::Input { owner: 1 },
    ]?;
    let Ok(circuit) = Circuit::new(&frame(2, 1)?, nodes) else {
        panic!(rt; "no circuit")
    };
    reads_nodes(&rt, &circuit);
    reads_inputs(&rt, &circuit);
    reads_no_switch(&rt, &circuit);
    Ok(())
}

#[test]
fn reads_products_and_rotations(rt: HostRuntime) -> Result<(), Fail> {
    let alloc = rt.alloc();
    let nodes = vec![in alloc;
        Node::Input { owner: 2 },
        Node::Mul { left: 0, right: 0 },
        Node::Rot { g: 5, of: 1 },
    ]?;
    let Ok(circuit) = Circuit::new(&frame(2, 1)?, nodes) else {
        panic!(rt; "no circuit")
    };
    assert!(rt; circuit.has_product());
    assert!(rt; circuit.has_rot(5) && !circuit.has_rot(3));
    Ok(())
}
