//! Bounds at n = 8, t = 16 and small draws within 1 against numbers worked out apart.
ghost use Rattle.std.specs.Prelude.{◌≤◌};

use crate::common::frame;
use circuit_form::{Circuit, Node, Plain};
use noise_ledger::{
    Over, Place, admit, admit_for, const_bound, input_bound, mul_bound, neg_bound, output_bound,
    plain_mul_bound, rot_bound, sum_bound,
};
use param_set::Params;
use std::alloc::{AllocError, Global};
use std::test::Fail;

/// What an entry of the buffer is before.
const UNTOUCHED: u128 = 7;

/// Whether some nodes are a circuit of which `admit` answers this and leaves these bounds.
fn gives(
    alloc: Global,
    params: &Params,
    nodes: Vec<Node>,
    answer: Result<u128, Over>,
    wanted: &[u128],
) -> Result<bool, AllocError> {
    match Circuit::new(params, nodes) {
        Err(_) => Ok(false),
        Ok(circuit) => {
            let mut bounds = vec![in alloc; UNTOUCHED; circuit.len() as usize]?;
            let given = admit(params, &circuit, bounds.as_mut_slice());
            Ok(given == answer && bounds.as_slice() == wanted)
        }
    }
}

/// A constant polynomial.
fn constant(alloc: Global, value: u64) -> Result<Node, AllocError> {
    let coeffs = Vec::from_slice(alloc, [value, 0, 0, 0, 0, 0, 0, 0].as_slice())?;
    Ok(Node::Const {
        value: Plain::from_vec(coeffs),
    })
}

/// Puts the sum of the last node with itself behind it, and where asked for the sum's negative, and tells the
/// last node's place.
fn step(nodes: &mut Vec<Node>, last: u32, negated: bool) -> Result<u32, AllocError> {
    nodes.push(Node::Add {
        left: last,
        right: last,
    })?;
    let sum = last.saturating_add(1);
    if !negated {
        return Ok(sum);
    }
    nodes.push(Node::Neg { of: sum })?;
    Ok(sum.saturating_add(1))
}

/// Nodes of which the last one has the bound `bits` - 1, for `bits` from 2^49 on and below 2^50: from a
/// constant on, whose bound is 0, each sum of a node with itself takes V to 2V + 1, as r is 1, and
/// each negative to V + 1.
fn climb(alloc: Global, bits: u64) -> Result<Vec<Node>, AllocError> {
    let one = constant(alloc, 1)?;
    let mut nodes = vec![in alloc; one]?;
    let mut last = 0u32;
    for k in 0..49u32 {
        last = step(&mut nodes, last, (bits >> (48 - k)) % 2 == 1)?;
    }
    Ok(nodes)
}

/// Whether some nodes are a circuit of which `admit` answers this.
fn answers(
    alloc: Global,
    params: &Params,
    nodes: Vec<Node>,
    answer: Result<u128, Over>,
) -> Result<bool, AllocError> {
    match Circuit::new(params, nodes) {
        Err(_) => Ok(false),
        Ok(circuit) => {
            let mut bounds = vec![in alloc; UNTOUCHED; circuit.len() as usize]?;
            Ok(admit(params, &circuit, bounds.as_mut_slice()) == answer)
        }
    }
}

#[test]
fn gives_the_rows(rt: HostRuntime) -> Result<(), Fail> {
    let params = frame(3, 2)?;
    for (name, value, wanted) in [
        ("input", input_bound(&params), 41),
        ("const", const_bound(&params), 0),
        ("sum", sum_bound(&params, 41, 41), 83),
        ("neg", neg_bound(&params, 83), 84),
        (
            "product with a constant",
            plain_mul_bound(&params, 41),
            5040,
        ),
        ("rotation", rot_bound(&params, 41), 28_602),
        ("product", mul_bound(&params, 41, 41), 1_350_125),
        ("output", output_bound(&params, 83), 85),
    ] {
        assert_eq!(rt; value, wanted, "{name}");
    }
    Ok(())
}

#[test]
fn gives_the_rows_of_balanced_digits(rt: HostRuntime) -> Result<(), Fail> {
    let params = frame(3, 2)?.balanced();
    for (name, value, wanted) in [
        ("input", input_bound(&params), 41),
        ("sum", sum_bound(&params, 41, 41), 83),
        ("rotation", rot_bound(&params, 41), 14_378),
        ("product", mul_bound(&params, 41, 41), 752_717),
        ("output", output_bound(&params, 83), 85),
    ] {
        assert_eq!(rt; value, wanted, "{name}");
    }
    Ok(())
}

/// Whether a node behind inputs of the parties 1 and 2 gives these bounds of the three, and this of the output.
fn bounds_behind_inputs(
    alloc: Global,
    params: &Params,
    last: Node,
    bounds: [u128; 3],
    output: u128,
) -> Result<bool, AllocError> {
    let nodes = vec![in alloc; Node::Input { owner: 1 }, Node::Input { owner: 2 }, last]?;
    gives(alloc, params, nodes, Ok(output), bounds.as_slice())
}

#[test]
fn admits_circuits(rt: HostRuntime) -> Result<(), Fail> {
    let alloc = rt.alloc();
    let params = frame(3, 2)?;
    let sum = bounds_behind_inputs(
        alloc,
        &params,
        Node::Add { left: 0, right: 1 },
        [41, 41, 83],
        85,
    )?;
    assert!(rt; sum, "sum");
    let difference = bounds_behind_inputs(
        alloc,
        &params,
        Node::Sub { left: 1, right: 0 },
        [41, 41, 83],
        85,
    )?;
    assert!(rt; difference, "difference");
    let negative = bounds_behind_inputs(alloc, &params, Node::Neg { of: 1 }, [41, 41, 42], 44)?;
    assert!(rt; negative, "negative");
    Ok(())
}

#[test]
fn admits_products_and_rotations(rt: HostRuntime) -> Result<(), Fail> {
    let alloc = rt.alloc();
    let params = frame(3, 2)?;
    let product = bounds_behind_inputs(
        alloc,
        &params,
        Node::Mul { left: 0, right: 1 },
        [41, 41, 1_350_125],
        1_350_127,
    )?;
    assert!(rt; product, "product");
    let rotation = bounds_behind_inputs(
        alloc,
        &params,
        Node::Rot { g: 3, of: 0 },
        [41, 41, 28_602],
        28_604,
    )?;
    assert!(rt; rotation, "rotation");
    Ok(())
}

#[test]
fn admits_with_balanced_digits(rt: HostRuntime) -> Result<(), Fail> {
    let alloc = rt.alloc();
    let params = frame(3, 2)?.balanced();
    let product = bounds_behind_inputs(
        alloc,
        &params,
        Node::Mul { left: 0, right: 1 },
        [41, 41, 752_717],
        752_719,
    )?;
    assert!(rt; product, "product");
    let rotation = bounds_behind_inputs(
        alloc,
        &params,
        Node::Rot { g: 3, of: 0 },
        [41, 41, 14_378],
        14_380,
    )?;
    assert!(rt; rotation, "rotation");
    Ok(())
}

/// Whether a node behind inputs of the parties 1 and 2 gives these bounds of the three, and this of the output, where
/// so many of three parties act together.
fn bounds_for(
    alloc: Global,
    threshold: u64,
    last: Node,
    bounds: [u128; 3],
    output: u128,
) -> Result<bool, Fail>
    requires some { 1 ≤ threshold }
    requires few { threshold ≤ 32 }
{
    let params = frame(3, 2)?;
    let nodes = vec![in alloc; Node::Input { owner: 1 }, Node::Input { owner: 2 }, last]?;
    match Circuit::new(&params, nodes) {
        Err(_) => Ok(false),
        Ok(circuit) => {
            let mut given = vec![in alloc; UNTOUCHED; circuit.len() as usize]?;
            let answer = admit_for(&params, threshold, &circuit, given.as_mut_slice());
            Ok(answer == Ok(output) && given.as_slice() == bounds.as_slice())
        }
    }
}

#[test]
fn admits_for_another_threshold(rt: HostRuntime) -> Result<(), Fail> {
    let alloc = rt.alloc();
    let sum = bounds_for(
        alloc,
        5,
        Node::Add { left: 0, right: 1 },
        [65, 65, 131],
        136,
    )?;
    assert!(rt; sum, "five of whom three hold the secret");
    let product = bounds_for(
        alloc,
        5,
        Node::Mul { left: 0, right: 1 },
        [65, 65, 4_949_021],
        4_949_026,
    )?;
    assert!(rt; product, "a product");
    let own = bounds_for(
        alloc,
        2,
        Node::Mul { left: 0, right: 1 },
        [41, 41, 1_350_125],
        1_350_127,
    )?;
    assert!(rt; own, "the parameters' own");
    Ok(())
}

/// Whether a product behind node 0, an input, and node 1, a constant, has this bound, and the output this.
fn bounds_of_product(
    alloc: Global,
    params: &Params,
    factors: (u32, u32),
    bound: u128,
    output: u128,
) -> Result<bool, AllocError> {
    let one = constant(alloc, 1)?;
    let product = Node::Mul {
        left: factors.0,
        right: factors.1,
    };
    let nodes = vec![in alloc; Node::Input { owner: 1 }, one, product]?;
    gives(alloc, params, nodes, Ok(output), [41, 0, bound].as_slice())
}

#[test]
fn admits_products_with_constants(rt: HostRuntime) -> Result<(), Fail> {
    let alloc = rt.alloc();
    let params = frame(3, 2)?;
    let given = bounds_of_product(alloc, &params, (0, 1), 5040, 5042)?;
    assert!(rt; given, "input times constant");
    let given = bounds_of_product(alloc, &params, (1, 0), 5040, 5042)?;
    assert!(rt; given, "constant times input");
    let given = bounds_of_product(alloc, &params, (1, 1), 120, 122)?;
    assert!(rt; given, "constant times itself");
    Ok(())
}

#[test]
fn admits_a_negative_of_a_difference(rt: HostRuntime) -> Result<(), Fail> {
    let alloc = rt.alloc();
    let nodes = vec![in alloc;
        Node::Input { owner: 1 },
        Node::Input { owner: 2 },
        Node::Sub { left: 0, right: 1 },
        Node::Neg { of: 2 },
    ]?;
    let bounds = [41, 41, 83, 84];
    let given = gives(alloc, &frame(3, 2)?, nodes, Ok(86), bounds.as_slice())?;
    assert!(rt; given, "difference, then negative");
    Ok(())
}

#[test]
fn admits_a_constant(rt: HostRuntime) -> Result<(), Fail> {
    let alloc = rt.alloc();
    let seven = constant(alloc, 7)?;
    let nodes = vec![in alloc; seven]?;
    let given = gives(alloc, &frame(3, 2)?, nodes, Ok(2), [0].as_slice())?;
    assert!(rt; given, "constant");
    Ok(())
}

/// An input, and behind it six products, each of the node before it with itself.
fn products_of_products(alloc: Global) -> Result<Vec<Node>, AllocError> {
    let mut nodes = vec![in alloc; Node::Input { owner: 1 }]?;
    for k in 0..6u32 {
        nodes.push(Node::Mul { left: k, right: k })?;
    }
    Ok(nodes)
}

#[test]
fn names_the_first_place_over(rt: HostRuntime) -> Result<(), Fail> {
    let alloc = rt.alloc();
    let over = Over {
        place: Place::Node(4),
        bound: 62_170_732_776_215_021,
        limit: 985_162_418_487_295,
    };
    let bounds = [
        41,
        1_350_125,
        4_840_051_181,
        17_346_744_635_885,
        UNTOUCHED,
        UNTOUCHED,
        UNTOUCHED,
    ];
    let nodes = products_of_products(alloc)?;
    let given = gives(alloc, &frame(3, 2)?, nodes, Err(over), bounds.as_slice())?;
    assert!(rt; given, "products of products");
    Ok(())
}

#[test]
fn admits_up_to_the_limit(rt: HostRuntime) -> Result<(), Fail> {
    let alloc = rt.alloc();
    let params = frame(1, 1)?;
    let limit = 985_162_418_487_295u64;
    let nodes = climb(alloc, limit)?;
    let given = answers(alloc, &params, nodes, Ok(limit as u128))?;
    assert!(rt; given, "output at the limit");
    let over = Over {
        place: Place::Output,
        bound: limit as u128 + 1,
        limit,
    };
    let nodes = climb(alloc, limit + 1)?;
    let given = answers(alloc, &params, nodes, Err(over))?;
    assert!(rt; given, "output above it");
    Ok(())
}
