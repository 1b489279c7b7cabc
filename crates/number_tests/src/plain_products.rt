//! Products and rotations of plaintexts of many coefficients, against their definitions.

ghost use Rattle.std.specs.Prelude.{◌<◌};

use crate::schoolbook::schoolbook;
use crate::transforms::sample;
use circuit_form::{Circuit, Node, Plain, plain_value};
use param_set::{ParamFault, Params, RawParams};
use std::alloc::{AllocError, Global};
use std::test::Fail;

/// The largest modulus of plaintexts.
const T: u64 = 65_537;

/// Parameters for n coefficients modulo T.
fn params(n: u64) -> Result<Params, ParamFault> {
    Params::check(&RawParams {
        n,
        q: 31_525_197_391_593_473,
        t: T,
        root: 3,
        digit_bits: 8,
        err: 1,
        flood: 1,
        parties: 1,
        threshold: 1,
    })
}

/// The plain value of some nodes, if they are a circuit without inputs.
fn value_of(alloc: Global, params: &Params, nodes: Vec<Node>) -> Result<Option<Plain>, AllocError> {
    match Circuit::new(params, nodes) {
        Ok(circuit) if circuit.inputs() == 0 => {
            Ok(Some(plain_value(alloc, params, &circuit, &[])?))
        }
        _ => Ok(None),
    }
}

/// A constant.
fn constant(coeffs: Vec<u64>) -> Node {
    Node::Const {
        value: Plain::from_vec(coeffs),
    }
}

/// Whether the product of two lists of coefficients is a third.
fn gives(
    alloc: Global,
    params: &Params,
    f: Vec<u64>,
    g: Vec<u64>,
    product: &[u64],
) -> Result<bool, AllocError> {
    let nodes = vec![in alloc; constant(f), constant(g), Node::Mul { left: 0, right: 1 }]?;
    match value_of(alloc, params, nodes)? {
        Some(value) => Ok(value.coeffs() == product),
        None => Ok(false),
    }
}

#[test]
fn wraps_around_with_the_sign_changed(rt: HostRuntime) -> Result<(), Fail> {
    let alloc = rt.alloc();
    let x7 = vec![in alloc; 0, 0, 0, 0, 0, 0, 0, 1]?;
    let x = vec![in alloc; 0, 1, 0, 0, 0, 0, 0, 0]?;
    let minus_one = [T - 1, 0, 0, 0, 0, 0, 0, 0];
    let wraps = gives(alloc, &params(8)?, x7, x, minus_one.as_slice())?;
    assert!(rt; wraps);
    Ok(())
}

#[test]
fn multiplies_as_by_the_definition(rt: HostRuntime) -> Result<(), Fail> {
    let alloc = rt.alloc();
    for n in [8, 64, 1024] {
        let f = sample(alloc, T, n, 3)?;
        let g = sample(alloc, T, n, 5)?;
        let sums = schoolbook(alloc, f.as_slice(), g.as_slice(), T)?;
        let agrees = gives(alloc, &params(n)?, f, g, sums.as_slice())?;
        assert!(rt; agrees, "{n} coefficients");
    }
    Ok(())
}

/// The square of the polynomial whose n coefficients are all -1: coefficient k is the difference of k + 1
/// and n - 1 - k.
fn square_of_ones(alloc: Global, n: u64) -> Result<Vec<u64>, AllocError>
    requires { n < 65537 }
{
    let mut square = Vec::new(alloc);
    for k in 0..n {
        square.push((2 * k + 2 + T - n) % T)?;
    }
    Ok(square)
}

#[test]
fn multiplies_the_greatest_coefficients(rt: HostRuntime) -> Result<(), Fail> {
    let alloc = rt.alloc();
    let f = vec![in alloc; T - 1; 4096]?;
    let g = vec![in alloc; T - 1; 4096]?;
    let square = square_of_ones(alloc, 4096)?;
    let agrees = gives(alloc, &params(4096)?, f, g, square.as_slice())?;
    assert!(rt; agrees);
    Ok(())
}

/// Whether each coefficient i of f stands at place i * g modulo 2n, with its sign changed past n.
fn is_turned(n: u64, g: u64, f: &[u64], turned: &[u64]) -> bool
    requires degree { (0 < n) × (n < 65537) }
    requires turn { g < 131072 }
{
    let mut next = 0;
    for x in f {
        let place = next % (2 * n);
        let at = turned.get((place % n) as usize).copied().unwrap_or(T);
        let found = if place < n {
            at
        } else {
            T.saturating_sub(at) % T
        };
        if found != *x {
            return false;
        }
        next = place + g;
    }
    turned.len() == f.len()
}

#[test]
fn turns_as_by_the_definition(rt: HostRuntime) -> Result<(), Fail> {
    let alloc = rt.alloc();
    for g in [3, 5, 1023, 2047] {
        let f = sample(alloc, T, 1024, 3)?;
        let nodes = vec![in alloc;
            constant(sample(alloc, T, 1024, 3)?),
            Node::Rot { g, of: 0 },
        ]?;
        let value = value_of(alloc, &params(1024)?, nodes)?;
        let Some(value) = value else {
            panic!(rt; "no circuit")
        };
        assert!(rt;
            is_turned(1024, u64::from(g), f.as_slice(), value.coeffs()),
            "X^{g}"
        );
    }
    Ok(())
}
