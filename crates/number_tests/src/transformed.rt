//! Polynomials that are kept transformed, against the same operations on polynomials.

ghost use Rattle.std.specs.Prelude.{◌≡◌, ◌<◌, IfOk};
ghost use Rattle.mod_ring.specs.Fits.{Fits};

use crate::common::frame;
use mod_ring::{Poly, ProductSum, Ring, Transformed, add_into, mul, scale_into};
use param_set::{Params, RawParams};
use ring_draws::uniform;
use std::alloc::{AllocError, Global};
use std::test::Fail;
use word_tape::Tape;

/// A length, a modulus, and a root of the parameters. The last modulus is composite.
const RINGS: [(u64, u64, u64); 3] = [
    (8, 31_525_197_391_593_473, 3),
    (1024, 31_525_197_391_593_473, 3),
    (64, 6_810_591_325_885_313, 3_775_157_627_830_092),
];

/// Whether f is what its transform gives back, as a copy and in place.
fn comes_back(alloc: Global, ring: &Ring, tape: &mut Tape) -> Result<bool, AllocError> {
    let f = uniform(alloc, ring, tape)?;
    let values = Transformed::of(alloc, ring, &f)?;
    let copy = values.to_poly(alloc, ring)?;
    let back = values.into_poly(ring);
    Ok(copy.coeffs() == f.coeffs() && back.coeffs() == f.coeffs())
}

/// Whether the product of values gives the product.
fn multiplies(alloc: Global, ring: &Ring, tape: &mut Tape) -> Result<bool, AllocError> {
    let f = uniform(alloc, ring, tape)?;
    let g = uniform(alloc, ring, tape)?;
    let mut values = Transformed::of(alloc, ring, &f)?;
    values.multiply_into(ring, &Transformed::of(alloc, ring, &g)?);
    let product = mul(alloc, ring, &f, &g)?;
    Ok(values.into_poly(ring).coeffs() == product.coeffs())
}

/// f * g + g * h by the sum of products.
fn summed(alloc: Global, ring: &Ring, f: &Poly, g: &Poly, h: &Poly) -> Result<Poly, AllocError>
    requires f { Fits ring.now f.now }
    requires g { Fits ring.now g.now }
    requires h { Fits ring.now h.now }
{
    let left = Transformed::of(alloc, ring, f)?;
    let middle = Transformed::of(alloc, ring, g)?;
    let right = Transformed::of(alloc, ring, h)?;
    let mut sum = ProductSum::new(alloc, ring)?;
    sum.add_product(ring, &left, &middle);
    sum.add_product(ring, &middle, &right);
    sum.into_poly(alloc, ring)
}

/// Whether the sum of products is that of the products.
fn sums(alloc: Global, ring: &Ring, tape: &mut Tape) -> Result<bool, AllocError> {
    let f = uniform(alloc, ring, tape)?;
    let g = uniform(alloc, ring, tape)?;
    let h = uniform(alloc, ring, tape)?;
    let sum = summed(alloc, ring, &f, &g, &h)?;
    let mut product = mul(alloc, ring, &f, &g)?;
    add_into(ring, &mut product, &mul(alloc, ring, &g, &h)?);
    Ok(sum.coeffs() == product.coeffs())
}

/// 55 * f * g, a product after the other.
fn repeated(alloc: Global, ring: &Ring, f: &Poly, g: &Poly) -> Result<Poly, AllocError>
    requires f { Fits ring.now f.now }
    requires g { Fits ring.now g.now }
{
    let left = Transformed::of(alloc, ring, f)?;
    let right = Transformed::of(alloc, ring, g)?;
    let mut sum = ProductSum::new(alloc, ring)?;
    'terms: for i in 0..55u32 {
        sum.add_product(ring, &left, &right);
    }
    sum.into_poly(alloc, ring)
}

/// Whether 55 products are 55 times the product.
fn repeats(alloc: Global, ring: &Ring, tape: &mut Tape) -> Result<bool, AllocError> {
    let f = uniform(alloc, ring, tape)?;
    let g = uniform(alloc, ring, tape)?;
    let mut product = mul(alloc, ring, &f, &g)?;
    scale_into(ring, &mut product, 55);
    Ok(repeated(alloc, ring, &f, &g)?.coeffs() == product.coeffs())
}

#[test]
fn stands_for_its_polynomial(rt: HostRuntime) -> Result<(), Fail> {
    for (n, q, root) in RINGS {
        let params = Params::check(&RawParams {
            n,
            q,
            t: 16,
            root,
            digit_bits: 8,
            err: 1,
            flood: 1,
            parties: 1,
            threshold: 1,
        })?;
        let ring = Ring::new(rt.alloc(), &params)?;
        let mut tape = Tape::new([0; 32], 0);
        assert!(rt; comes_back(rt.alloc(), &ring, &mut tape)?, "{n} modulo {q}");
        assert!(rt; multiplies(rt.alloc(), &ring, &mut tape)?, "{n} modulo {q}");
        assert!(rt; sums(rt.alloc(), &ring, &mut tape)?, "{n} modulo {q}");
        assert!(rt; repeats(rt.alloc(), &ring, &mut tape)?, "{n} modulo {q}");
    }
    Ok(())
}

#[test]
fn counts_its_terms(rt: HostRuntime) -> Result<(), Fail> {
    let ring = Ring::new(rt.alloc(), &frame(1, 1)?)?;
    let sum = ProductSum::new(rt.alloc(), &ring)?;
    assert_eq!(rt; sum.terms(), 0);
    let zero = sum.into_poly(rt.alloc(), &ring)?;
    assert_eq!(rt; zero.coeffs(), [0; 8].as_slice());
    Ok(())
}
