//! Each call once, over the ring with n = 8 and q = 31525197391593473; and products at other lengths.
ghost use Rattle.std.specs.Prelude.{◌≡◌, ◌<◌, length, IfOk};
ghost use Rattle.mod_ring.specs.Fits.{Fits};

use crate::common::frame;
use crate::schoolbook::schoolbook;
use mod_ring::{
    Poly, Polys, Ring, add_into, centre, mul, neg_into, of_residues, of_signed, phi, residue_of,
    scale_into, sub_into, zero,
};
use param_set::{Params, RawParams};
use ring_draws::uniform;
use std::alloc::{AllocError, Global};
use std::process::Abort;
use std::test::Fail;
use word_tape::Tape;

const Q: u64 = 31_525_197_391_593_473;

/// -1 + 2 X.
fn first(alloc: Global, ring: &Ring) -> Result<Poly, AllocError>
    requires { ring.now.params.n ≡ 8 }
    ensures { IfOk result (λ f. Fits ring.now f) }
{
    of_signed(alloc, ring, &[-1, 2, 0, 0, 0, 0, 0, 0])
}

/// X^7.
fn last(alloc: Global, ring: &Ring) -> Result<Poly, AllocError>
    requires { ring.now.params.n ≡ 8 }
    ensures { IfOk result (λ f. Fits ring.now f) }
{
    of_signed(alloc, ring, &[0, 0, 0, 0, 0, 0, 0, 1])
}

/// Tells of the zero polynomial when it has been changed in each way.
fn changes<R: Abort>(rt: &R, ring: &Ring, acc: &mut Poly, f: &Poly, g: &Poly)
    requires degree { ring.now.params.n ≡ 8 }
    requires modulus { 3 < ring.now.params.q }
    requires acc { Fits ring.now acc.old }
    requires f { Fits ring.now f.now }
    requires g { Fits ring.now g.now }
{
    add_into(ring, acc, f);
    add_into(ring, acc, f);
    assert_eq!(rt; acc.coeffs(), [Q - 2, 4, 0, 0, 0, 0, 0, 0].as_slice());
    sub_into(ring, acc, g);
    assert_eq!(rt; acc.coeffs(), [Q - 2, 4, 0, 0, 0, 0, 0, Q - 1].as_slice());
    neg_into(ring, acc);
    assert_eq!(rt; acc.coeffs(), [2, Q - 4, 0, 0, 0, 0, 0, 1].as_slice());
    scale_into(ring, acc, 3);
    assert_eq!(rt; acc.coeffs(), [6, Q - 12, 0, 0, 0, 0, 0, 3].as_slice());
    acc.set(7, 5);
    assert_eq!(rt; acc.coeffs(), [6, Q - 12, 0, 0, 0, 0, 0, 5].as_slice());
}

#[test]
fn computes_in_the_ring(rt: HostRuntime) -> Result<(), Fail> {
    let ring = Ring::new(rt.alloc(), &frame(1, 1)?)?;
    assert_eq!(rt; ring.params().q(), Q);
    let f = first(rt.alloc(), &ring)?;
    let g = last(rt.alloc(), &ring)?;
    let mut acc = zero(rt.alloc(), &ring)?;
    changes(&rt, &ring, &mut acc, &f, &g);
    Ok(())
}

const MINUS_ONE: [u64; 8] = [31_525_197_391_593_472, 0, 0, 0, 0, 0, 0, 0];

/// X.
fn x(alloc: Global, ring: &Ring) -> Result<Poly, AllocError>
    requires { ring.now.params.n ≡ 8 }
    ensures { IfOk result (λ f. Fits ring.now f) }
{
    of_signed(alloc, ring, &[0, 1, 0, 0, 0, 0, 0, 0])
}

#[test]
fn wraps_around_with_the_sign_changed(rt: HostRuntime) -> Result<(), Fail> {
    let params = frame(1, 1)?;
    let ring = Ring::new(rt.alloc(), &params)?;
    let x = x(rt.alloc(), &ring)?;
    let x7 = of_residues(&params, vec![in rt.alloc(); 0, 0, 0, 0, 0, 0, 0, 1]?);
    let product = mul(rt.alloc(), &ring, &x7, &x)?;
    assert_eq!(rt; product.coeffs(), MINUS_ONE.as_slice());
    Ok(())
}

/// 3 X^3 and X^5.
fn two_powers(alloc: Global, ring: &Ring) -> Result<Poly, AllocError>
    requires { ring.now.params.n ≡ 8 }
    ensures { IfOk result (λ f. Fits ring.now f) }
{
    of_signed(alloc, ring, &[0, 0, 0, 3, 0, 1, 0, 0])
}

#[test]
fn puts_a_power_for_x(rt: HostRuntime) -> Result<(), Fail> {
    let ring = Ring::new(rt.alloc(), &frame(1, 1)?)?;
    let f = two_powers(rt.alloc(), &ring)?;
    // X^9 is -X, and X^15 is -X^7
    let image = phi(rt.alloc(), &ring, 3, &f)?;
    assert_eq!(rt; image.coeffs(), [0, Q - 3, 0, 0, 0, 0, 0, Q - 1].as_slice());
    // 3 * 11 is 1 modulo 16
    let back = phi(rt.alloc(), &ring, 11, &image)?;
    assert_eq!(rt; back.coeffs(), f.coeffs());
    Ok(())
}

/// A length, a modulus, and a root of the parameters. The last two moduli are composite.
const RINGS: [(u64, u64, u64); 5] = [
    (8, Q, 3),
    (64, Q, 3),
    (1024, Q, 3),
    (8, 9_839_901_637_616_593, 3_862_945_158_657_909),
    (64, 6_810_591_325_885_313, 3_775_157_627_830_092),
];

/// Compares the product of two uniform polynomials with the schoolbook one.
fn agrees(alloc: Global, params: &Params) -> Result<bool, AllocError> {
    let ring = Ring::new(alloc, params)?;
    let mut tape = Tape::new([0; 32], 0);
    let f = uniform(alloc, &ring, &mut tape)?;
    let g = uniform(alloc, &ring, &mut tape)?;
    let product = mul(alloc, &ring, &f, &g)?;
    let sums = schoolbook(alloc, f.coeffs(), g.coeffs(), params.q())?;
    Ok(product.coeffs() == sums.as_slice())
}

#[test]
fn multiplies_as_by_the_definition(rt: HostRuntime) -> Result<(), Fail> {
    for (n, q, root) in RINGS {
        let params = Params::check(&RawParams {
            n,
            q,
            t: 16,
            root,
            digit_bits: 8,
            err: 1,
            flood: 1,
            parties: 1,
            threshold: 1,
        })?;
        assert!(rt; agrees(rt.alloc(), &params)?, "{n} modulo {q}");
    }
    Ok(())
}

/// X and -1.
fn two(alloc: Global) -> Result<Polys, Fail>
    ensures { IfOk result (λ list. length list ≡ 2) }
{
    let ring = Ring::new(alloc, &frame(1, 1)?)?;
    let mut list = Polys::new(alloc);
    list.push(x(alloc, &ring)?)?;
    list.push(of_signed(alloc, &ring, &[-1, 0, 0, 0, 0, 0, 0, 0])?)?;
    Ok(list)
}

#[test]
fn keeps_lists_of_polynomials(rt: HostRuntime) -> Result<(), Fail> {
    assert!(rt; Polys::new(rt.alloc()).is_empty());
    let list = two(rt.alloc())?;
    assert_eq!(rt; list.len(), 2);
    assert_eq!(rt; list.at(1).coeffs(), MINUS_ONE.as_slice());
    assert!(rt; list.get(2).is_none());
    let items = list.into_vec();
    assert_eq!(rt; items.len(), 2);
    let list = Polys::from_vec(items);
    assert_eq!(rt; list.as_slice().len(), 2);
    assert!(rt;
        list.get(1)
            .is_some_and(|f| f.coeffs() == MINUS_ONE.as_slice())
    );
    Ok(())
}

#[test]
fn reads_signs(rt: HostRuntime) {
    for (residue, whole) in [(0, 0), (3, 3), (4, -3), (6, -1)] {
        assert_eq!(rt; centre(7, residue), whole, "{residue}");
        assert_eq!(rt; residue_of(7, whole), residue, "{whole}");
    }
    assert_eq!(rt; residue_of(7, -14), 0);
}
