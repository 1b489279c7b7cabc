//! Small values worked out by hand, over the ring with n = 8, q = 31525197391593473 and t = 16, whose
//! D is 1970324836974592.
ghost use Rattle.std.specs.Prelude.{◌≡◌, ◌<◌, All, IfOk};
ghost use Rattle.ring_spec.specs.Pairs.{CipherFits};
ghost use Rattle.ring_spec.specs.Ring.{IsPoly};

use crate::common::frame;
use bfv_core::{Ciphertext, add, mul_plain, neg, round_phase, sub, trivial};
use mod_ring::{Ring, of_signed};
use param_set::Plain;
use std::alloc::{AllocError, Global};
use std::test::Fail;

const Q: u64 = 31_525_197_391_593_473;

const ZERO: [u64; 8] = [0; 8];

/// A plaintext of the ring.
fn plain(alloc: Global, ring: &Ring, coeffs: [u64; 8]) -> Result<Plain, AllocError>
    requires degree { ring.now.params.n ≡ 8 }
    requires below { All (λ x. x < ring.now.params.t) coeffs }
    ensures { IfOk result (λ m. IsPoly ring.now.params.t ring.now.params.n m) }
{
    Ok(Plain::from_vec(Vec::from_slice(alloc, coeffs.as_slice())?))
}

/// The ciphertext with these two parts.
fn cipher(alloc: Global, ring: &Ring, c0: [i64; 8], c1: [i64; 8]) -> Result<Ciphertext, AllocError>
    requires { ring.now.params.n ≡ 8 }
    ensures { IfOk result (λ c. CipherFits ring.now.params.q ring.now.params.n c) }
{
    let c0 = of_signed(alloc, ring, c0.as_slice())?;
    let c1 = of_signed(alloc, ring, c1.as_slice())?;
    Ok(Ciphertext { c0, c1 })
}

/// Whether a ciphertext has these two parts.
fn is(c: &Ciphertext, c0: [u64; 8], c1: [u64; 8]) -> bool {
    c.c0.coeffs() == c0.as_slice() && c.c1.coeffs() == c1.as_slice()
}

/// Whether the trivial ciphertext of a plaintext has this first part, zero for the second, and opens to the plaintext.
fn is_trivial(
    alloc: Global,
    ring: &Ring,
    coeffs: [u64; 8],
    c0: [u64; 8],
) -> Result<bool, AllocError>
    requires degree { ring.now.params.n ≡ 8 }
    requires below { All (λ x. x < ring.now.params.t) coeffs }
{
    let m = plain(alloc, ring, coeffs)?;
    let made = trivial(alloc, ring, &m)?;
    let opened = round_phase(alloc, ring, &made.c0)?;
    Ok(is(&made, c0, ZERO) && opened.coeffs() == coeffs.as_slice())
}

#[test]
fn scales_a_plaintext(rt: HostRuntime) -> Result<(), Fail> {
    let alloc = rt.alloc();
    let ring = Ring::new(alloc, &frame(3, 2)?)?;
    let one = [1, 0, 0, 0, 0, 0, 0, 0];
    let scaled = [1_970_324_836_974_592, 0, 0, 0, 0, 0, 0, 0];
    assert!(rt; is_trivial(alloc, &ring, one, scaled)?, "one");
    let some = [15, 0, 7, 8, 0, 0, 0, 2];
    let scaled = [
        29_554_872_554_618_880,
        0,
        13_792_273_858_822_144,
        15_762_598_695_796_736,
        0,
        0,
        0,
        3_940_649_673_949_184,
    ];
    assert!(rt; is_trivial(alloc, &ring, some, scaled)?, "some");
    Ok(())
}

/// The first of two ciphertexts.
fn first(alloc: Global, ring: &Ring) -> Result<Ciphertext, AllocError>
    requires { ring.now.params.n ≡ 8 }
    ensures { IfOk result (λ c. CipherFits ring.now.params.q ring.now.params.n c) }
{
    cipher(
        alloc,
        ring,
        [1, 2, 0, 0, 0, 0, 0, -1],
        [5, 0, 0, 0, 0, 0, 0, 0],
    )
}

/// The second.
fn second(alloc: Global, ring: &Ring) -> Result<Ciphertext, AllocError>
    requires { ring.now.params.n ≡ 8 }
    ensures { IfOk result (λ c. CipherFits ring.now.params.q ring.now.params.n c) }
{
    cipher(
        alloc,
        ring,
        [3, 0, 0, 0, 0, 0, 0, 1],
        [0, -2, 0, 0, 0, 0, 0, 0],
    )
}

/// Whether the sum of the two has these parts.
fn is_sum(alloc: Global, ring: &Ring, c0: [u64; 8], c1: [u64; 8]) -> Result<bool, AllocError>
    requires { ring.now.params.n ≡ 8 }
{
    let c = first(alloc, ring)?;
    let d = second(alloc, ring)?;
    let sum = add(alloc, ring, &c, &d)?;
    Ok(is(&sum, c0, c1))
}

#[test]
fn adds_part_by_part(rt: HostRuntime) -> Result<(), Fail> {
    let alloc = rt.alloc();
    let ring = Ring::new(alloc, &frame(3, 2)?)?;
    let c0 = [4, 2, 0, 0, 0, 0, 0, 0];
    let c1 = [5, Q - 2, 0, 0, 0, 0, 0, 0];
    assert!(rt; is_sum(alloc, &ring, c0, c1)?);
    Ok(())
}

/// Whether the second taken from the first has these parts.
fn is_difference(alloc: Global, ring: &Ring, c0: [u64; 8], c1: [u64; 8]) -> Result<bool, AllocError>
    requires { ring.now.params.n ≡ 8 }
{
    let c = first(alloc, ring)?;
    let d = second(alloc, ring)?;
    let less = sub(alloc, ring, &c, &d)?;
    Ok(is(&less, c0, c1))
}

#[test]
fn subtracts_part_by_part(rt: HostRuntime) -> Result<(), Fail> {
    let alloc = rt.alloc();
    let ring = Ring::new(alloc, &frame(3, 2)?)?;
    let c0 = [Q - 2, 2, 0, 0, 0, 0, 0, Q - 2];
    let c1 = [5, 2, 0, 0, 0, 0, 0, 0];
    assert!(rt; is_difference(alloc, &ring, c0, c1)?);
    Ok(())
}

/// Whether the first taken from itself is zero in both parts.
fn is_nothing(alloc: Global, ring: &Ring) -> Result<bool, AllocError>
    requires { ring.now.params.n ≡ 8 }
{
    let c = first(alloc, ring)?;
    let none = sub(alloc, ring, &c, &c)?;
    Ok(is(&none, ZERO, ZERO))
}

#[test]
fn leaves_nothing_of_itself(rt: HostRuntime) -> Result<(), Fail> {
    let alloc = rt.alloc();
    let ring = Ring::new(alloc, &frame(3, 2)?)?;
    assert!(rt; is_nothing(alloc, &ring)?);
    Ok(())
}

/// The negative of the first.
fn negated(alloc: Global, ring: &Ring) -> Result<Ciphertext, AllocError>
    requires { ring.now.params.n ≡ 8 }
    ensures { IfOk result (λ c. CipherFits ring.now.params.q ring.now.params.n c) }
{
    let c = first(alloc, ring)?;
    neg(alloc, ring, &c)
}

#[test]
fn takes_the_negative_of_both_parts(rt: HostRuntime) -> Result<(), Fail> {
    let alloc = rt.alloc();
    let ring = Ring::new(alloc, &frame(3, 2)?)?;
    let c0 = [Q - 1, Q - 2, 0, 0, 0, 0, 0, 1];
    let c1 = [Q - 5, 0, 0, 0, 0, 0, 0, 0];
    assert!(rt; is(&negated(alloc, &ring)?, c0, c1));
    Ok(())
}

/// Whether the negative's negative has these parts.
fn is_negated_twice(
    alloc: Global,
    ring: &Ring,
    c0: [u64; 8],
    c1: [u64; 8],
) -> Result<bool, AllocError>
    requires { ring.now.params.n ≡ 8 }
{
    let once = negated(alloc, ring)?;
    let twice = neg(alloc, ring, &once)?;
    Ok(is(&twice, c0, c1))
}

#[test]
fn is_itself_when_negated_twice(rt: HostRuntime) -> Result<(), Fail> {
    let alloc = rt.alloc();
    let ring = Ring::new(alloc, &frame(3, 2)?)?;
    let c0 = [1, 2, 0, 0, 0, 0, 0, Q - 1];
    let c1 = [5, 0, 0, 0, 0, 0, 0, 0];
    assert!(rt; is_negated_twice(alloc, &ring, c0, c1)?);
    Ok(())
}

/// Whether a ciphertext times X has these parts.
fn is_turned(alloc: Global, ring: &Ring, c0: [u64; 8], c1: [u64; 8]) -> Result<bool, AllocError>
    requires degree { ring.now.params.n ≡ 8 }
    requires modulus { ring.now.params.t ≡ 16 }
{
    let c = cipher(
        alloc,
        ring,
        [1, 2, 0, 0, 0, 0, 0, 4],
        [5, 0, 0, 0, 0, 0, 0, -3],
    )?;
    let x = plain(alloc, ring, [0, 1, 0, 0, 0, 0, 0, 0])?;
    let turned = mul_plain(alloc, ring, &c, &x)?;
    Ok(is(&turned, c0, c1))
}

#[test]
fn turns_by_a_multiple_of_x(rt: HostRuntime) -> Result<(), Fail> {
    let alloc = rt.alloc();
    let ring = Ring::new(alloc, &frame(3, 2)?)?;
    let c0 = [Q - 4, 1, 2, 0, 0, 0, 0, 0];
    let c1 = [3, 5, 0, 0, 0, 0, 0, 0];
    assert!(rt; is_turned(alloc, &ring, c0, c1)?, "turned");
    Ok(())
}
