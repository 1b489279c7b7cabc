ghost use Rattle.std.specs.Prelude.{◌≡◌, ◌<◌, ◌≤◌, All, IfOk, length};
ghost use Rattle.mod_ring.specs.Fits.{Fits};

use crate::common::frame;
use mod_ring::{Poly, Ring};
use param_set::{ParamFault, Params, RawParams};
use proto_names::PartySet;
use shamir_ring::*;
use std::alloc::{AllocError, Global};
use std::process::Abort;
use std::test::Fail;

/// What the dealer with a seed deals to a party.
fn dealt(alloc: Global, ring: &Ring, seed: [u8; 32], point: u32) -> Result<Poly, AllocError>
    requires some_party { 1 ≤ point }
    requires of_all { point ≤ ring.now.params.parties }
    ensures { IfOk result (λ f. Fits ring.now f) }
{
    let dealing = Dealing::new(alloc, ring, seed)?;
    dealing.at(alloc, ring, point)
}

/// The share of a party: the sum of what three dealers deal to it.
fn share_of(alloc: Global, ring: &Ring, point: u32) -> Result<Poly, AllocError>
    requires some_party { 1 ≤ point }
    requires of_all { point ≤ ring.now.params.parties }
    ensures { IfOk result (λ f. Fits ring.now f) }
{
    let a = dealt(alloc, ring, [1; 32], point)?;
    let b = dealt(alloc, ring, [2; 32], point)?;
    let c = dealt(alloc, ring, [3; 32], point)?;
    combine(alloc, ring, &[a, b, c])
}

/// What a party of a set takes part with.
fn part_of(alloc: Global, ring: &Ring, set: PartySet, point: u32) -> Result<Poly, AllocError>
    requires some_party { 1 ≤ point }
    requires of_all { point ≤ ring.now.params.parties }
    ensures { IfOk result (λ f. Fits ring.now f) }
{
    let share = share_of(alloc, ring, point)?;
    additive(alloc, ring, &share, set, point)
}

/// What two parties of a set make of their shares.
fn together(
    alloc: Global,
    ring: &Ring,
    set: PartySet,
    first: u32,
    second: u32,
) -> Result<Poly, AllocError>
    requires first { 1 ≤ first }
    requires first_of_all { first ≤ ring.now.params.parties }
    requires second { 1 ≤ second }
    requires second_of_all { second ≤ ring.now.params.parties }
{
    let one = part_of(alloc, ring, set, first)?;
    let other = part_of(alloc, ring, set, second)?;
    reconstruct(alloc, ring, &[one, other])
}

/// Parameters for any two of three parties, modulo 85142929 * 115569217.
fn composite() -> Result<Params, ParamFault>
    ensures { IfOk result (λ params. params.parties ≡ 3) }
{
    Params::check(&RawParams {
        n: 8,
        q: 9_839_901_637_616_593,
        t: 16,
        root: 3_862_945_158_657_909,
        digit_bits: 8,
        err: 1,
        flood: 1,
        parties: 3,
        threshold: 2,
    })
}

/// Whether two parties of a set make this secret of their shares.
fn is_secret(
    alloc: Global,
    ring: &Ring,
    set: PartySet,
    first: u32,
    second: u32,
    secret: &Poly,
) -> Result<bool, AllocError>
    requires first { 1 ≤ first }
    requires first_of_all { first ≤ ring.now.params.parties }
    requires second { 1 ≤ second }
    requires second_of_all { second ≤ ring.now.params.parties }
{
    let made = together(alloc, ring, set, first, second)?;
    Ok(made.coeffs() == secret.coeffs())
}

/// Asserts that no coefficient of a secret is more than three parts.
fn is_small<R: Abort>(rt: &R, ring: &Ring, secret: &Poly) {
    let q = ring.params().q();
    for x in secret.coeffs() {
        assert!(rt; *x <= 3 || q - 3 <= *x, "{x} is more than three parts");
    }
}

#[test]
fn any_two_of_three_have_the_secret_modulo_a_product(rt: HostRuntime) -> Result<(), Fail> {
    let alloc = rt.alloc();
    let ring = Ring::new(alloc, &composite()?)?;
    let secret = together(alloc, &ring, PartySet { bits: 3 }, 1, 2)?;
    assert!(rt; is_secret(alloc, &ring, PartySet { bits: 5 }, 1, 3, &secret)?);
    assert!(rt; is_secret(alloc, &ring, PartySet { bits: 6 }, 3, 2, &secret)?);
    is_small(&rt, &ring, &secret);
    Ok(())
}

#[test]
fn coefficients_of_two_parties(rt: HostRuntime) -> Result<(), Fail> {
    let ring = Ring::new(rt.alloc(), &frame(3, 2)?)?;
    for (bits, j, want) in [
        (3, 1, 2),
        (3, 2, 31_525_197_391_593_472),
        (5, 1, 15_762_598_695_796_738),
        (5, 3, 15_762_598_695_796_736),
        (5, 2, 0),
        (5, 0, 0),
        (1, 1, 1),
    ] {
        assert_eq!(rt;
            lagrange(ring.params().q(), PartySet { bits }, j),
            want,
            "party {j} of the set {bits}"
        );
    }
    Ok(())
}

/// The products of 85142929 and 115569217, and of 67169537 and 101394049.
const COMPOSITE: [u64; 2] = [9_839_901_637_616_593, 6_810_591_325_885_313];

#[test]
#[tactic(auto, unfolding(param_set::specs::Moduli::indivisible))]
fn coefficients_modulo_composite_numbers(rt: HostRuntime) -> Result<(), AllocError> {
    for (bits, j, first, second) in [
        (5, 1, 4_919_950_818_808_298, 3_405_295_662_942_658),
        (5, 3, 4_919_950_818_808_296, 3_405_295_662_942_656),
        (22, 3, 9_839_901_637_616_588, 6_810_591_325_885_308),
        (22, 4, 0, 0),
        (
            2_147_483_649,
            1,
            2_856_745_636_727_399,
            1_098_482_471_916_987,
        ),
        (
            2_147_483_649,
            32,
            6_983_156_000_889_195,
            5_712_108_853_968_327,
        ),
        (
            4_294_967_295,
            16,
            9_839_901_036_536_203,
            6_810_590_724_804_923,
        ),
    ] {
        let set = PartySet { bits };
        let both = [
            lagrange(COMPOSITE[0], set, j),
            lagrange(COMPOSITE[1], set, j),
        ];
        assert_eq!(rt; both, [first, second], "party {j} of the set {bits}");
    }
    Ok(())
}
