//! Inverses at a prime modulus, at a composite one and at small ones.
use mod_inverse::inverse;

const PRIME: u64 = 31_525_197_391_593_473;

const COMPOSITE: u64 = 9_839_901_637_616_593;

/// A modulus, a number, and its inverse, where it has one.
const INVERSES: [(u64, u64, Option<u64>); 8] = [
    (PRIME, 2, Some(15_762_598_695_796_737)),
    (PRIME, 0, None),
    (PRIME, 1, Some(1)),
    (PRIME, PRIME - 1, Some(PRIME - 1)),
    (3, 2, Some(2)),
    (15, 6, None),
    (15, 7, Some(13)),
    (COMPOSITE, 2, Some(4_919_950_818_808_297)),
];

#[test]
fn inverses_at_a_prime_and_at_a_composite_modulus(rt: HostRuntime) {
    for (q, x, want) in INVERSES {
        assert_eq!(rt; inverse(q, x), want, "{x} modulo {q}");
    }
}
