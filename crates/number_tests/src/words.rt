//! Values that another program computed, at both ends of the range of q and between.
use mod_word::{Factor, Modulus};

/// The greatest modulus, 2^62.
const GREATEST: u64 = 4_611_686_018_427_387_904;

fn multiple(q: u64, w: u64, x: u64) -> Option<(u64, u64, u64)> {
    if w < q && q <= GREATEST {
        let factor = Factor::new(q, w);
        let (quotient, rest) = factor.divided(x);
        return Some((factor.times(x), quotient, rest));
    }
    None
}

fn residues(q: u64, low: u64, high: u64) -> Option<(u64, u64)> {
    if 1 <= q && q <= GREATEST {
        let modulus = Modulus::new(q);
        return Some((modulus.word(low), modulus.wide(low, high)));
    }
    None
}

/// A modulus, a factor, a word, and the quotient and the rest of their product by the modulus.
const MULTIPLES: [(u64, u64, u64, u64, u64); 12] = [
    (1, 0, u64::MAX, 0, 0),
    (2, 1, u64::MAX, 9_223_372_036_854_775_807, 1),
    (7, 6, 9, 7, 5),
    (7, 3, 7, 3, 0),
    (
        31_525_197_391_593_473,
        31_525_197_391_593_472,
        u64::MAX,
        18_446_744_073_709_551_029,
        27_021_597_764_223_563,
    ),
    (
        31_525_197_391_593_473,
        15_762_598_695_796_737,
        12_345_678_901_234_567_890,
        6_172_839_450_617_284_140,
        25_425_959_256_556_710,
    ),
    (
        31_525_197_391_593_473,
        65_537,
        31_525_197_391_593_472,
        65_536,
        31_525_197_391_527_936,
    ),
    (
        31_525_197_391_593_473,
        65_537,
        31_525_197_391_593_473,
        65_537,
        0,
    ),
    (
        4_611_686_018_427_387_847,
        4_611_686_018_427_387_846,
        u64::MAX,
        18_446_744_073_709_551_610,
        4_611_686_018_427_387_620,
    ),
    (
        4_611_686_018_427_387_847,
        4_611_686_018_427_387_846,
        4_611_686_018_427_387_847,
        4_611_686_018_427_387_846,
        0,
    ),
    (
        GREATEST,
        GREATEST - 1,
        u64::MAX,
        18_446_744_073_709_551_611,
        1,
    ),
    (
        GREATEST,
        2_305_843_009_213_693_952,
        3,
        1,
        2_305_843_009_213_693_952,
    ),
];

#[test]
fn multiplies_and_divides(rt: HostRuntime) {
    for (q, w, x, quotient, rest) in MULTIPLES {
        assert_eq!(rt;
            multiple(q, w, x),
            Some((rest, quotient, rest)),
            "{w} times {x} by {q}"
        );
    }
}

/// A modulus, two words, the residue of the first, and that of both.
const RESIDUES: [(u64, u64, u64, u64, u64); 9] = [
    (1, u64::MAX, u64::MAX, 0, 0),
    (2, u64::MAX, u64::MAX, 1, 1),
    (7, 5, 3, 5, 4),
    (
        31_525_197_391_593_473,
        u64::MAX,
        u64::MAX,
        4_503_599_627_369_910,
        3_860_228_252_374_245,
    ),
    (31_525_197_391_593_473, 31_525_197_391_593_473, 0, 0, 0),
    (
        31_525_197_391_593_473,
        0,
        31_525_197_391_593_472,
        0,
        27_021_597_764_223_562,
    ),
    (4_611_686_018_427_387_847, u64::MAX, u64::MAX, 227, 51_983),
    (
        4_611_686_018_427_387_847,
        12_345_678_901_234_567_890,
        9_876_543_210_987_654_321,
        3_122_306_864_379_792_196,
        4_471_381_976_999_708_048,
    ),
    (GREATEST, u64::MAX, u64::MAX, GREATEST - 1, GREATEST - 1),
];

#[test]
fn reduces_one_word_and_two(rt: HostRuntime) {
    for (q, low, high, word, wide) in RESIDUES {
        assert_eq!(rt;
            residues(q, low, high),
            Some((word, wide)),
            "{low} and {high} modulo {q}"
        );
    }
}
