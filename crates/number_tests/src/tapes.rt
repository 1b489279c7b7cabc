//! The first words of streams, as RFC 8439 prints them, and each draw from them.
use mod_word::Modulus;
use word_tape::Tape;

/// The first two words of a stream.
fn two_words(stream: u64) -> (u32, u32) {
    let mut tape = Tape::new([0; 32], stream);
    (tape.word(), tape.word())
}

#[test]
fn gives_the_printed_words(rt: HostRuntime) {
    // Appendix A.1, vectors 1 and 5: their nonces are streams 0 and 2^57.
    assert_eq!(rt; two_words(0), (2_917_185_654, 2_419_978_656));
    let second = two_words(144_115_188_075_855_872);
    assert_eq!(rt; second, (927_844_034, 926_340_492));
}

#[test]
fn draws_signs(rt: HostRuntime) {
    let mut tape = Tape::new([0; 32], 0);
    assert_eq!(rt; tape.ternary(), -1);
    assert_eq!(rt; tape.ternary(), -1);
}

#[test]
fn draws_small_numbers(rt: HostRuntime) {
    let mut tape = Tape::new([0; 32], 0);
    assert_eq!(rt; tape.small(3), 2);
    assert_eq!(rt; tape.small(3), 1);
}

#[test]
fn draws_wide_numbers(rt: HostRuntime) {
    let mut tape = Tape::new([0; 32], 0);
    assert_eq!(rt; tape.wide(1_099_511_627_776), 690_107_226_494);
}

#[test]
fn draws_residues(rt: HostRuntime) {
    let mut tape = Tape::new([0; 32], 0);
    let first = tape.uniform(31_525_197_391_593_473);
    assert_eq!(rt; first, 19_154_914_869_124_687);
    let second = tape.uniform(31_525_197_391_593_473);
    assert_eq!(rt; second, 2_176_810_963_123_680);
}

#[test]
fn draws_residues_by_a_modulus(rt: HostRuntime) {
    let modulus = Modulus::new(31_525_197_391_593_473);
    let mut tape = Tape::new([0; 32], 0);
    assert_eq!(rt; tape.uniform_by(&modulus), 19_154_914_869_124_687);
    assert_eq!(rt; tape.uniform_by(&modulus), 2_176_810_963_123_680);
}

/// The draw by a modulus made before, and the plain one, from the same place.
fn small_twice(stream: u64, bound: u64) -> Option<(i64, i64)> {
    if bound <= 255 {
        let choices = Modulus::new(2 * bound + 1);
        let by = Tape::new([0; 32], stream).small_by(bound, &choices);
        return Some((by, Tape::new([0; 32], stream).small(bound)));
    }
    None
}

fn wide_twice(stream: u64, bound: u64) -> Option<(i64, i64)> {
    if bound <= 1_099_511_627_776 {
        let choices = Modulus::new(2 * bound + 1);
        let by = Tape::new([0; 32], stream).wide_by(bound, &choices);
        return Some((by, Tape::new([0; 32], stream).wide(bound)));
    }
    None
}

/// Streams 0 and 2^57, whose first words are printed, and a bound; what their first word, and their first
/// two, give.
const DRAWS: [(u64, u64, i64, i64); 6] = [
    (0, 0, 0, 0),
    (0, 3, 2, -3),
    (0, 255, -159, 172),
    (144_115_188_075_855_872, 0, 0, 0),
    (144_115_188_075_855_872, 3, 2, 2),
    (144_115_188_075_855_872, 255, 128, -19),
];

#[test]
fn draws_the_same_by_a_modulus(rt: HostRuntime) {
    for (stream, bound, one, two) in DRAWS {
        assert_eq!(rt;
            small_twice(stream, bound),
            Some((one, one)),
            "{stream} {bound}"
        );
        assert_eq!(rt;
            wide_twice(stream, bound),
            Some((two, two)),
            "{stream} {bound}"
        );
    }
}

#[test]
fn draws_the_same_within_the_greatest_bound(rt: HostRuntime) {
    let first = 690_107_226_494;
    assert_eq!(rt; wide_twice(0, 1_099_511_627_776), Some((first, first)));
    let second = 602_221_456_216;
    assert_eq!(rt;
        wide_twice(144_115_188_075_855_872, 1_099_511_627_776),
        Some((second, second))
    );
}
