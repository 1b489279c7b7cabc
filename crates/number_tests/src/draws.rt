//! Each call once, from the key of 32 zeros and stream 0, whose words RFC 8439 prints in appendix
//! A.1, vectors 1 and 2.
use crate::common::frame;
use mod_ring::Ring;
use ring_draws::{small, ternary, uniform, wide};
use std::test::Fail;
use word_tape::Tape;

const Q: u64 = 31_525_197_391_593_473;

#[test]
fn draws_coefficients_in_order(rt: HostRuntime) -> Result<(), Fail> {
    let ring = Ring::new(rt.alloc(), &frame(1, 1)?)?;
    let mut tape = Tape::new([0; 32], 0);
    let drawn = uniform(rt.alloc(), &ring, &mut tape)?;
    assert_eq!(rt;
        drawn.coeffs(),
        [
            19_154_914_869_124_687,
            2_176_810_963_123_680,
            16_038_927_314_688_668,
            22_377_573_741_614_565,
            16_848_532_543_425_182,
            4_104_491_106_905_123,
            7_117_808_790_902_634,
            11_925_975_226_502_527,
        ]
        .as_slice()
    );
    Ok(())
}

#[test]
fn draws_small_coefficients(rt: HostRuntime) -> Result<(), Fail> {
    let ring = Ring::new(rt.alloc(), &frame(1, 1)?)?;
    let mut tape = Tape::new([0; 32], 0);
    let drawn = small(rt.alloc(), &ring, 3, &mut tape)?;
    assert_eq!(rt;
        drawn.coeffs(),
        [2, 1, Q - 1, Q - 2, 0, 3, Q - 1, Q - 3].as_slice()
    );
    Ok(())
}

#[test]
fn draws_ternary_coefficients(rt: HostRuntime) -> Result<(), Fail> {
    let ring = Ring::new(rt.alloc(), &frame(1, 1)?)?;
    let mut tape = Tape::new([0; 32], 0);
    let drawn = ternary(rt.alloc(), &ring, &mut tape)?;
    assert_eq!(rt;
        drawn.coeffs(),
        [Q - 1, Q - 1, Q - 1, 1, 1, Q - 1, 1, 1].as_slice()
    );
    Ok(())
}

#[test]
fn draws_wide_coefficients(rt: HostRuntime) -> Result<(), Fail> {
    let ring = Ring::new(rt.alloc(), &frame(1, 1)?)?;
    let mut tape = Tape::new([0; 32], 0);
    let drawn = wide(rt.alloc(), &ring, 1_099_511_627_776, &mut tape)?;
    assert_eq!(rt;
        drawn.coeffs(),
        [
            690_107_226_494,
            Q - 739_181_724_035,
            690_282_585_079,
            600_432_160_749,
            349_973_945_775,
            Q - 308_167_803_125,
            Q - 1_005_212_536_098,
            Q - 333_238_283_060,
        ]
        .as_slice()
    );
    Ok(())
}
