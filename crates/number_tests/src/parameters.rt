//! Each call once, the parameters against numbers worked out by hand.
ghost use Rattle.std.specs.Prelude.{◌≡◌, length, IfOk};

use crate::common::frame;
use param_set::{Field, Ids, ParamFault, Params, Plain, Plains, RawParams, Slots};
use std::alloc::{AllocError, Global};
use std::test::Fail;

const FRAME: RawParams = RawParams {
    n: 8,
    q: 31_525_197_391_593_473,
    t: 16,
    root: 3,
    digit_bits: 8,
    err: 1,
    flood: 1,
    parties: 3,
    threshold: 2,
};

#[test]
fn reads_the_frame(rt: HostRuntime) -> Result<(), Fail> {
    for (balanced, params) in [
        (false, frame(3, 2)?),
        (true, frame(3, 2)?.balanced()),
        (true, frame(3, 2)?.balanced().balanced()),
    ] {
        assert_eq!(rt; params.is_balanced(), balanced);
        for (name, value, wanted) in [
            ("n", params.n(), 8),
            ("q", params.q(), 31_525_197_391_593_473),
            ("t", params.t(), 16),
            ("digit bits", params.digit_bits(), 8),
            ("err", params.err(), 1),
            ("flood", params.flood(), 1),
            ("parties", params.parties(), 3),
            ("threshold", params.threshold(), 2),
            ("psi", params.psi(), 1_791_537_114_801_093),
            ("rows", params.rows(), 7),
            ("delta", params.delta(), 1_970_324_836_974_592),
            ("rem", params.rem(), 1),
            ("limit", params.limit(), 985_162_418_487_295),
        ] {
            assert_eq!(rt; value, wanted, "{name}");
        }
    }
    Ok(())
}

/// The numbers of the frame with another degree, modulus and root.
fn over(n: u64, q: u64, root: u64) -> RawParams {
    RawParams {
        n,
        q,
        root,
        ..FRAME
    }
}

#[test]
fn takes_moduli_with_a_root(rt: HostRuntime) -> Result<(), Fail> {
    for (n, q, root, psi, rows) in [
        (16, 31_525_197_391_593_473, 3, 280_011_084_249_635, 7),
        (4096, 31_525_197_391_593_473, 3, 10_685_641_567_815_319, 7),
        // the least and the greatest modulus with a root at n = 8
        (8, 1_099_511_627_873, 3, 108_163_207_722, 6),
        (8, 36_028_797_018_963_841, 19, 19_727_220_748_478_935, 7),
        // these two are composite
        (
            8,
            9_839_901_637_616_593,
            3_862_945_158_657_909,
            8_145_602_877_352_104,
            7,
        ),
        (
            64,
            6_810_591_325_885_313,
            3_775_157_627_830_092,
            5_073_007_910_005_902,
            7,
        ),
    ] {
        let params = Params::check(&over(n, q, root))?;
        assert_eq!(rt; params.psi(), psi, "{n} {q}");
        assert_eq!(rt; params.rows(), rows, "{n} {q}");
    }
    Ok(())
}

#[test]
fn refuses_moduli_and_roots(rt: HostRuntime) {
    for (n, q, root, value) in [
        // 3 mod 16, below 2^40, and past 2^55
        (8, 31_525_197_391_593_475, 3, None),
        (8, 1_099_511_627_761, 3, None),
        (8, 36_028_797_018_964_033, 3, None),
        // multiples of 3, of 29, of 31, and of 17 with a root
        (8, 1_099_511_627_793, 3, None),
        (8, 1_099_511_628_001, 3, None),
        (8, 1_099_511_628_209, 3, None),
        (8, 2_199_023_262_673, 507_842_798_367, None),
        (8, 31_525_197_391_593_473, 2, Some(1)),
        (8, 31_525_197_391_593_473, 9, Some(1)),
        (8, 31_525_197_391_593_473, 31_525_197_391_593_472, Some(1)),
        (8, 9_839_901_637_616_593, 2, Some(198_916_957_467_469)),
    ] {
        let wanted = match value {
            None => ParamFault::Bad {
                field: Field::Q,
                value: q,
            },
            Some(value) => ParamFault::NoRoot { value },
        };
        assert_eq!(rt;
            Params::check(&over(n, q, root)).err(),
            Some(wanted),
            "{n} {q} {root}"
        );
    }
}

/// The numbers of the frame with another one at a field.
fn with(field: Field, value: u64) -> RawParams {
    let mut raw = FRAME;
    match field {
        Field::N => raw.n = value,
        Field::Q => raw.q = value,
        Field::T => raw.t = value,
        Field::Root => raw.root = value,
        Field::DigitBits => raw.digit_bits = value,
        Field::Err => raw.err = value,
        Field::Flood => raw.flood = value,
        Field::Parties => raw.parties = value,
        Field::Threshold => raw.threshold = value,
    }
    raw
}

#[test]
fn takes_fields_up_to_both_ends(rt: HostRuntime) {
    for (field, value, is_fine) in [
        (Field::N, 4, false),
        (Field::N, 8, true),
        (Field::N, 12, false),
        (Field::N, 4096, true),
        (Field::N, 8192, false),
        (Field::T, 1, false),
        (Field::T, 2, true),
        (Field::T, 65_537, true),
        (Field::T, 65_538, false),
        (Field::Root, 1, false),
        (Field::Root, 31_525_197_391_593_473, false),
        (Field::DigitBits, 0, false),
        (Field::DigitBits, 1, true),
        (Field::DigitBits, 16, true),
        (Field::DigitBits, 17, false),
        (Field::Err, 0, false),
        (Field::Err, 1, true),
        (Field::Err, 255, true),
        (Field::Err, 256, false),
        (Field::Flood, 0, true),
        (Field::Flood, 1_099_511_627_776, true),
        (Field::Flood, 1_099_511_627_777, false),
        (Field::Parties, 0, false),
        (Field::Parties, 2, true),
        (Field::Parties, 32, true),
        (Field::Parties, 33, false),
        (Field::Threshold, 0, false),
        (Field::Threshold, 1, true),
        (Field::Threshold, 3, true),
        (Field::Threshold, 4, false),
    ] {
        let wanted = if is_fine {
            None
        } else {
            Some(ParamFault::Bad { field, value })
        };
        assert_eq!(rt;
            Params::check(&with(field, value)).err(),
            wanted,
            "{field:?} {value}"
        );
    }
}

#[test]
fn names_the_first_bad_field(rt: HostRuntime) -> Result<(), Fail> {
    let raw = RawParams {
        digit_bits: 0,
        err: 0,
        parties: 0,
        ..FRAME
    };
    let field = Field::DigitBits;
    assert_eq!(rt;
        Params::check(&raw).err(),
        Some(ParamFault::Bad { field, value: 0 })
    );
    let wanted = ParamFault::Bad {
        field: Field::Threshold,
        value: 2,
    };
    assert_eq!(rt; Params::check(&with(Field::Parties, 1)).err(), Some(wanted));
    let fault = ParamFault::Bad { field, value: 0 };
    assert_eq!(rt;
        fault.to_string(rt.alloc())?.as_str(),
        "DigitBits may not be 0"
    );
    Ok(())
}

/// A plaintext to which 3 and 5 were put.
fn three_and_five(alloc: Global) -> Result<Plain, AllocError> {
    let mut plain = Plain::new(alloc);
    plain.push(3)?;
    plain.push(5)?;
    Ok(plain)
}

/// Whether its readers tell so.
fn is_three_and_five(plain: &Plain) -> bool {
    plain.len() == 2
        && plain.get(1) == Some(5)
        && plain.get(2).is_none()
        && plain.coeffs() == [3, 5].as_slice()
}

#[test]
fn gives_lists_back(rt: HostRuntime) -> Result<(), Fail> {
    let alloc = rt.alloc();
    let numbers = Ids::from_vec(vec![in alloc; 4, 9]?);
    assert_eq!(rt; numbers.get(1), Some(9));
    assert_eq!(rt; numbers.into_vec().as_slice(), [4, 9].as_slice());
    let places = Slots::from_vec(vec![in alloc; (0, 3)]?);
    assert_eq!(rt; places.get(0), Some((0, 3)));
    assert_eq!(rt; places.into_vec().as_slice(), [(0, 3)].as_slice());
    let plain = three_and_five(alloc)?;
    assert_eq!(rt; plain.into_vec().as_slice(), [3, 5].as_slice());
    Ok(())
}

#[test]
fn keeps_plaintexts(rt: HostRuntime) -> Result<(), Fail> {
    assert!(rt; Plain::new(rt.alloc()).is_empty());
    assert!(rt; is_three_and_five(&three_and_five(rt.alloc())?));
    Ok(())
}

/// Two plaintexts, of two coefficients and of one.
fn two_plaintexts(alloc: Global) -> Result<Plains, AllocError>
    ensures { IfOk result (λ plains. length plains ≡ 2) }
{
    let mut plains = Plains::new(alloc);
    plains.push(three_and_five(alloc)?)?;
    plains.push(Plain::from_vec(vec![in alloc; 7]?))?;
    Ok(plains)
}

#[test]
fn keeps_lists_of_plaintexts(rt: HostRuntime) -> Result<(), Fail> {
    assert!(rt; Plains::new(rt.alloc()).is_empty());
    let plains = two_plaintexts(rt.alloc())?;
    assert_eq!(rt; plains.len(), 2);
    assert_eq!(rt; plains.at(1).coeffs(), [7].as_slice());
    assert!(rt; plains.get(2).is_none());
    assert!(rt; plains.get(0).is_some_and(|plain| is_three_and_five(plain)));
    let back = Plains::from_vec(plains.into_vec());
    assert_eq!(rt; back.as_slice().len(), 2);
    assert_eq!(rt; back.at(1).coeffs(), [7].as_slice());
    Ok(())
}
