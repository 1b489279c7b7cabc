//! The digits of coefficients, worked out by hand.

ghost use Rattle.std.specs.Prelude.{◌≡◌};

use crate::rings::{Q, params_of};
use gadget_keys::digit_into;
use mod_ring::{Ring, of_signed, zero};
use param_set::Params;
use std::alloc::{AllocError, Global};
use std::test::Fail;

/// The digits of the coefficient 3 of x * X^3.
fn digits_of(alloc: Global, params: &Params, x: i64) -> Result<Vec<u64>, AllocError>
    requires { params.now.n ≡ 8 }
{
    let ring = Ring::new(alloc, params)?;
    let f = of_signed(alloc, &ring, &[0, 0, 0, x, 0, 0, 0, 0])?;
    let mut out = zero(alloc, &ring)?;
    let mut digits = Vec::new(alloc);
    'rows: for row in 0..params.rows() {
        digit_into(&ring, &f, row as u32, &mut out);
        digits.push(out.coeffs()[3])?;
    }
    Ok(digits)
}

#[test]
fn cuts_digits_of_eight_bits(rt: HostRuntime) -> Result<(), Fail> {
    for (balanced, x, wanted) in [
        (false, 0, [0, 0, 0, 0, 0, 0, 0]),
        (false, 300, [44, 1, 0, 0, 0, 0, 0]),
        (false, -1, [0, 0, 0, 0, 0, 0, 112]),
        (true, 0, [0, 0, 0, 0, 0, 0, 0]),
        (true, -1, [Q - 1, 0, 0, 0, 0, 0, 0]),
        (true, 300, [44, 1, 0, 0, 0, 0, 0]),
        (true, 127, [127, 0, 0, 0, 0, 0, 0]),
        // 128 is past the greatest digit
        (true, 128, [Q - 128, 1, 0, 0, 0, 0, 0]),
        (true, -128, [Q - 128, 0, 0, 0, 0, 0, 0]),
        (true, -129, [127, Q - 1, 0, 0, 0, 0, 0]),
        // 127 * 256 + 128, where the carry makes another
        (true, 32_640, [Q - 128, Q - 128, 1, 0, 0, 0, 0]),
        // the greatest centre and the least, 56 * 2^48 in absolute value
        (true, 15_762_598_695_796_736, [0, 0, 0, 0, 0, 0, 56]),
        (true, 15_762_598_695_796_737, [0, 0, 0, 0, 0, 0, Q - 56]),
    ] {
        let digits = digits_of(rt.alloc(), &params_of(8, balanced)?, x)?;
        assert_eq!(rt; digits.as_slice(), wanted.as_slice(), "{x}");
    }
    Ok(())
}

#[test]
fn cuts_digits_of_other_sizes(rt: HostRuntime) -> Result<(), Fail> {
    // the last digit of 13 bits ends at place 65
    let digits = digits_of(rt.alloc(), &params_of(13, true)?, 4_096)?;
    assert_eq!(rt; digits.as_slice(), [Q - 4_096, 1, 0, 0, 0].as_slice());
    let digits = digits_of(rt.alloc(), &params_of(13, false)?, 8_193)?;
    assert_eq!(rt; digits.as_slice(), [1, 1, 0, 0, 0].as_slice());
    let digits = digits_of(rt.alloc(), &params_of(16, true)?, -32_769)?;
    assert_eq!(rt; digits.as_slice(), [32_767, Q - 1, 0, 0].as_slice());
    Ok(())
}
