ghost use Rattle.std.specs.Prelude.{◌≡◌, ◌<◌, length};
ghost use Rattle.mod_ring.specs.Fits.{Fits};
ghost use Rattle.gadget_spec.specs.Digits.{digit_poly};
ghost use Rattle.param_set.specs.Moduli.{digit_rows};
ghost use Rattle.gadget_keys.specs.Gadgets.{gadget_of};

use crate::digit_row::DigitRow;
use mod_ring::{Poly, Ring};

/// Makes `out` the polynomial of digit `row` of each coefficient of f: of its digit in base 2^b, or of the
/// balanced digit of its centre where the parameters say so, as residues modulo q.
pub fn digit_into(ring: &Ring, f: &Poly, row: u32, out: &mut Poly)
    requires row { row < digit_rows ring.now.params.q ring.now.params.digit_bits }
    requires poly { Fits ring.now f.now }
    requires places { length out.old ≡ ring.now.params.n }
    ensures value { out.new ≡
        digit_poly ring.now.params.q ring.now.params.n (gadget_of ring.now.params) f.now row }
    ensures fits { Fits ring.now out.new }
{
    let digit = DigitRow::new(ring.params(), row);
    let coeffs = f.coeffs();
    for k in 0..coeffs.len() {
        out.set(k as u32, digit.of(coeffs[k]));
    }
}
