ghost use Rattle.std.specs.Prelude.{◌≡◌, ◌+◌, ◌*◌, ◌/◌, ◌%◌, ◌^◌, ◌<◌, ◌≤◌};
ghost use Rattle.mod_word.specs.Quotients.{quotient_of};

use crate::words::lowered;

/// A residue w modulo q by which words are multiplied, with the quotient w * 2^64 / q.
#[derive(Clone, Copy)]
pub struct Factor {
    modulus: u64,
    residue: u64,
    quotient: u64,
    pub ghost few_bits: { modulus ≤ 2 ^ 62 },
    pub ghost reduced: { residue < modulus },
    pub ghost precomputed: { quotient ≡ quotient_of modulus residue },
}

impl Factor {
    /// The factor w modulo q, by a division.
    pub fn new(q: u64, w: u64) -> Factor
        requires few_bits { q ≤ 2 ^ 62 }
        requires reduced { w < q }
        ensures modulus { result.modulus ≡ q }
        ensures residue { result.residue ≡ w }
    {
        Factor {
            modulus: q,
            residue: w,
            quotient: quotient(q, w),
        }
    }

    /// w * x modulo q, without a division.
    #[inline]
    pub fn times(&self, x: u64) -> u64
        ensures { result ≡ self.now.residue * x % self.now.modulus }
    {
        lowered(self.modulus, self.near(x))
    }

    /// w * x / q, rounded down, and w * x modulo q, without a division.
    #[inline]
    pub fn divided(&self, x: u64) -> (u64, u64)
        ensures quotient { result.0 ≡ self.now.residue * x / self.now.modulus }
        ensures rest { result.1 ≡ self.now.residue * x % self.now.modulus }
    {
        let (times, rest) = self.parted(x);
        if rest < self.modulus {
            (times, rest)
        } else {
            (times + 1, rest - self.modulus)
        }
    }

    /// A number below 2q that is w * x modulo q.
    #[inline]
    pub(crate) fn near(&self, x: u64) -> u64
        ensures below { result < 2 * self.now.modulus }
        ensures same { result % self.now.modulus ≡ self.now.residue * x % self.now.modulus }
    {
        self.parted(x).1
    }

    /// A multiple of q and a rest below 2q whose sum is w * x: Shoup's product.
    #[inline]
    fn parted(&self, x: u64) -> (u64, u64)
        ensures below { result.1 < 2 * self.now.modulus }
        ensures whole { result.0 * self.now.modulus + result.1 ≡ self.now.residue * x }
    {
        let times = (self.quotient as u128 * x as u128) >> 64;
        let rest = self.residue as u128 * x as u128 - times * self.modulus as u128;
        (times as u64, rest as u64)
    }
}

/// w * 2^64 / q, rounded down.
fn quotient(q: u64, w: u64) -> u64
    requires { w < q }
    ensures { result ≡ quotient_of q w }
{
    (w as u128 * 18_446_744_073_709_551_616 / q as u128) as u64
}
