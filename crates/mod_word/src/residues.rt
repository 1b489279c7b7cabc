ghost use Rattle.std.specs.Prelude.{◌≡◌, ◌+◌, ◌*◌, ◌%◌, ◌^◌, ◌<◌, ◌≤◌};

use crate::multiples::Factor;
use crate::words::{halved, lowered};

/// A number q from 1 to 2^62, modulo which words are reduced.
#[derive(Clone, Copy)]
pub struct Modulus {
    q: u64,
    /// 1 modulo q
    unit: Factor,
    /// 2^64 modulo q
    carry: Factor,
    pub ghost positive: { 1 ≤ q },
    pub ghost few_bits: { q ≤ 2 ^ 62 },
    pub ghost unit_is: { (unit.modulus ≡ q) × (unit.residue ≡ 1 % q) },
    pub ghost carry_is: { (carry.modulus ≡ q) × (carry.residue ≡ 2 ^ 64 % q) },
}

impl Modulus {
    /// The modulus q, by divisions.
    pub fn new(q: u64) -> Modulus
        requires positive { 1 ≤ q }
        requires few_bits { q ≤ 2 ^ 62 }
        ensures { result.q ≡ q }
    {
        Modulus {
            q,
            unit: Factor::new(q, 1 % q),
            carry: Factor::new(q, (18_446_744_073_709_551_616 % q as u128) as u64),
        }
    }

    /// q itself.
    pub fn q(&self) -> u64
        ensures { result ≡ self.now.q }
    {
        self.q
    }

    /// x modulo q, without a division.
    #[inline]
    pub fn word(&self, x: u64) -> u64
        ensures { result ≡ x % self.now.q }
    {
        self.unit.times(x)
    }

    /// low + 2^64 * high modulo q, without a division.
    #[inline]
    pub fn wide(&self, low: u64, high: u64) -> u64
        ensures { result ≡ (low + 2 ^ 64 * high) % self.now.q }
    {
        let sum = self.unit.near(low) + self.carry.near(high);
        lowered(self.q, halved(self.q, sum))
    }
}
