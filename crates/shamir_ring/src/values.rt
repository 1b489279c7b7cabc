ghost use Rattle.std.specs.Prelude.{◌≡◌, ℕ, ◌+◌, ◌*◌, ◌%◌, ◌^◌, ◌<◌, ◌≤◌, [], length, get_or, All};
ghost use Rattle.mod_ring.specs.Fits.{Fits};
ghost use Rattle.ring_spec.specs.Ring.{IsPoly, ring_sum, ring_multiple};

use mod_ring::{Poly, Ring, add_into};
use mod_word::Modulus;

/// x * point + y modulo q, without a division. A point is at most 32, so that the sum fits a word.
#[inline]
fn step(modulus: &Modulus, x: u64, point: u64, y: u64) -> u64
    requires few_bits { modulus.now.q < 2 ^ 55 }
    requires left { x < modulus.now.q }
    requires right { y < modulus.now.q }
    requires small { point ≤ 32 }
    ensures { result ≡ (x * point + y) % modulus.now.q }
{
    modulus.word(x * point + y)
}

/// Makes each entry its product with the point, and adds that of f: one step of Horner's rule.
pub(crate) fn horner(modulus: &Modulus, value: &mut [u64], point: u64, f: &[u64])
    requires few_bits { modulus.now.q < 2 ^ 55 }
    requires left { IsPoly modulus.now.q (length value.old) value.old }
    requires right { IsPoly modulus.now.q (length value.old) f.now }
    requires small { point ≤ 32 }
    ensures { value.new ≡ ring_sum modulus.now.q (length value.old) f.now (ring_multiple modulus.now.q (length value.old) point value.old) }
{
    for i in 0..value.len() {
        value[i] = step(modulus, value[i], point, f[i]);
    }
}

/// Adds each polynomial of a list to that at the same place of another.
pub(crate) fn add_each(ring: &Ring, sums: &mut [Poly], others: &[Poly])
    requires number { length others.now ≡ length sums.old }
    requires left { All (Fits ring.now) sums.old }
    requires right { All (Fits ring.now) others.now }
    ensures number { length sums.new ≡ length sums.old }
    ensures each { (k : ℕ) → k < length sums.old → get_or sums.new k []
        ≡ ring_sum ring.now.params.q ring.now.params.n (get_or sums.old k []) (get_or others.now k []) }
{
    for k in 0..sums.len() {
        add_into(ring, &mut sums[k], &others[k]);
    }
}
