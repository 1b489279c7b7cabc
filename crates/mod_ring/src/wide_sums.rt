//! Sums of products in words of 128 bits, reduced once at the end.

ghost use Rattle.std.specs.Prelude.{◌≡◌, ℕ, ◌+◌, ◌*◌, ◌%◌, ◌/◌, ◌^◌, ◌<◌, ◌≤◌, length, All, IfOk};
ghost use Rattle.mod_ring.specs.WideSums.{remainders, raised_sums, AreWithin};

use mod_word::Modulus;
use std::alloc::{AllocError, Global};

/// x * y.
fn product_of(x: u64, y: u64) -> u128
    requires left { x < 2 ^ 55 }
    requires right { y < 2 ^ 55 }
    ensures value { result ≡ x * y }
    ensures small { result ≤ 2 ^ 110 }
{
    x as u128 * y as u128
}

/// sum + x * y.
fn sum_with(sum: u128, x: u64, y: u64) -> u128
    requires sum { sum ≤ 2 ^ 126 }
    requires left { x < 2 ^ 55 }
    requires right { y < 2 ^ 55 }
    ensures value { result ≡ sum + x * y }
    ensures small { result ≤ sum + 2 ^ 110 }
{
    sum + product_of(x, y)
}

/// Adds the products of f and g to sums that have `_terms` products, entry by entry.
pub(crate) fn add_products(_terms: u32, sums: &mut [u128], f: &[u64], g: &[u64])
    requires room { _terms < 65536 }
    requires sums { AreWithin _terms sums.old }
    requires left { (length f.now ≡ length sums.old) × All (λ x. x < 2 ^ 55) f.now }
    requires right { (length g.now ≡ length sums.old) × All (λ x. x < 2 ^ 55) g.now }
    ensures value { sums.new ≡ raised_sums sums.old f.now g.now }
    ensures within { AreWithin (_terms + 1) sums.new }
{
    for i in 0..sums.len() {
        sums[i] = sum_with(sums[i], f[i], g[i]);
    }
}

/// A number of two words modulo q, without a division.
fn remainder(modulus: &Modulus, x: u128) -> u64
    ensures { result ≡ x % modulus.now.q }
{
    modulus.wide((x % 18_446_744_073_709_551_616) as u64, (x >> 64) as u64)
}

/// The remainder of each entry.
#[tactic(auto, unfolding(crate::specs::WideSums::remainders))]
pub(crate) fn reduced(alloc: Global, q: u64, sums: &[u128]) -> Result<Vec<u64>, AllocError>
    requires positive { 1 ≤ q }
    requires few_bits { q ≤ 2 ^ 62 }
    ensures { IfOk result (λ v. v.items ≡ remainders q sums.now) }
{
    let modulus = Modulus::new(q);
    sums.iter().map(|x| remainder(&modulus, *x)).collect(alloc)
}
