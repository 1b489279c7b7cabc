//! The way forward: values from coefficients, level by level, with entries kept below 4q.

ghost use Rattle.std.specs.Prelude.{◌≡◌, ℕ, ◌+◌, ◌-◌, ◌*◌, ◌/◌, ◌%◌, ◌^◌, ◌<◌, ◌≤◌, length, get_or};
ghost use Rattle.ring_ntt.specs.Words.{quotient_of};
ghost use Rattle.ring_ntt.specs.Transform.{entry};
ghost use Rattle.ring_ntt.specs.Nodes.{powers, node};

use crate::twiddles::{Factor, Twiddles};
use crate::words::{halved, reduced, scaled};

/// x + w*y and x - w*y modulo q, both below 4q.
#[inline]
fn butterfly(x: u64, y: u64, w: Factor, q: u64) -> (u64, u64)
    requires positive { 0 < q }
    requires small { q ≤ 2 ^ 62 }
    requires within { x < 4 * q }
    requires residue { w.root < q }
    requires precomputed { w.quotient ≡ quotient_of q w.root }
    ensures sum_below { result.0 < 4 * q }
    ensures difference_below { result.1 < 4 * q }
    ensures sum { result.0 % q ≡ (x + w.root * y) % q }
    ensures difference { result.1 % q ≡ (x + (q - w.root) * y) % q }
{
    let even = halved(x, q);
    let odd = scaled(y, w.root, w.quotient, q);
    (even + odd, even + 2 * q - odd)
}

/// A butterfly for each pair of entries of the two halves.
fn butterflies(low: &mut [u64], high: &mut [u64], w: Factor, q: u64)
    requires positive { 0 < q }
    requires small { q ≤ 2 ^ 62 }
    requires halves { length high.old ≡ length low.old }
    requires low_within { (k : ℕ) → k < length low.old → get_or low.old k 0 < 4 * q }
    requires residue { w.root < q }
    requires precomputed { w.quotient ≡ quotient_of q w.root }
    ensures low_length { length low.new ≡ length low.old }
    ensures high_length { length high.new ≡ length high.old }
    ensures low_below { (k : ℕ) → k < length low.old → get_or low.new k 0 < 4 * q }
    ensures high_below { (k : ℕ) → k < length low.old → get_or high.new k 0 < 4 * q }
    ensures sums { (k : ℕ) → k < length low.old →
        get_or low.new k 0 % q ≡ (get_or low.old k 0 + w.root * get_or high.old k 0) % q }
    ensures differences { (k : ℕ) → k < length low.old →
        get_or high.new k 0 % q ≡ (get_or low.old k 0 + (q - w.root) * get_or high.old k 0) % q }
{
    'pairs: for i in 0..low.len() {
        let (sum, difference) = butterfly(low[i], high[i], w, q);
        low[i] = sum;
        high[i] = difference;
    }
}

/// The last level alone, for two coefficients.
fn two(table: &Twiddles, a: &mut [u64], k: usize)
    requires count { length a.old ≡ 2 }
    requires place { k < 2 ^ table.now.levels }
    requires within { (i : ℕ) → i < 2 → get_or a.old i 0 < 4 * table.now.modulus }
    ensures { let t = table.now in
        a.new ≡ node t.modulus (powers t.modulus t.levels t.base) 1 k (entry a.old) }
{
    let q = table.modulus;
    let (x, y) = butterfly(a[0], a[1], table.factor(k), q);
    a[0] = reduced(x, q);
    a[1] = reduced(y, q);
}

/// The last two levels, on four coefficients in registers.
#[inline]
fn four(table: &Twiddles, a: &mut [u64], k: usize)
    requires count { length a.old ≡ 4 }
    requires place { 2 * k + 1 < 2 ^ table.now.levels }
    requires within { (i : ℕ) → i < 4 → get_or a.old i 0 < 4 * table.now.modulus }
    ensures { let t = table.now in
        a.new ≡ node t.modulus (powers t.modulus t.levels t.base) 2 k (entry a.old) }
{
    let q = table.modulus;
    let upper = table.factor(k);
    let (x0, x2) = butterfly(a[0], a[2], upper, q);
    let (x1, x3) = butterfly(a[1], a[3], upper, q);
    let (y0, y1) = butterfly(x0, x1, table.factor(2 * k), q);
    let (y2, y3) = butterfly(x2, x3, table.factor(2 * k + 1), q);
    a[0] = reduced(y0, q);
    a[1] = reduced(y1, q);
    a[2] = reduced(y2, q);
    a[3] = reduced(y3, q);
}

/// The values below node k of a remainder with 2^depth coefficients, each below 4q.
fn block(table: &Twiddles, a: &mut [u64], k: usize, depth: u32)
    requires deep { 2 ≤ depth }
    requires count { length a.old ≡ 2 ^ depth }
    requires place { (k + 1) * 2 ^ depth ≤ 2 * 2 ^ table.now.levels }
    requires within { (i : ℕ) → i < 2 ^ depth → get_or a.old i 0 < 4 * table.now.modulus }
    ensures { let t = table.now in
        a.new ≡ node t.modulus (powers t.modulus t.levels t.base) depth k (entry a.old) }
{
    if depth == 2 {
        four(table, a, k);
        return;
    }
    let (low, high) = a.split_at_mut(a.len() / 2);
    butterflies(low, high, table.factor(k), table.modulus);
    block(table, low, 2 * k, depth - 1);
    block(table, high, 2 * k + 1, depth - 1);
}

/// The values of a polynomial with 2^levels coefficients, each below 4q, in place.
pub(crate) fn whole(table: &Twiddles, a: &mut [u64])
    requires some_level { 1 ≤ table.now.levels }
    requires count { length a.old ≡ 2 ^ table.now.levels }
    requires within { let t = table.now in
        (i : ℕ) → i < 2 ^ t.levels → get_or a.old i 0 < 4 * t.modulus }
    ensures { let t = table.now in
        a.new ≡ node t.modulus (powers t.modulus t.levels t.base) t.levels 1 (entry a.old) }
{
    if table.levels == 1 {
        two(table, a, 1);
    } else {
        block(table, a, 1, table.levels);
    }
}
