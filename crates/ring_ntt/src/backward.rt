//! The way back: coefficients from values, level by level, with entries kept below 2q.

ghost use Rattle.std.specs.Prelude.{◌≡◌, ℕ, ◌+◌, ◌-◌, ◌*◌, ◌/◌, ◌%◌, ◌^◌, ◌<◌, ◌≤◌, length, get_or};
ghost use Rattle.ring_ntt.specs.Words.{quotient_of};
ghost use Rattle.ring_ntt.specs.Nodes.{powers, undone};

use crate::twiddles::{Factor, Twiddles};
use crate::words::{halved, scaled};

/// x + y and w * (x - y) modulo q, both below 2q.
#[inline]
fn reunion(x: u64, y: u64, w: Factor, q: u64) -> (u64, u64)
    requires positive { 0 < q }
    requires small { q ≤ 2 ^ 62 }
    requires left_within { x < 2 * q }
    requires right_within { y < 2 * q }
    requires precomputed { w.quotient ≡ quotient_of q w.root }
    ensures sum_below { result.0 < 2 * q }
    ensures difference_below { result.1 < 2 * q }
    ensures sum { result.0 % q ≡ (x + y) % q }
    ensures difference { result.1 % q ≡ (w.root * (x + (q - 1) * y)) % q }
{
    let sum = halved(x + y, q);
    let difference = scaled(x + 2 * q - y, w.root, w.quotient, q);
    (sum, difference)
}

/// A reunion for each pair of entries of the two halves.
fn reunions(low: &mut [u64], high: &mut [u64], w: Factor, q: u64)
    requires positive { 0 < q }
    requires small { q ≤ 2 ^ 62 }
    requires halves { length high.old ≡ length low.old }
    requires low_within { (k : ℕ) → k < length low.old → get_or low.old k 0 < 2 * q }
    requires high_within { (k : ℕ) → k < length low.old → get_or high.old k 0 < 2 * q }
    requires precomputed { w.quotient ≡ quotient_of q w.root }
    ensures low_length { length low.new ≡ length low.old }
    ensures high_length { length high.new ≡ length high.old }
    ensures low_below { (k : ℕ) → k < length low.old → get_or low.new k 0 < 2 * q }
    ensures high_below { (k : ℕ) → k < length low.old → get_or high.new k 0 < 2 * q }
    ensures sums { (k : ℕ) → k < length low.old →
        get_or low.new k 0 % q ≡ (get_or low.old k 0 + get_or high.old k 0) % q }
    ensures differences { (k : ℕ) → k < length low.old →
        get_or high.new k 0 % q
        ≡ (w.root * (get_or low.old k 0 + (q - 1) * get_or high.old k 0)) % q }
{
    'pairs: for i in 0..low.len() {
        let (sum, difference) = reunion(low[i], high[i], w, q);
        low[i] = sum;
        high[i] = difference;
    }
}

/// Twice the remainder of two values.
fn two(table: &Twiddles, a: &mut [u64], k: usize)
    requires count { length a.old ≡ 2 }
    requires place { k < 2 ^ table.now.levels }
    requires within { (i : ℕ) → i < 2 → get_or a.old i 0 < 2 * table.now.modulus }
    ensures length { length a.new ≡ 2 }
    ensures below { (i : ℕ) → i < 2 → get_or a.new i 0 < 2 * table.now.modulus }
    ensures same { let t = table.now in
        (i : ℕ) → i < 2 → get_or a.new i 0 % t.modulus
        ≡ undone t.modulus (powers t.modulus t.levels t.base) 1 k a.old i % t.modulus }
{
    let (x, y) = reunion(a[0], a[1], table.factor(k), table.modulus);
    a[0] = x;
    a[1] = y;
}

/// Four times the remainder of four values, in registers.
#[inline]
fn four(table: &Twiddles, a: &mut [u64], k: usize)
    requires count { length a.old ≡ 4 }
    requires place { 2 * k + 1 < 2 ^ table.now.levels }
    requires within { (i : ℕ) → i < 4 → get_or a.old i 0 < 2 * table.now.modulus }
    ensures length { length a.new ≡ 4 }
    ensures below { (i : ℕ) → i < 4 → get_or a.new i 0 < 2 * table.now.modulus }
    ensures same { let t = table.now in
        (i : ℕ) → i < 4 → get_or a.new i 0 % t.modulus
        ≡ undone t.modulus (powers t.modulus t.levels t.base) 2 k a.old i % t.modulus }
{
    let q = table.modulus;
    let (x0, x1) = reunion(a[0], a[1], table.factor(2 * k), q);
    let (x2, x3) = reunion(a[2], a[3], table.factor(2 * k + 1), q);
    let upper = table.factor(k);
    let (y0, y2) = reunion(x0, x2, upper, q);
    let (y1, y3) = reunion(x1, x3, upper, q);
    a[0] = y0;
    a[1] = y1;
    a[2] = y2;
    a[3] = y3;
}

/// 2^depth times the remainder at node k, from its 2^depth values, each below 2q.
fn block(table: &Twiddles, a: &mut [u64], k: usize, depth: u32)
    requires deep { 2 ≤ depth }
    requires count { length a.old ≡ 2 ^ depth }
    requires place { (k + 1) * 2 ^ depth ≤ 2 * 2 ^ table.now.levels }
    requires within { (i : ℕ) → i < 2 ^ depth → get_or a.old i 0 < 2 * table.now.modulus }
    ensures length { length a.new ≡ 2 ^ depth }
    ensures below { (i : ℕ) → i < 2 ^ depth → get_or a.new i 0 < 2 * table.now.modulus }
    ensures same { let t = table.now in
        (i : ℕ) → i < 2 ^ depth → get_or a.new i 0 % t.modulus
        ≡ undone t.modulus (powers t.modulus t.levels t.base) depth k a.old i % t.modulus }
{
    if depth == 2 {
        four(table, a, k);
        return;
    }
    let (low, high) = a.split_at_mut(a.len() / 2);
    block(table, low, 2 * k, depth - 1);
    block(table, high, 2 * k + 1, depth - 1);
    reunions(low, high, table.factor(k), table.modulus);
}

/// 2^levels times the polynomial that has 2^levels values, each below 2q, in place.
pub(crate) fn whole(table: &Twiddles, a: &mut [u64])
    requires some_level { 1 ≤ table.now.levels }
    requires count { length a.old ≡ 2 ^ table.now.levels }
    requires within { let t = table.now in
        (i : ℕ) → i < 2 ^ t.levels → get_or a.old i 0 < 2 * t.modulus }
    ensures length { length a.new ≡ 2 ^ table.now.levels }
    ensures below { (i : ℕ) → i < 2 ^ table.now.levels → get_or a.new i 0 < 2 * table.now.modulus }
    ensures same { let t = table.now in
        (i : ℕ) → i < 2 ^ t.levels → get_or a.new i 0 % t.modulus
        ≡ undone t.modulus (powers t.modulus t.levels t.base) t.levels 1 a.old i % t.modulus }
{
    if table.levels == 1 {
        two(table, a, 1);
    } else {
        block(table, a, 1, table.levels);
    }
}
