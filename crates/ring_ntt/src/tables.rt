ghost use Rattle.std.specs.Prelude.{◌≡◌, ℕ, ◌+◌, ◌-◌, ◌*◌, ◌/◌, ◌%◌, ◌^◌, ◌<◌, ◌≤◌, List, length, get_or, IfOk, IfErr, IsTrue};
ghost use Rattle.std.specs.Int.{is_power_of_two};
ghost use Rattle.ring_spec.specs.Ring.{IsPoly, ring_sum, ring_product};
ghost use Rattle.ring_ntt.specs.Transform.{transform, inverse_transform, entrywise};
ghost use Rattle.ring_ntt.specs.Words.{quotient_of};

use crate::fault::NttFault;
use crate::twiddles::{Factor, Twiddles};
use crate::words::{lowered, power, quotient, reduced, scaled};
use crate::{backward, forward};
use std::alloc::Global;

/// What transforms of n coefficients modulo q need, made once: the powers of a root psi with
/// psi^n = -1, and of its inverse.
///
/// A polynomial is a slice of n residues below q, lowest degree first. To multiply two of them take
/// both `forward`, multiply one into the other, and take it back by `inverse`.
#[derive(Drop)]
pub struct Tables {
    pub modulus: u64,
    pub length: u64,
    pub root: u64,
    pub levels: u32,
    onward: Twiddles,
    back: Twiddles,
    /// the inverse of n
    scale: Factor,
    /// 2^64 and 1, for products of two words
    carry: Factor,
    unit: Factor,
    ghost odd: { modulus % 2 ≡ 1 },
    ghost at_least_three: { 3 ≤ modulus },
    ghost small: { modulus ≤ 2 ^ 62 },
    ghost some_level: { 1 ≤ levels },
    ghost few_levels: { levels ≤ 12 },
    ghost whole: { length ≡ 2 ^ levels },
    ghost is_root: { root ^ length % modulus ≡ modulus - 1 },
    ghost onward_is: { (onward.modulus ≡ modulus) × (onward.levels ≡ levels)
        × (onward.base ≡ root) },
    ghost back_is: { (back.modulus ≡ modulus) × (back.levels ≡ levels)
        × (root * back.base % modulus ≡ 1) },
    ghost scale_is: { (scale.root * 2 ^ levels % modulus ≡ 1)
        × (scale.quotient ≡ quotient_of modulus scale.root) },
    ghost carry_is: { (carry.root ≡ 2 ^ 64 % modulus)
        × (carry.quotient ≡ quotient_of modulus carry.root) },
    ghost unit_is: { (unit.root ≡ 1) × (unit.quotient ≡ quotient_of modulus 1) },
}

impl Tables {
    ghost use Rattle.ring_ntt.specs.Faults.{IsFaultOf};

    /// Tables for n coefficients modulo q, n from 2 to 4096; q need not be prime.
    pub fn new(alloc: Global, q: u64, n: u64, psi: u64) -> Result<Tables, NttFault>
        requires odd { q % 2 ≡ 1 }
        requires at_least_three { 3 ≤ q }
        requires small { q ≤ 2 ^ 62 }
        requires length { (2 ≤ n) × (n ≤ 4096) × IsTrue (is_power_of_two n) }
        requires residue { psi < q }
        ensures made { IfOk result (λ t. (t.modulus ≡ q) × (t.length ≡ n) × (t.root ≡ psi)) }
        ensures fault { IfErr result (IsFaultOf q n psi) }
    {
        let value = power(psi, n, q);
        if value != q - 1 {
            return Err(NttFault::NoRoot { value });
        }
        let levels = levels_of(n);
        let inverse = inverse_of(psi, n, q);
        let half = inverse_of_length(levels, q);
        Ok(Tables {
            modulus: q,
            length: n,
            root: psi,
            levels,
            onward: Twiddles::new(alloc, q, levels, psi)?,
            back: Twiddles::new(alloc, q, levels, inverse)?,
            scale: factor(half, q),
            carry: factor(power(2, 64, q), q),
            unit: factor(1, q),
        })
    }

    /// Takes a polynomial to its values at the odd powers of psi, in place.
    pub fn forward(&self, a: &mut [u64])
        requires { IsPoly self.now.modulus self.now.length a.old }
        ensures values { let t = self.now in a.new ≡ transform t.modulus t.root t.levels a.old }
        ensures polynomial { let t = self.now in
            inverse_transform t.modulus t.root t.levels a.new ≡ a.old }
        ensures residues { IsPoly self.now.modulus self.now.length a.new }
    {
        forward::whole(&self.onward, a);
    }

    /// Takes values back to the polynomial that has them, in place.
    pub fn inverse(&self, a: &mut [u64])
        requires { IsPoly self.now.modulus self.now.length a.old }
        ensures polynomial { let t = self.now in
            a.new ≡ inverse_transform t.modulus t.root t.levels a.old }
        ensures undoes { let t = self.now in
            (f : List ℕ) → IsPoly t.modulus t.length f →
            a.old ≡ transform t.modulus t.root t.levels f → a.new ≡ f }
        ensures undone { let t = self.now in transform t.modulus t.root t.levels a.new ≡ a.old }
        ensures residues { IsPoly self.now.modulus self.now.length a.new }
    {
        backward::whole(&self.back, a);
        scale_down(a, self.scale, self.modulus);
    }

    /// Adds entry by entry. On transforms that is the sum of the polynomials.
    pub fn add_into(&self, a: &mut [u64], b: &[u64])
        requires left { IsPoly self.now.modulus self.now.length a.old }
        requires right { IsPoly self.now.modulus self.now.length b.now }
        ensures values { a.new ≡ ring_sum self.now.modulus self.now.length a.old b.now }
        ensures residues { IsPoly self.now.modulus self.now.length a.new }
        ensures sum { let t = self.now in
            (f g : List ℕ) → a.old ≡ transform t.modulus t.root t.levels f →
            b.now ≡ transform t.modulus t.root t.levels g →
            a.new ≡ transform t.modulus t.root t.levels (ring_sum t.modulus t.length f g) }
        ensures polynomial { let t = self.now in
            inverse_transform t.modulus t.root t.levels a.new
            ≡ ring_sum t.modulus t.length (inverse_transform t.modulus t.root t.levels a.old)
            (inverse_transform t.modulus t.root t.levels b.now) }
    {
        'sums: for i in 0..a.len() {
            a[i] = lowered(a[i] + b[i], self.modulus);
        }
    }

    /// Multiplies entry by entry. On transforms that is the product of the polynomials.
    pub fn multiply_into(&self, a: &mut [u64], b: &[u64])
        requires left { IsPoly self.now.modulus self.now.length a.old }
        requires right { IsPoly self.now.modulus self.now.length b.now }
        ensures values { a.new ≡ entrywise self.now.modulus self.now.length a.old b.now }
        ensures residues { IsPoly self.now.modulus self.now.length a.new }
        ensures product { let t = self.now in
            (f g : List ℕ) → IsPoly t.modulus t.length f → IsPoly t.modulus t.length g →
            a.old ≡ transform t.modulus t.root t.levels f →
            b.now ≡ transform t.modulus t.root t.levels g →
            IsPoly t.modulus t.length (ring_product t.modulus t.length f g)
            × (a.new ≡ transform t.modulus t.root t.levels (ring_product t.modulus t.length f g)) }
        ensures polynomial { let t = self.now in
            inverse_transform t.modulus t.root t.levels a.new
            ≡ ring_product t.modulus t.length (inverse_transform t.modulus t.root t.levels a.old)
            (inverse_transform t.modulus t.root t.levels b.now) }
    {
        'entries: for i in 0..a.len() {
            a[i] = word_product(a[i], b[i], self.carry, self.unit, self.modulus);
        }
    }
}

fn levels_of(n: u64) -> u32
    requires { (2 ≤ n) × (n ≤ 4096) × IsTrue (is_power_of_two n) }
    ensures whole { n ≡ 2 ^ result }
    ensures some { 1 ≤ result }
    ensures few { result ≤ 12 }
{
    n.trailing_zeros()
}

/// The inverse of a root with root^n = -1: it is -root^(n-1).
fn inverse_of(root: u64, n: u64, q: u64) -> u64
    requires above_one { 1 < q }
    requires some { 0 < n }
    requires is_root { root ^ n % q ≡ q - 1 }
    ensures residue { result < q }
    ensures inverse { root * result % q ≡ 1 }
{
    q - power(root, n - 1, q)
}

/// The inverse of 2^levels modulo an odd q: that of 2 is (q+1)/2.
fn inverse_of_length(levels: u32, q: u64) -> u64
    requires odd { q % 2 ≡ 1 }
    requires above_one { 1 < q }
    requires small { q ≤ 2 ^ 62 }
    ensures residue { result < q }
    ensures inverse { result * 2 ^ levels % q ≡ 1 }
{
    power(q / 2 + 1, u64::from(levels), q)
}

fn factor(root: u64, q: u64) -> Factor
    requires { root < q }
    ensures root { result.root ≡ root }
    ensures precomputed { result.quotient ≡ quotient_of q root }
{
    Factor {
        root,
        quotient: quotient(root, q),
    }
}

/// Each entry below 2q times the factor, modulo q.
fn scale_down(a: &mut [u64], scale: Factor, q: u64)
    requires positive { 0 < q }
    requires small { q ≤ 2 ^ 62 }
    requires precomputed { scale.quotient ≡ quotient_of q scale.root }
    ensures length { length a.new ≡ length a.old }
    ensures scaled { (k : ℕ) → k < length a.old →
        get_or a.new k 0 ≡ scale.root * get_or a.old k 0 % q }
{
    for x in a.iter_mut() {
        *x = lowered(scaled(*x, scale.root, scale.quotient, q), q);
    }
}

/// x * y modulo q with no division: with x * y = h * 2^64 + l it is h times 2^64, and l.
#[inline]
fn word_product(x: u64, y: u64, carry: Factor, unit: Factor, q: u64) -> u64
    requires positive { 0 < q }
    requires small { q ≤ 2 ^ 62 }
    requires carry { (carry.root ≡ 2 ^ 64 % q) × (carry.quotient ≡ quotient_of q carry.root) }
    requires unit { (unit.root ≡ 1) × (unit.quotient ≡ quotient_of q 1) }
    ensures { result ≡ x * y % q }
{
    let whole = x as u128 * y as u128;
    let high = (whole >> 64) as u64;
    let low = (whole % 18446744073709551616) as u64;
    let sum = scaled(high, carry.root, carry.quotient, q)
        + scaled(low, unit.root, unit.quotient, q);
    reduced(sum, q)
}
