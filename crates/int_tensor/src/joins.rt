ghost use Rattle.std.specs.Prelude.{◌≡◌, ◌%◌, ◌<◌, All, length, IfOk};
ghost use Rattle.ring_spec.specs.Ring.{centre};
ghost use Rattle.int_tensor.specs.Moduli.{first_modulus, second_modulus, first_inverse, both_moduli};
ghost use Rattle.int_tensor.specs.Joined.{IsJoined, AreJoined};

use mod_word::Factor;
use std::alloc::{AllocError, Global};

/// The primes of `mod_ring::whole_tables`.
const FIRST: u64 = 4_611_686_018_427_322_369;

const SECOND: u64 = 4_611_686_018_427_289_601;

/// Their product.
const BOTH: u128 = 21_267_647_932_557_898_397_047_025_864_548_384_769;

/// The inverse of the first modulo the second.
const INVERSE: u64 = 4_611_545_280_938_934_276;

/// The least whole number with the residues a and b, from 0 on: a + FIRST * k, where k is (b - a) / FIRST modulo
/// SECOND.
#[inline]
fn least(inverse: &Factor, a: u64, b: u64) -> u128
    requires factor { (inverse.now.modulus ≡ second_modulus) × (inverse.now.residue ≡ first_inverse) }
    requires first { a < first_modulus }
    requires second { b < second_modulus }
    ensures below { result < both_moduli }
    ensures first { result % first_modulus ≡ a }
    ensures second { result % second_modulus ≡ b }
{
    let start = if a < SECOND { a } else { a - SECOND };
    let way = if start <= b {
        b - start
    } else {
        b + SECOND - start
    };
    let turns = inverse.times(way);
    a as u128 + FIRST as u128 * turns as u128
}

/// The same modulo the product of the primes, around 0.
#[inline]
#[tactic(auto, unfolding(ring_spec::specs::Ring::centre))]
fn around_zero(x: u128) -> i128
    requires { x < both_moduli }
    ensures { result ≡ centre both_moduli x }
{
    if 2 * x < BOTH {
        x as i128
    } else {
        x as i128 - BOTH as i128
    }
}

/// The whole number with the residues a and b that is least in absolute value: Garner's rule.
#[inline]
fn join(inverse: &Factor, a: u64, b: u64) -> i128
    requires factor { (inverse.now.modulus ≡ second_modulus) × (inverse.now.residue ≡ first_inverse) }
    requires first { a < first_modulus }
    requires second { b < second_modulus }
    ensures { IsJoined a b result }
{
    around_zero(least(inverse, a, b))
}

/// The same for each entry of two lists.
pub(crate) fn join_all(alloc: Global, f: &[u64], g: &[u64]) -> Result<Vec<i128>, AllocError>
    requires lengths { length f.now ≡ length g.now }
    requires first { All (λ x. x < first_modulus) f.now }
    requires second { All (λ x. x < second_modulus) g.now }
    ensures { IfOk result (λ v. AreJoined (length f.now) f.now g.now v.items) }
{
    let inverse = Factor::new(SECOND, INVERSE);
    let mut joined = Vec::with_capacity(alloc, f.len())?;
    for k in 0..f.len() {
        joined.push(join(&inverse, f[k], g[k]))?;
    }
    Ok(joined)
}
