ghost use Rattle.std.specs.Prelude.{◌≡◌, ℕ, ◌+◌, ◌*◌, ◌/◌, ◌^◌, ◌<◌, ◌≤◌, All, length, IfOk};
ghost use Rattle.mod_ring.specs.Fits.{Fits};
ghost use Rattle.ring_spec.specs.Ring.{IsPoly};
ghost use Rattle.bfv_spec.specs.Scheme.{decryption, rounded};

use mod_ring::{Poly, Ring};
use mod_word::Factor;
use param_set::Plain;
use std::alloc::{AllocError, Global};

/// t * x / q to the nearest whole number, for the factor t modulo q, without a division.
fn nearest_of(factor: &Factor, q: u64, t: u64, x: u64) -> u64
    requires modulus { factor.now.modulus ≡ q }
    requires multiple { factor.now.residue ≡ t }
    requires plain_modulus { 0 < t }
    requires residue { x < q }
    ensures nearest { result ≡ (2 * t * x + q) / (2 * q) }
    ensures at_most_t { result ≤ t }
{
    let (quotient, rest) = factor.divided(x);
    if 2 * rest < q { quotient } else { quotient + 1 }
}

/// t * x / q to the nearest whole number, modulo t.
fn rounded_of(factor: &Factor, q: u64, t: u64, x: u64) -> u64
    requires modulus { factor.now.modulus ≡ q }
    requires multiple { factor.now.residue ≡ t }
    requires plain_modulus { 0 < t }
    requires residue { x < q }
    ensures { result ≡ rounded q t x }
{
    let nearest = nearest_of(factor, q, t, x);
    if nearest == t { 0 } else { nearest }
}

/// The plaintext of a phase: each coefficient x gives t * x / q to the nearest whole number, modulo t.
#[tactic(auto, using(crate::proofs::Opened::opened_fits))]
pub fn round_phase(alloc: Global, ring: &Ring, phase: &Poly) -> Result<Plain, AllocError>
    requires { Fits ring.now phase.now }
    ensures value { IfOk result (λ m. m ≡ decryption ring.now.params.q ring.now.params.t phase.now) }
    ensures fits { IfOk result (λ m. IsPoly ring.now.params.t ring.now.params.n m) }
{
    let q = ring.params().q();
    let t = ring.params().t();
    let coeffs = rounded_all(alloc, q, t, phase.coeffs())?;
    Ok(Plain::from_vec(coeffs))
}

/// Each entry rounded.
#[tactic(auto, unfolding(bfv_spec::specs::Scheme::decryption))]
fn rounded_all(alloc: Global, q: u64, t: u64, entries: &[u64]) -> Result<Vec<u64>, AllocError>
    requires modulus_high { q < 2 ^ 55 }
    requires plain_modulus { 0 < t }
    requires plain_below { t < q }
    requires residues { All (λ x. x < q) entries.now }
    ensures { IfOk result (λ v. v.items ≡ decryption q t entries.now) }
{
    let factor = Factor::new(q, t);
    entries
        .iter()
        .map(|x| rounded_of(&factor, q, t, *x))
        .collect(alloc)
}
