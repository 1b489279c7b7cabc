ghost use Rattle.std.specs.Prelude.{◌≡◌, ℕ, ◌<◌, ◌≤◌, ◌*◌, length, get_or, IfOk};
ghost use Rattle.ring_spec.specs.Ring.{IsPoly, residue, coefficient, turned, ring_turned};

use crate::reduced::reduced;
use param_set::{Params, Plain};
use std::alloc::{AllocError, Global};

/// Adds f with X^g for X to a list of zeros: coefficient i of f goes to place i * g modulo 2n, and a place
/// of n or more is n less with the sign changed.
fn put_turned(t: u64, g: u64, f: &[u64], coeffs: &mut [u64])
    requires modulus_low { 0 < t }
    requires modulus_high { t ≤ 65537 }
    requires few { length f.now ≤ 4096 }
    requires turn { g < 2 * length f.now }
    requires poly { IsPoly t (length f.now) f.now }
    requires count { length coeffs.old ≡ length f.now }
    requires zeros { (k : ℕ) → k < length f.now → get_or coeffs.old k 0 ≡ 0 }
    ensures count { length coeffs.new ≡ length f.now }
    ensures turned { (k : ℕ) → k < length f.now →
        get_or coeffs.new k 0 ≡ residue t (turned (length f.now) g (coefficient f.now) k) }
{
    let n = f.len();
    'terms: for i in 0..n {
        let place = (i as u64 * g % (2 * n as u64)) as usize;
        if place < n {
            coeffs[place] = reduced(t, coeffs[place] + f[i], 0);
        } else {
            coeffs[place - n] = reduced(t, coeffs[place - n], f[i]);
        }
    }
}

/// f with X^g for X.
pub(crate) fn turn(alloc: Global, params: &Params, g: u64, f: &Plain) -> Result<Plain, AllocError>
    requires turn { g < 2 * params.now.n }
    requires poly { IsPoly params.now.t params.now.n f.now }
    ensures value { IfOk result (λ h. h ≡ ring_turned params.now.t params.now.n g f.now) }
    ensures fits { IfOk result (λ h. IsPoly params.now.t params.now.n h) }
{
    let mut coeffs = vec![in alloc; 0u64; f.len()]?;
    put_turned(params.t(), g, f.coeffs(), coeffs.as_mut_slice());
    Ok(Plain::from_vec(coeffs))
}
