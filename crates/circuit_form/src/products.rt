ghost use Rattle.std.specs.Prelude.{◌≡◌, ℕ, ◌<◌, ◌≤◌, length, get_or, IfOk};
ghost use Rattle.ring_spec.specs.Ring.{IsPoly, residue, centre, ring_product};
ghost use Rattle.circuit_form.specs.Products.{wide_modulus};

use crate::reduced::opposite;
use crate::wide_ring::{MODULUS, WideRing};
use mod_word::Modulus;
use param_set::{Params, Plain};
use std::alloc::{AllocError, Global};

/// The residue modulo t of the whole number whose residue in the wide ring is x.
fn narrowed(t: &Modulus, x: u64) -> u64
    requires { x < wide_modulus }
    ensures { result ≡ residue t.now.q (centre wide_modulus x) }
{
    if 2 * x < MODULUS {
        t.word(x)
    } else {
        opposite(t.q(), t.word(MODULUS - x))
    }
}

/// The same of each coefficient, in place.
fn narrow(t: u64, coeffs: &mut [u64])
    requires modulus_low { 1 ≤ t }
    requires modulus_high { t ≤ 65537 }
    requires residues { (k : ℕ) → k < length coeffs.old → get_or coeffs.old k 0 < wide_modulus }
    ensures length { length coeffs.new ≡ length coeffs.old }
    ensures narrowed { (k : ℕ) → k < length coeffs.old →
        get_or coeffs.new k 0 ≡ residue t (centre wide_modulus (get_or coeffs.old k 0)) }
{
    let modulus = Modulus::new(t);
    'places: for k in 0..coeffs.len() {
        coeffs[k] = narrowed(&modulus, coeffs[k]);
    }
}

/// f * g. Over the whole numbers a coefficient is at most 4096 * 65536^2 in absolute value, so that its
/// residue in the wide ring tells it.
pub(crate) fn product(
    alloc: Global,
    params: &Params,
    wide: &WideRing,
    f: &Plain,
    g: &Plain,
) -> Result<Plain, AllocError>
    requires wide { wide.now ≡ params.now.n }
    requires left { IsPoly params.now.t params.now.n f.now }
    requires right { IsPoly params.now.t params.now.n g.now }
    ensures value { IfOk result (λ h. h ≡ ring_product params.now.t params.now.n f.now g.now) }
    ensures fits { IfOk result (λ h. IsPoly params.now.t params.now.n h) }
{
    let mut coeffs = wide.product(alloc, f.coeffs(), g.coeffs())?;
    narrow(params.t(), coeffs.as_mut_slice());
    Ok(Plain::from_vec(coeffs))
}
