ghost use Rattle.std.specs.Prelude.{◌≡◌, IfOk};
ghost use Rattle.ring_spec.specs.Ring.{IsPoly, ring_sum, ring_difference, ring_negative};

use crate::reduced::{opposite, reduced};
use param_set::{Params, Plain};
use std::alloc::{AllocError, Global};

/// f + g, coefficient by coefficient.
#[tactic(auto, using(crate::proofs::Residues::one_by_one), unfolding(ring_spec::specs::Ring::ring_sum, ring_spec::specs::Ring::residue))]
pub(crate) fn sum(alloc: Global, params: &Params, f: &Plain, g: &Plain) -> Result<Plain, AllocError>
    requires left { IsPoly params.now.t params.now.n f.now }
    requires right { IsPoly params.now.t params.now.n g.now }
    ensures value { IfOk result (λ h. h ≡ ring_sum params.now.t params.now.n f.now g.now) }
    ensures fits { IfOk result (λ h. IsPoly params.now.t params.now.n h) }
{
    let (f, g) = (f.coeffs(), g.coeffs());
    let t = params.t();
    let mut coeffs = Vec::with_capacity(alloc, f.len())?;
    'places: for k in 0..f.len() {
        coeffs.push((f[k] + g[k]) % t)?;
    }
    Ok(Plain::from_vec(coeffs))
}

/// f - g, coefficient by coefficient.
#[tactic(auto, using(crate::proofs::Residues::one_by_one), unfolding(ring_spec::specs::Ring::ring_difference))]
pub(crate) fn difference(
    alloc: Global,
    params: &Params,
    f: &Plain,
    g: &Plain,
) -> Result<Plain, AllocError>
    requires left { IsPoly params.now.t params.now.n f.now }
    requires right { IsPoly params.now.t params.now.n g.now }
    ensures value { IfOk result (λ h. h ≡ ring_difference params.now.t params.now.n f.now g.now) }
    ensures fits { IfOk result (λ h. IsPoly params.now.t params.now.n h) }
{
    let (f, g) = (f.coeffs(), g.coeffs());
    let t = params.t();
    let mut coeffs = Vec::with_capacity(alloc, f.len())?;
    'places: for k in 0..f.len() {
        coeffs.push(reduced(t, f[k], g[k]))?;
    }
    Ok(Plain::from_vec(coeffs))
}

/// -f, coefficient by coefficient.
#[tactic(auto, using(crate::proofs::Residues::one_by_one), unfolding(ring_spec::specs::Ring::ring_negative))]
pub(crate) fn negative(alloc: Global, params: &Params, f: &Plain) -> Result<Plain, AllocError>
    requires { IsPoly params.now.t params.now.n f.now }
    ensures value { IfOk result (λ h. h ≡ ring_negative params.now.t params.now.n f.now) }
    ensures fits { IfOk result (λ h. IsPoly params.now.t params.now.n h) }
{
    let f = f.coeffs();
    let t = params.t();
    let mut coeffs = Vec::with_capacity(alloc, f.len())?;
    'places: for k in 0..f.len() {
        coeffs.push(opposite(t, f[k]))?;
    }
    Ok(Plain::from_vec(coeffs))
}
