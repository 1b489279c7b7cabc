//! Rings with n = 8 and q = 7 * 2^52 + 1, and polynomials in them.

ghost use Rattle.std.specs.Prelude.{◌≡◌, ◌<◌, ◌≤◌, IfOk};
ghost use Rattle.mod_ring.specs.Fits.{Fits};

use mod_ring::{Poly, Ring, of_signed};
use param_set::{ParamFault, Params, RawParams};
use std::alloc::{AllocError, Global};

pub(crate) const Q: u64 = 31_525_197_391_593_473;

/// Parameters with digits of so many bits.
pub(crate) fn params_of(digit_bits: u64, balanced: bool) -> Result<Params, ParamFault>
    ensures degree { IfOk result (λ params. params.n ≡ 8) }
    ensures modulus { IfOk result (λ params. params.q ≡ 31525197391593473) }
{
    let params = Params::check(&RawParams {
        n: 8,
        q: Q,
        t: 16,
        root: 3,
        digit_bits,
        err: 1,
        flood: 1,
        parties: 3,
        threshold: 2,
    })?;
    Ok(if balanced { params.balanced() } else { params })
}

/// A polynomial whose coefficients look drawn.
pub(crate) fn mixed(alloc: Global, ring: &Ring, seed: u64) -> Result<Poly, AllocError>
    requires { ring.now.params.n ≡ 8 }
    ensures { IfOk result (λ f. Fits ring.now f) }
{
    let mut coeffs = [0; 8];
    let mut state = seed;
    for x in &mut coeffs {
        state = state
            .wrapping_mul(6_364_136_223_846_793_005)
            .wrapping_add(1_442_695_040_888_963_407);
        *x = (state >> 8) as i64;
    }
    of_signed(alloc, ring, &coeffs)
}
