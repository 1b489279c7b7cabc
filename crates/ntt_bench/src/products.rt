ghost use Rattle.std.specs.Prelude.{IfOk};
ghost use Rattle.mod_ring.specs.Fits.{Fits};

use mod_ring::{Poly, Ring, mul, of_residues};
use param_set::{Params, RawParams};
use std::alloc::{AllocError, Global};
use std::io;
use std::time::{Clock, Instant};

const ROUNDS: usize = 101;

/// Prints the median of a product's time in the ring with n coefficients, in nanoseconds.
pub fn measure_products<R: Print + Clock + AllocGlobal>(rt: &R, n: u64) -> io::Result<()> {
    let Ok(params) = Params::check(&RawParams {
        n,
        q: 31_525_197_391_593_473,
        t: 16,
        root: 3,
        digit_bits: 8,
        err: 1,
        flood: 1,
        parties: 1,
        threshold: 1,
    }) else {
        return println!(rt; "no ring with {n} coefficients");
    };
    let ring = Ring::new(rt.alloc(), &params)?;
    let g = ones(rt.alloc(), &ring)?;
    let mut f = ones(rt.alloc(), &ring)?;
    let mut products = Vec::new(rt.alloc());
    'rounds: for _ in 0..ROUNDS {
        let start = Instant::now(rt)?;
        f = often(rt.alloc(), &ring, f, &g)?;
        products.push(start.elapsed(rt)?.as_nanos())?;
    }
    products.sort_unstable();
    println!(rt;
        "{} {n} {} {}",
        params.q(),
        products.get(ROUNDS / 2).copied().unwrap_or(0) / 16,
        f.coeffs().first().copied().unwrap_or(0)
    )
}

/// The polynomial whose coefficients are all 1.
fn ones(alloc: Global, ring: &Ring) -> Result<Poly, AllocError>
    ensures { IfOk result (λ f. Fits ring.now f) }
{
    let values = vec![in alloc; 1; ring.params().n() as usize]?;
    Ok(of_residues(ring.params(), values))
}

/// f times g, sixteen times over.
fn often(alloc: Global, ring: &Ring, f: Poly, g: &Poly) -> Result<Poly, AllocError>
    requires left { Fits ring.now f }
    requires right { Fits ring.now g.now }
    ensures { IfOk result (λ h. Fits ring.now h) }
{
    let mut product = f;
    'repeats: for _ in 0..16u32 {
        product = mul(alloc, ring, &product, g)?;
    }
    Ok(product)
}
