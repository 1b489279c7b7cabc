ghost use Rattle.std.specs.Prelude.{◌≡◌, ℕ, ◌+◌, ◌^◌, IfOk, All};
ghost use Rattle.mod_ring.specs.Fits.{Fits};
ghost use Rattle.bfv_spec.specs.Shares.{common_poly, common_polys};

use mod_ring::{Poly, Polys, Ring};
use proto_names::instance_stream;
use ring_draws::uniform;
use std::alloc::{AllocError, Global};
use word_tape::Tape;

/// The common polynomial of an instance's first row.
pub(crate) fn first_common(
    alloc: Global,
    ring: &Ring,
    public: [u8; 32],
    id: u32,
) -> Result<Poly, AllocError>
    ensures value { IfOk result (λ a. a ≡ common_poly ring.now.params.q ring.now.params.n public id 0) }
    ensures fits { IfOk result (λ a. Fits ring.now a) }
{
    uniform(alloc, ring, &mut Tape::new(public, instance_stream(id)))
}

/// The common polynomials of an instance's first rows, one behind the other in the public seed's
/// stream of the instance.
pub fn common(
    alloc: Global,
    ring: &Ring,
    public: [u8; 32],
    id: u32,
    rows: u32,
) -> Result<Polys, AllocError>
    ensures value { IfOk result (λ polys. polys ≡ common_polys ring.now.params.q ring.now.params.n public id rows) }
    ensures fits { IfOk result (λ polys. All (Fits ring.now) polys) }
{
    let mut tape = Tape::new(public, instance_stream(id));
    let mut polys = Polys::new(alloc);
    for row in 0..rows {
        polys.push(uniform(alloc, ring, &mut tape)?)?;
    }
    Ok(polys)
}
