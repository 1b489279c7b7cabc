ghost use Rattle.std.specs.Prelude.{◌≡◌, ℕ, [], length, slice_index_or, All, IfOk};
ghost use Rattle.mod_ring.specs.Fits.{Fits};
ghost use Rattle.ring_spec.specs.Ring.{IsPoly, ring_sum};
ghost use Rattle.bfv_spec.specs.Scheme.{decryption};
ghost use Rattle.decrypt_protocol.specs.Together.{OpensForAll};

use bfv_core::{copied, round_phase};
use mod_ring::{Poly, Polys, Ring, add_into};
use param_set::Plain;
use std::alloc::{AllocError, Global};

/// The plaintext of a ciphertext with the first part c0 from the sums of its shares: the decryption of
/// c0 and their one row.
///
/// Where the row is the sum of honest shares of parties whose parts sum to s, and the ciphertext carries
/// m under s, the result is m, if the ciphertext's noise and a flood for each party are at most the limit.
pub fn dec_finish(alloc: Global, ring: &Ring, c0: &Poly, sums: &Polys) -> Result<Plain, AllocError>
    requires c0 { Fits ring.now c0.now }
    requires one_row { length sums.now ≡ 1 }
    requires fit { All (Fits ring.now) sums.now }
    ensures value { IfOk result (λ m. m ≡ decryption ring.now.params.q ring.now.params.t (ring_sum ring.now.params.q ring.now.params.n c0.now (slice_index_or sums.now 0 []))) }
    ensures fits { IfOk result (λ m. IsPoly ring.now.params.t ring.now.params.n m) }
    ensures together { IfOk result (λ m. OpensForAll ring.now.params.q ring.now.params.n ring.now.params.t ring.now.params.flood c0.now (slice_index_or sums.now 0 []) m) }
{
    let mut phase = copied(alloc, ring, c0)?;
    add_into(ring, &mut phase, sums.at(0));
    let opened = round_phase(alloc, ring, &phase)?;
    Ok(opened)
}
