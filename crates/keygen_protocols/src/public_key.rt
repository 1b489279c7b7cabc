ghost use Rattle.std.specs.Prelude.{◌≡◌, ℕ, [], ◌∷◌, length, slice_index_or, All, IfOk};
ghost use Rattle.mod_ring.specs.Fits.{Fits};
ghost use Rattle.ring_spec.specs.Pairs.{KeyFits};
ghost use Rattle.draw_spec.specs.Streams.{instance_stream as stream_of_instance};
ghost use Rattle.bfv_spec.specs.Drawn.{small_poly};
ghost use Rattle.bfv_spec.specs.Shares.{common_poly, honest_pk, pk_from};
ghost use Rattle.keygen_protocols.specs.Together.{IsKeyOfAll};

use crate::commons::first_common;
use bfv_core::copied;
use mod_ring::{Poly, Polys, PublicKey, Ring, add_into, mul, neg_into};
use proto_names::instance_stream;
use ring_draws::small;
use std::alloc::{AllocError, Global};
use word_tape::Tape;

/// The noise of a party's share, from the party's stream of the instance.
fn first_noise(alloc: Global, ring: &Ring, seed: [u8; 32], id: u32) -> Result<Poly, AllocError>
    ensures value { IfOk result (λ e. e ≡ small_poly ring.now.params.q ring.now.params.n ring.now.params.err seed (stream_of_instance id) 0) }
    ensures fits { IfOk result (λ e. Fits ring.now e) }
{
    small(
        alloc,
        ring,
        ring.params().err(),
        &mut Tape::new(seed, instance_stream(id)),
    )
}

/// The row of an honest share: -a * part + e.
#[tactic(auto, unfolding(bfv_spec::specs::Shares::honest_pk, bfv_spec::specs::Scheme::pk_share))]
fn pk_row(
    alloc: Global,
    ring: &Ring,
    public: [u8; 32],
    seed: [u8; 32],
    id: u32,
    part: &Poly,
) -> Result<Poly, AllocError>
    requires { Fits ring.now part.now }
    ensures value { IfOk result (λ row. row ≡ honest_pk ring.now.params.q ring.now.params.n ring.now.params.err public seed id part.now) }
    ensures fits { IfOk result (λ row. Fits ring.now row) }
{
    let common = first_common(alloc, ring, public, id)?;
    let mut row = mul(alloc, ring, &common, part)?;
    neg_into(ring, &mut row);
    let noise = first_noise(alloc, ring, seed, id)?;
    add_into(ring, &mut row, &noise);
    Ok(row)
}

/// The honest share of the public key of the party with this seed and this part of the secret: one
/// row, -a * part + e, with a from the public seed's stream of the instance and e from the party's.
pub fn pk_share(
    alloc: Global,
    ring: &Ring,
    public: [u8; 32],
    seed: [u8; 32],
    id: u32,
    part: &Poly,
) -> Result<Polys, AllocError>
    requires { Fits ring.now part.now }
    ensures value { IfOk result (λ rows. rows ≡ honest_pk ring.now.params.q ring.now.params.n ring.now.params.err public seed id part.now ∷ []) }
    ensures fits { IfOk result (λ rows. All (Fits ring.now) rows) }
{
    let mut rows = Polys::new(alloc);
    rows.push(pk_row(alloc, ring, public, seed, id, part)?)?;
    Ok(rows)
}

/// The public key of an instance from the sums of its shares: their one row, and the common polynomial.
///
/// Where the row is the sum of honest shares, p0 + p1 * s is small for the sum s of the parties' parts:
/// its size is at most that of one party's noise, times the number of parties.
#[tactic(auto, unfolding(bfv_spec::specs::Shares::pk_from))]
pub fn pk_key(
    alloc: Global,
    ring: &Ring,
    public: [u8; 32],
    id: u32,
    sums: &Polys,
) -> Result<PublicKey, AllocError>
    requires one_row { length sums.now ≡ 1 }
    requires fit { All (Fits ring.now) sums.now }
    ensures value { IfOk result (λ key. key ≡ pk_from ring.now.params.q ring.now.params.n public id (slice_index_or sums.now 0 [])) }
    ensures fits { IfOk result (λ key. KeyFits ring.now.params.q ring.now.params.n key) }
    ensures together { IfOk result (λ key. IsKeyOfAll ring.now.params.q ring.now.params.n (common_poly ring.now.params.q ring.now.params.n public id 0) (slice_index_or sums.now 0 []) key) }
{
    let p0 = copied(alloc, ring, sums.at(0))?;
    let p1 = first_common(alloc, ring, public, id)?;
    Ok(PublicKey { p0, p1 })
}
