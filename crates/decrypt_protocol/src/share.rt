ghost use Rattle.std.specs.Prelude.{◌≡◌, ℕ, [], ◌∷◌, All, IfOk};
ghost use Rattle.mod_ring.specs.Fits.{Fits};
ghost use Rattle.dec_spec.specs.Decrypting.{flood as flood_of, honest_dec};

use mod_ring::{Poly, Polys, Ring, add_into, mul};
use proto_names::instance_stream;
use ring_draws::wide;
use std::alloc::{AllocError, Global};
use word_tape::Tape;

/// The flood of a party's share, from the party's stream of the instance.
fn flood(alloc: Global, ring: &Ring, seed: [u8; 32], id: u32) -> Result<Poly, AllocError>
    ensures value { IfOk result (λ f. f ≡ flood_of ring.now.params.q ring.now.params.n ring.now.params.flood seed id) }
    ensures fits { IfOk result (λ f. Fits ring.now f) }
{
    wide(
        alloc,
        ring,
        ring.params().flood(),
        &mut Tape::new(seed, instance_stream(id)),
    )
}

/// The row of an honest share: c1 * part + f.
#[tactic(auto, unfolding(dec_spec::specs::Decrypting::honest_dec))]
fn dec_row(
    alloc: Global,
    ring: &Ring,
    seed: [u8; 32],
    id: u32,
    c1: &Poly,
    part: &Poly,
) -> Result<Poly, AllocError>
    requires c1 { Fits ring.now c1.now }
    requires part { Fits ring.now part.now }
    ensures value { IfOk result (λ row. row ≡ honest_dec ring.now.params.q ring.now.params.n ring.now.params.flood seed id c1.now part.now) }
    ensures fits { IfOk result (λ row. Fits ring.now row) }
{
    let mut row = mul(alloc, ring, c1, part)?;
    let noise = flood(alloc, ring, seed, id)?;
    add_into(ring, &mut row, &noise);
    Ok(row)
}

/// The honest share of a decryption of the party with this seed and this part of the secret: one row,
/// c1 * part + f, with c1 of the ciphertext and f from the party's stream of the instance.
///
/// The part is the party's share of the secret times its Lagrange coefficient, n coefficients below q.
/// f is added once that product stands, and no coefficient scales it.
pub fn dec_share(
    alloc: Global,
    ring: &Ring,
    seed: [u8; 32],
    id: u32,
    c1: &Poly,
    part: &Poly,
) -> Result<Polys, AllocError>
    requires c1 { Fits ring.now c1.now }
    requires part { Fits ring.now part.now }
    ensures value { IfOk result (λ rows. rows ≡ honest_dec ring.now.params.q ring.now.params.n ring.now.params.flood seed id c1.now part.now ∷ []) }
    ensures fits { IfOk result (λ rows. All (Fits ring.now) rows) }
{
    let mut rows = Polys::new(alloc);
    rows.push(dec_row(alloc, ring, seed, id, c1, part)?)?;
    Ok(rows)
}
