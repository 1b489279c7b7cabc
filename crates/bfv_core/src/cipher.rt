ghost use Rattle.std.specs.Prelude.{◌≡◌, ◌*◌, ◌/◌, IfOk, OnOk, OnErr};
ghost use Rattle.mod_ring.specs.Fits.{Fits};
ghost use Rattle.ring_spec.specs.Pairs.{KeyFits, CipherFits};
ghost use Rattle.ring_spec.specs.Ring.{IsPoly, ring_multiple};
ghost use Rattle.bfv_spec.specs.Scheme.{encryption, phase as phase_of};
ghost use Rattle.bfv_spec.specs.Drawn.{drawn_encryption};
ghost use Rattle.word_tape.specs.Standing.{moved};

use mod_ring::{Ciphertext, Poly, PublicKey, Ring, add_into, mul, of_residues, scale_into};
use param_set::Plain;
use ring_draws::{small, ternary};
use std::alloc::{AllocError, Global};
use word_tape::Tape;

/// D * m as a polynomial of the ring.
pub(crate) fn scaled(alloc: Global, ring: &Ring, m: &Plain) -> Result<Poly, AllocError>
    requires { IsPoly ring.now.params.t ring.now.params.n m.now }
    ensures value { IfOk result (λ f. f ≡ ring_multiple ring.now.params.q ring.now.params.n (ring.now.params.q / ring.now.params.t) m.now) }
    ensures fits { IfOk result (λ f. Fits ring.now f) }
{
    let coeffs = Vec::from_slice(alloc, m.coeffs())?;
    let mut f = of_residues(ring.params(), coeffs);
    scale_into(ring, &mut f, ring.params().delta());
    Ok(f)
}

/// A copy of a polynomial.
pub fn copied(alloc: Global, ring: &Ring, f: &Poly) -> Result<Poly, AllocError>
    requires { Fits ring.now f.now }
    ensures value { IfOk result (λ g. g ≡ f.now) }
    ensures fits { IfOk result (λ g. Fits ring.now g) }
{
    let coeffs = Vec::from_slice(alloc, f.coeffs())?;
    Ok(of_residues(ring.params(), coeffs))
}

/// Encrypts m under a public key with the polynomials that are handed in: (u * p0 + e0 + D * m,
/// u * p1 + e1).
#[tactic(auto, unfolding(bfv_spec::specs::Scheme::encryption))]
fn encrypt_with(
    alloc: Global,
    ring: &Ring,
    key: &PublicKey,
    m: &Plain,
    u: &Poly,
    e0: &Poly,
    e1: &Poly,
) -> Result<Ciphertext, AllocError>
    requires key { KeyFits ring.now.params.q ring.now.params.n key.now }
    requires plain { IsPoly ring.now.params.t ring.now.params.n m.now }
    requires u { Fits ring.now u.now }
    requires e0 { Fits ring.now e0.now }
    requires e1 { Fits ring.now e1.now }
    ensures value { IfOk result (λ c. c ≡ encryption ring.now.params.q ring.now.params.n ring.now.params.t key.now m.now u.now e0.now e1.now) }
    ensures fits { IfOk result (λ c. CipherFits ring.now.params.q ring.now.params.n c) }
{
    let mut c0 = mul(alloc, ring, u, &key.p0)?;
    let message = scaled(alloc, ring, m)?;
    add_into(ring, &mut c0, e0);
    add_into(ring, &mut c0, &message);
    let mut c1 = mul(alloc, ring, u, &key.p1)?;
    add_into(ring, &mut c1, e1);
    Ok(Ciphertext { c0, c1 })
}

/// Encrypts m under a public key: (u * p0 + e0 + D * m, u * p1 + e1).
///
/// The words are u's, then e0's, then e1's, n each, from where the tape stands. Where memory is
/// wanting the tape stands where it stood.
pub fn encrypt(
    alloc: Global,
    ring: &Ring,
    key: &PublicKey,
    m: &Plain,
    tape: &mut Tape,
) -> Result<Ciphertext, AllocError>
    requires key { KeyFits ring.now.params.q ring.now.params.n key.now }
    requires plain { IsPoly ring.now.params.t ring.now.params.n m.now }
    ensures value { IfOk result (λ c. c ≡ drawn_encryption ring.now.params.q ring.now.params.n ring.now.params.t ring.now.params.err key.now m.now tape.old.seed tape.old.stream tape.old.next) }
    ensures fits { IfOk result (λ c. CipherFits ring.now.params.q ring.now.params.n c) }
    ensures place { OnOk result (tape.new ≡ moved tape.old (3 * ring.now.params.n)) }
    ensures err { OnErr result (tape.new ≡ tape.old) }
{
    let err = ring.params().err();
    let mut ahead = tape.copied();
    let u = ternary(alloc, ring, &mut ahead)?;
    let e0 = small(alloc, ring, err, &mut ahead)?;
    let e1 = small(alloc, ring, err, &mut ahead)?;
    let c = encrypt_with(alloc, ring, key, m, &u, &e0, &e1)?;
    *tape = ahead;
    Ok(c)
}

/// The phase of a ciphertext under a secret: c0 + c1 * s.
#[tactic(auto, unfolding(bfv_spec::specs::Scheme::phase))]
pub fn phase(alloc: Global, ring: &Ring, c: &Ciphertext, s: &Poly) -> Result<Poly, AllocError>
    requires cipher { CipherFits ring.now.params.q ring.now.params.n c.now }
    requires secret { Fits ring.now s.now }
    ensures value { IfOk result (λ f. f ≡ phase_of ring.now.params.q ring.now.params.n s.now c.now) }
    ensures fits { IfOk result (λ f. Fits ring.now f) }
{
    let mut f = copied(alloc, ring, &c.c0)?;
    let product = mul(alloc, ring, &c.c1, s)?;
    add_into(ring, &mut f, &product);
    Ok(f)
}
