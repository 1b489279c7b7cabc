ghost use Rattle.std.specs.Prelude.{◌≡◌, IfOk};
ghost use Rattle.mod_ring.specs.Fits.{Fits};
ghost use Rattle.ring_spec.specs.Pairs.{CipherFits};
ghost use Rattle.ring_spec.specs.Ring.{IsPoly};
ghost use Rattle.bfv_spec.specs.Scheme.{cipher_sum, cipher_difference, cipher_negative, cipher_multiple, trivial as trivial_of};

use crate::cipher::{copied, scaled};
use mod_ring::{Ciphertext, Poly, Ring, add_into, mul, neg_into, of_residues, sub_into, zero};
use param_set::Plain;
use std::alloc::{AllocError, Global};

/// A plaintext as a polynomial of the ring, with the same coefficients.
fn lifted(alloc: Global, ring: &Ring, m: &Plain) -> Result<Poly, AllocError>
    requires { IsPoly ring.now.params.t ring.now.params.n m.now }
    ensures value { IfOk result (λ f. f ≡ m.now) }
    ensures fits { IfOk result (λ f. Fits ring.now f) }
{
    let coeffs = Vec::from_slice(alloc, m.coeffs())?;
    Ok(of_residues(ring.params(), coeffs))
}

/// A plaintext as a ciphertext without noise, which everybody can open: (D * m, 0).
#[tactic(auto, unfolding(bfv_spec::specs::Scheme::trivial))]
pub fn trivial(alloc: Global, ring: &Ring, m: &Plain) -> Result<Ciphertext, AllocError>
    requires { IsPoly ring.now.params.t ring.now.params.n m.now }
    ensures value { IfOk result (λ c. c ≡ trivial_of ring.now.params.q ring.now.params.n ring.now.params.t m.now) }
    ensures fits { IfOk result (λ c. CipherFits ring.now.params.q ring.now.params.n c) }
{
    let c0 = scaled(alloc, ring, m)?;
    let c1 = zero(alloc, ring)?;
    Ok(Ciphertext { c0, c1 })
}

/// The sum of two ciphertexts, part by part.
#[tactic(auto, unfolding(bfv_spec::specs::Scheme::cipher_sum))]
pub fn add(
    alloc: Global,
    ring: &Ring,
    c: &Ciphertext,
    d: &Ciphertext,
) -> Result<Ciphertext, AllocError>
    requires left { CipherFits ring.now.params.q ring.now.params.n c.now }
    requires right { CipherFits ring.now.params.q ring.now.params.n d.now }
    ensures value { IfOk result (λ e. e ≡ cipher_sum ring.now.params.q ring.now.params.n c.now d.now) }
    ensures fits { IfOk result (λ e. CipherFits ring.now.params.q ring.now.params.n e) }
{
    let mut c0 = copied(alloc, ring, &c.c0)?;
    let mut c1 = copied(alloc, ring, &c.c1)?;
    add_into(ring, &mut c0, &d.c0);
    add_into(ring, &mut c1, &d.c1);
    Ok(Ciphertext { c0, c1 })
}

/// The difference of two ciphertexts, the first less the second, part by part.
#[tactic(auto, unfolding(bfv_spec::specs::Scheme::cipher_difference))]
pub fn sub(
    alloc: Global,
    ring: &Ring,
    c: &Ciphertext,
    d: &Ciphertext,
) -> Result<Ciphertext, AllocError>
    requires left { CipherFits ring.now.params.q ring.now.params.n c.now }
    requires right { CipherFits ring.now.params.q ring.now.params.n d.now }
    ensures value { IfOk result (λ e. e ≡ cipher_difference ring.now.params.q ring.now.params.n c.now d.now) }
    ensures fits { IfOk result (λ e. CipherFits ring.now.params.q ring.now.params.n e) }
{
    let mut c0 = copied(alloc, ring, &c.c0)?;
    let mut c1 = copied(alloc, ring, &c.c1)?;
    sub_into(ring, &mut c0, &d.c0);
    sub_into(ring, &mut c1, &d.c1);
    Ok(Ciphertext { c0, c1 })
}

/// The negative of a ciphertext, part by part.
#[tactic(auto, unfolding(bfv_spec::specs::Scheme::cipher_negative))]
pub fn neg(alloc: Global, ring: &Ring, c: &Ciphertext) -> Result<Ciphertext, AllocError>
    requires { CipherFits ring.now.params.q ring.now.params.n c.now }
    ensures value { IfOk result (λ e. e ≡ cipher_negative ring.now.params.q ring.now.params.n c.now) }
    ensures fits { IfOk result (λ e. CipherFits ring.now.params.q ring.now.params.n e) }
{
    let mut c0 = copied(alloc, ring, &c.c0)?;
    let mut c1 = copied(alloc, ring, &c.c1)?;
    neg_into(ring, &mut c0);
    neg_into(ring, &mut c1);
    Ok(Ciphertext { c0, c1 })
}

/// A ciphertext times a plaintext: both parts times m, whose coefficients from 0 to t - 1 are taken as
/// residues modulo q.
#[tactic(auto, unfolding(bfv_spec::specs::Scheme::cipher_multiple))]
pub fn mul_plain(
    alloc: Global,
    ring: &Ring,
    c: &Ciphertext,
    m: &Plain,
) -> Result<Ciphertext, AllocError>
    requires cipher { CipherFits ring.now.params.q ring.now.params.n c.now }
    requires plain { IsPoly ring.now.params.t ring.now.params.n m.now }
    ensures value { IfOk result (λ e. e ≡ cipher_multiple ring.now.params.q ring.now.params.n c.now m.now) }
    ensures fits { IfOk result (λ e. CipherFits ring.now.params.q ring.now.params.n e) }
{
    let factor = lifted(alloc, ring, m)?;
    let c0 = mul(alloc, ring, &c.c0, &factor)?;
    let c1 = mul(alloc, ring, &c.c1, &factor)?;
    Ok(Ciphertext { c0, c1 })
}
