ghost use Rattle.std.specs.Prelude.{◌≡◌, ℕ, ◌≤◌, All, List, length, IfOk};
ghost use Rattle.mod_ring.specs.Fits.{Fits};
ghost use Rattle.ring_spec.specs.Ring.{ring_multiple, size};
ghost use Rattle.ring_spec.specs.Aggregate.{ring_total};
ghost use Rattle.share_spec.specs.Sets.{count};
ghost use Rattle.share_spec.specs.Lagrange.{lagrange as coefficient_of};
ghost use Rattle.share_spec.specs.Dealing.{secret, parts as parts_of};

use crate::ratios::lagrange;
use mod_ring::{Poly, Ring, add_into, scale_into, zero};
use proto_names::PartySet;
use std::alloc::{AllocError, Global};

/// The sum of what was dealt, in any order.
#[tactic(auto, using(crate::proofs::Sums::one_by_one))]
pub fn combine(alloc: Global, ring: &Ring, dealt: &[Poly]) -> Result<Poly, AllocError>
    requires { All (Fits ring.now) dealt.now }
    ensures value { IfOk result (λ f. f ≡ ring_total ring.now.params.q ring.now.params.n dealt.now) }
    ensures fits { IfOk result (λ f. Fits ring.now f) }
{
    let mut sum = zero(alloc, ring)?;
    for f in dealt {
        add_into(ring, &mut sum, f);
    }
    Ok(sum)
}

/// What party j takes part with when a set acts: its share times its Lagrange coefficient.
#[tactic(auto, using(crate::proofs::Sums::one_by_one))]
pub fn additive(
    alloc: Global,
    ring: &Ring,
    share: &Poly,
    set: PartySet,
    j: u32,
) -> Result<Poly, AllocError>
    requires { Fits ring.now share.now }
    ensures value { IfOk result (λ f. f ≡ ring_multiple ring.now.params.q ring.now.params.n (coefficient_of ring.now.params.q set.bits j) share.now) }
    ensures fits { IfOk result (λ f. Fits ring.now f) }
{
    let mut part = zero(alloc, ring)?;
    add_into(ring, &mut part, share);
    scale_into(ring, &mut part, lagrange(ring.params().q(), set, j));
    Ok(part)
}

/// The secret, from the parts of as many parties as the threshold, whoever dealt it and for whichever
/// threshold.
pub fn reconstruct(alloc: Global, ring: &Ring, parts: &[Poly]) -> Result<Poly, AllocError>
    requires { All (Fits ring.now) parts.now }
    ensures value { IfOk result (λ f. f ≡ ring_total ring.now.params.q ring.now.params.n parts.now) }
    ensures secret { (t : ℕ) → (seed : ℕ → List ℕ) → (dealers : List ℕ) → (set : ℕ) → 1 ≤ t → t ≤ count set
        → parts.now ≡ parts_of ring.now.params.q ring.now.params.n t seed dealers set
        → IfOk result (λ f. f ≡ secret ring.now.params.q ring.now.params.n seed dealers) }
    ensures small { (t : ℕ) → (seed : ℕ → List ℕ) → (dealers : List ℕ) → (set : ℕ) → 1 ≤ t → t ≤ count set
        → parts.now ≡ parts_of ring.now.params.q ring.now.params.n t seed dealers set
        → IfOk result (λ f. size ring.now.params.q f ≤ length dealers) }
{
    combine(alloc, ring, parts)
}
