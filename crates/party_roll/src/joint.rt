//! What all parties of a roll deal, added up.
ghost use Rattle.std.specs.Prelude.{◌≡◌, ℕ, ◌≤◌, All, IfOk};
ghost use Rattle.mod_ring.specs.Fits.{Fits};
ghost use Rattle.ring_spec.specs.Ring.{IsPoly};
ghost use Rattle.share_spec.specs.Dealing.{value_at};
ghost use Rattle.share_spec.specs.Seeds.{share as share_at};
ghost use Rattle.party_roll.specs.Seeds.{seeds_of};

use crate::seeds::SeedRoll;
use mod_ring::{Poly, Ring};
use param_set::Params;
use shamir_ring::Dealing;
use std::alloc::{AllocError, Global};

/// The sum of the dealings of all parties of a roll. Its value at a point is the share there, so that
/// the shares of all parties need one dealing of each.
#[derive(Drop)]
pub struct JointDealing {
    params: Params,
    roll: SeedRoll,
    sum: Dealing,
    ghost fits: { All (IsPoly params.q params.n) sum },
    ghost shares: { (p : ℕ) → value_at params.q params.n sum p
        ≡ share_at params.q params.n params.threshold (seeds_of roll.master params.parties) p },
}

impl JointDealing {
    /// Draws what each party deals, one party after the other, and adds it up.
    pub fn new(alloc: Global, ring: &Ring, roll: &SeedRoll) -> Result<JointDealing, AllocError>
        ensures params { IfOk result (λ joint. joint.params ≡ ring.now.params) }
        ensures master { IfOk result (λ joint. joint.roll.master ≡ roll.now.master) }
    {
        let sum = sum_of_all(alloc, ring, roll)?;
        Ok(JointDealing {
            params: *ring.params(),
            roll: roll.copied(),
            sum,
        })
    }

    /// The roll whose parties deal.
    pub(crate) fn roll(&self) -> &SeedRoll
        ensures { result.now ≡ self.now.roll }
    {
        &self.roll
    }

    /// The share of party p: the sum of what all parties deal to its point.
    pub(crate) fn share(&self, alloc: Global, ring: &Ring, p: u32) -> Result<Poly, AllocError>
        requires ring { self.now.params ≡ ring.now.params }
        requires some_party { 1 ≤ p }
        requires of_all { p ≤ ring.now.params.parties }
        ensures value { IfOk result (λ f. f
            ≡ share_at ring.now.params.q ring.now.params.n ring.now.params.threshold
            (seeds_of self.now.roll.master ring.now.params.parties) p) }
        ensures fits { IfOk result (λ f. Fits ring.now f) }
    {
        self.sum.at(alloc, ring, p)
    }
}

/// The sum of what the parties 1 to N deal.
fn sum_of_all(alloc: Global, ring: &Ring, roll: &SeedRoll) -> Result<Dealing, AllocError>
    ensures shares { IfOk result (λ sum. (p : ℕ) → value_at ring.now.params.q ring.now.params.n sum p
        ≡ share_at ring.now.params.q ring.now.params.n ring.now.params.threshold
        (seeds_of roll.now.master ring.now.params.parties) p) }
    ensures fits { IfOk result (λ sum. All (Fits ring.now) sum) }
{
    let mut sum = Dealing::new(alloc, ring, roll.seed(1))?;
    for i in 1..ring.params().parties() as u32 {
        let dealing = Dealing::new(alloc, ring, roll.seed(i + 1))?;
        sum.add(ring, &dealing);
    }
    Ok(sum)
}
