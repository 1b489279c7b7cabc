ghost use Rattle.std.specs.Prelude.{◌≡◌, ℕ, ◌<◌, ◌≤◌, All, List, [], length, IfOk, slice_index_or};
ghost use Rattle.mod_ring.specs.Fits.{Fits};
ghost use Rattle.ring_spec.specs.Ring.{ring_sum};
ghost use Rattle.share_spec.specs.Dealing.{dealing, value_at};

use crate::values::{add_each, horner};
use mod_ring::{Poly, Ring, of_residues};
use mod_word::Modulus;
use ring_draws::{ternary, uniform};
use std::alloc::{AllocError, Global};
use std::marker::Model;
use word_tape::Tape;

/// The stream of a party's seed by which it deals.
const STREAM: u64 = 0;

/// What a party deals: the coefficients of a polynomial over R_q, of which the first is the party's
/// part of the secret.
#[derive(Drop)]
pub struct Dealing {
    coefficients: Vec<Poly>,
}

impl Model for Dealing {
    ghost Value = { List (List ℕ) };

    ghost view = { λ a. a.coefficients.items };
}

impl Dealing {
    /// Draws the part, and then one uniform polynomial for each degree from 1 to T - 1.
    #[tactic(auto, using(crate::proofs::Draws::one_by_one))]
    pub fn new(alloc: Global, ring: &Ring, seed: [u8; 32]) -> Result<Dealing, AllocError>
        ensures value { IfOk result (λ d. d
            ≡ dealing ring.now.params.q ring.now.params.n ring.now.params.threshold seed) }
        ensures number { IfOk result (λ d. length d ≡ ring.now.params.threshold) }
        ensures fits { IfOk result (λ d. All (Fits ring.now) d) }
    {
        let mut tape = Tape::new(seed, STREAM);
        let mut coefficients = Vec::new(alloc);
        coefficients.push(ternary(alloc, ring, &mut tape)?)?;
        for _ in 1..ring.params().threshold() {
            coefficients.push(uniform(alloc, ring, &mut tape)?)?;
        }
        Ok(Dealing { coefficients })
    }

    /// The party's part of the secret.
    pub fn part(&self) -> &Poly
        requires { 0 < length self.now }
        ensures { result.now ≡ slice_index_or self.now 0 [] }
    {
        &self.coefficients[0]
    }

    /// What the party deals to a point from 1 to N: f_0 + f_1 * point + f_2 * point^2 + ..
    #[tactic(auto, using(crate::proofs::Horner::one_by_one))]
    pub fn at(&self, alloc: Global, ring: &Ring, point: u32) -> Result<Poly, AllocError>
        requires coefficients { All (Fits ring.now) self.now }
        requires some_party { 1 ≤ point }
        requires of_all { point ≤ ring.now.params.parties }
        ensures value { IfOk result (λ f. f ≡ value_at ring.now.params.q ring.now.params.n self.now point) }
        ensures fits { IfOk result (λ f. Fits ring.now f) }
    {
        let params = ring.params();
        let modulus = Modulus::new(params.q());
        let mut value = vec![in alloc; 0; params.n() as usize]?;
        let entries = value.as_mut_slice();
        for place in 0..self.coefficients.len() {
            let from_the_last = self.coefficients.len() - 1 - place;
            horner(
                &modulus,
                entries,
                u64::from(point),
                self.coefficients[from_the_last].coeffs(),
            );
        }
        Ok(of_residues(params, value))
    }

    /// Adds what another party deals for the same threshold: at each point the value is then the sum of
    /// both.
    pub fn add(&mut self, ring: &Ring, other: &Dealing)
        requires number { length other.now ≡ length self.old }
        requires left { All (Fits ring.now) self.old }
        requires right { All (Fits ring.now) other.now }
        ensures values { (p : ℕ) → value_at ring.now.params.q ring.now.params.n self.new p
            ≡ ring_sum ring.now.params.q ring.now.params.n
            (value_at ring.now.params.q ring.now.params.n self.old p)
            (value_at ring.now.params.q ring.now.params.n other.now p) }
        ensures number { length self.new ≡ length self.old }
        ensures fits { All (Fits ring.now) self.new }
    {
        add_each(
            ring,
            self.coefficients.as_mut_slice(),
            other.coefficients.as_slice(),
        );
    }
}
