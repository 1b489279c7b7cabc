ghost use Rattle.std.specs.Prelude.{◌≡◌, IfOk};
ghost use Rattle.mod_ring.specs.Fits.{Fits};
ghost use Rattle.ring_spec.specs.Ring.{IsPoly, ring_product};
ghost use Rattle.mod_ring.specs.Evaluated.{EvaluatedFits};

use crate::poly::Poly;
use crate::ring::Ring;
use std::alloc::{AllocError, Global};
use std::marker::Model;

/// A polynomial in its evaluation representation: its values at the odd powers of psi, as the
/// number-theoretic transform gives them. Contracts see the polynomial, and what it was transformed with.
///
/// What is multiplied often, as a row of a key, is transformed once and kept so.
#[derive(Drop)]
pub struct Transformed {
    modulus: u64,
    root: u64,
    levels: u32,
    pub(crate) values: Vec<u64>,
}

impl Model for Transformed {
    ghost use Rattle.std.specs.Prelude.{◌^◌};
    ghost use Rattle.ring_spec.specs.Ring.{IsPoly};
    ghost use Rattle.mod_ring.specs.Evaluated.{Evaluated, evaluated};

    ghost Value = { Evaluated };

    ghost view = { λ a. evaluated a.modulus a.root a.levels a.values.items };

    ghost invariant = { λ a. IsPoly a.modulus (2 ^ a.levels) a.values.items };
}

impl Transformed {
    /// The transform of f.
    pub fn of(alloc: Global, ring: &Ring, f: &Poly) -> Result<Transformed, AllocError>
        requires { Fits ring.now f.now }
        ensures value { IfOk result (λ t. t.poly ≡ f.now) }
        ensures fits { IfOk result (λ t. EvaluatedFits ring.now.params t) }
    {
        let tables = ring.tables();
        let mut values = f.coeffs().to_vec(alloc)?;
        tables.forward(values.as_mut_slice());
        Ok(Transformed {
            modulus: tables.modulus,
            root: tables.root,
            levels: tables.levels,
            values,
        })
    }

    /// The polynomial, as a copy.
    pub fn to_poly(&self, alloc: Global, ring: &Ring) -> Result<Poly, AllocError>
        requires { EvaluatedFits ring.now.params self.now }
        ensures value { IfOk result (λ f. f ≡ self.now.poly) }
        ensures fits { IfOk result (λ f. Fits ring.now f) }
    {
        let mut coeffs = self.values.to_vec(alloc)?;
        ring.tables().inverse(coeffs.as_mut_slice());
        Ok(Poly { coeffs })
    }

    /// The polynomial, in the memory of its values.
    pub fn into_poly(self, ring: &Ring) -> Poly
        requires { EvaluatedFits ring.now.params self }
        ensures value { result ≡ self.poly }
        ensures fits { Fits ring.now result }
    {
        let mut coeffs = self.values;
        ring.tables().inverse(coeffs.as_mut_slice());
        Poly { coeffs }
    }

    /// Multiplies by another, entry by entry.
    pub fn multiply_into(&mut self, ring: &Ring, other: &Transformed)
        requires left { EvaluatedFits ring.now.params self.old }
        requires right { EvaluatedFits ring.now.params other.now }
        ensures value { self.new.poly ≡
            ring_product ring.now.params.q ring.now.params.n self.old.poly other.now.poly }
        ensures fits { EvaluatedFits ring.now.params self.new }
    {
        ring.tables()
            .multiply_into(self.values.as_mut_slice(), other.values.as_slice());
    }
}
