ghost use Rattle.std.specs.Prelude.{◌≡◌, ◌+◌, ◌<◌, replicate, IfOk};
ghost use Rattle.ring_spec.specs.Ring.{ring_sum, ring_product};
ghost use Rattle.ring_spec.specs.Pairs.{CipherFits};
ghost use Rattle.mod_ring.specs.Evaluated.{EvaluatedFits};
ghost use Rattle.gadget_keys.specs.Keys.{RowFits};
ghost use Rattle.gadget_keys.specs.Sums.{SumsFit};

use crate::key_row::Row;
use mod_ring::{Ciphertext, ProductSum, Ring, Transformed};
use std::alloc::{AllocError, Global};

/// The sums of polynomials of digits times the rows beside them, not yet reduced: of both parts of the rows.
#[derive(Drop)]
pub(crate) struct RowSums {
    b: ProductSum,
    a: ProductSum,
}

impl RowSums {
    /// The sums of no products.
    pub(crate) fn new(alloc: Global, ring: &Ring) -> Result<RowSums, AllocError>
        ensures b { IfOk result (λ s. s.b.value.poly ≡ replicate ring.now.params.n 0) }
        ensures a { IfOk result (λ s. s.a.value.poly ≡ replicate ring.now.params.n 0) }
        ensures fits { IfOk result (SumsFit ring.now.params 0) }
    {
        let b = ProductSum::new(alloc, ring)?;
        let a = ProductSum::new(alloc, ring)?;
        Ok(RowSums { b, a })
    }

    /// Adds the product of a polynomial and a row.
    pub(crate) fn add(&mut self, ring: &Ring, digits: &Transformed, row: &Row, _terms: usize)
        requires room { _terms < 55 }
        requires sums { SumsFit ring.now.params _terms self.old }
        requires digits { EvaluatedFits ring.now.params digits.now }
        requires row { RowFits ring.now.params row.now }
        ensures b { self.new.b.value.poly ≡ ring_sum ring.now.params.q ring.now.params.n self.old.b.value.poly
            (ring_product ring.now.params.q ring.now.params.n digits.now.poly row.now.b.poly) }
        ensures a { self.new.a.value.poly ≡ ring_sum ring.now.params.q ring.now.params.n self.old.a.value.poly
            (ring_product ring.now.params.q ring.now.params.n digits.now.poly row.now.a.poly) }
        ensures fits { SumsFit ring.now.params (_terms + 1) self.new }
    {
        self.b.add_product(ring, digits, &row.b);
        self.a.add_product(ring, digits, &row.a);
    }

    /// The ciphertext: each part is reduced, and taken back, once.
    pub(crate) fn into_ciphertext(
        self,
        alloc: Global,
        ring: &Ring,
        _terms: usize,
    ) -> Result<Ciphertext, AllocError>
        requires { SumsFit ring.now.params _terms self }
        ensures value { IfOk result (λ c. c ≡ record { c0 = self.b.value.poly; c1 = self.a.value.poly }) }
        ensures fits { IfOk result (CipherFits ring.now.params.q ring.now.params.n) }
    {
        let c0 = self.b.into_poly(alloc, ring)?;
        let c1 = self.a.into_poly(alloc, ring)?;
        Ok(Ciphertext { c0, c1 })
    }
}
