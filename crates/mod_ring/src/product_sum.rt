ghost use Rattle.std.specs.Prelude.{◌≡◌, ◌+◌, ◌<◌, replicate, IfOk};
ghost use Rattle.mod_ring.specs.Fits.{Fits};
ghost use Rattle.ring_spec.specs.Ring.{ring_sum, ring_product};
ghost use Rattle.mod_ring.specs.Evaluated.{EvaluatedFits};

use crate::poly::Poly;
use crate::ring::Ring;
use crate::transformed::Transformed;
use crate::wide_sums::{add_products, reduced};
use std::alloc::{AllocError, Global};
use std::marker::Model;

/// A sum of products of transformed polynomials, entry by entry and not yet reduced: residues have 55 bits,
/// so that words of 128 bits hold the sum of 65536 products. Contracts see the polynomial that it stands for,
/// what its terms were transformed with, and how many they are.
#[derive(Drop)]
pub struct ProductSum {
    modulus: u64,
    root: u64,
    levels: u32,
    terms: u32,
    sums: Vec<u128>,
}

impl Model for ProductSum {
    ghost use Rattle.std.specs.Prelude.{◌≡◌, ◌^◌, length};
    ghost use Rattle.mod_ring.specs.Evaluated.{Gathered, evaluated};
    ghost use Rattle.mod_ring.specs.WideSums.{remainders, AreWithin};

    ghost Value = { Gathered };

    ghost view = { λ a. record {
      terms = a.terms;
      value = evaluated a.modulus a.root a.levels (remainders a.modulus a.sums.items);
    } };

    ghost invariant = { λ a. (length a.sums.items ≡ 2 ^ a.levels)
        × AreWithin a.terms a.sums.items };
}

impl ProductSum {
    /// The sum of no products.
    pub fn new(alloc: Global, ring: &Ring) -> Result<ProductSum, AllocError>
        ensures terms { IfOk result (λ s. s.terms ≡ 0) }
        ensures value { IfOk result (λ s. s.value.poly ≡ replicate ring.now.params.n 0) }
        ensures fits { IfOk result (λ s. EvaluatedFits ring.now.params s.value) }
    {
        let tables = ring.tables();
        let sums = vec![in alloc; 0; tables.length as usize]?;
        Ok(ProductSum {
            modulus: tables.modulus,
            root: tables.root,
            levels: tables.levels,
            terms: 0,
            sums,
        })
    }

    /// How many products it has.
    pub fn terms(&self) -> u32
        ensures { result ≡ self.now.terms }
    {
        self.terms
    }

    /// Adds the product of f and g.
    pub fn add_product(&mut self, _ring: &Ring, f: &Transformed, g: &Transformed)
        requires room { self.old.terms < 65536 }
        requires sum { EvaluatedFits _ring.now.params self.old.value }
        requires left { EvaluatedFits _ring.now.params f.now }
        requires right { EvaluatedFits _ring.now.params g.now }
        ensures terms { self.new.terms ≡ self.old.terms + 1 }
        ensures value { let q = _ring.now.params.q in let n = _ring.now.params.n in
            self.new.value.poly ≡
            ring_sum q n self.old.value.poly (ring_product q n f.now.poly g.now.poly) }
        ensures fits { EvaluatedFits _ring.now.params self.new.value }
    {
        add_products(
            self.terms,
            self.sums.as_mut_slice(),
            f.values.as_slice(),
            g.values.as_slice(),
        );
        self.terms += 1;
    }

    /// The polynomial: each entry is reduced, and the values are taken back, once.
    pub fn into_poly(self, alloc: Global, ring: &Ring) -> Result<Poly, AllocError>
        requires { EvaluatedFits ring.now.params self.value }
        ensures value { IfOk result (λ f. f ≡ self.value.poly) }
        ensures fits { IfOk result (λ f. Fits ring.now f) }
    {
        let mut coeffs = reduced(alloc, self.modulus, self.sums.as_slice())?;
        ring.tables().inverse(coeffs.as_mut_slice());
        Ok(Poly { coeffs })
    }
}
