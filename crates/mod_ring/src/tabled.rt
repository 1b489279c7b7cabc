ghost use Rattle.std.specs.Prelude.{◌≡◌, IfOk};
ghost use Rattle.ring_spec.specs.Ring.{IsPoly, ring_product};

use crate::fixed_primes::whole_tables;
use param_set::Params;
use ring_ntt::{NttFault, Tables};
use std::alloc::{AllocError, Global};
use std::marker::Model;

/// Parameters, with the tables of the transforms by their psi, and those modulo two fixed primes for products
/// over the whole numbers. Contracts see the parameters alone.
#[derive(Drop)]
pub(crate) struct Tabled {
    params: Params,
    tables: Tables,
    first_whole: Tables,
    second_whole: Tables,
    ghost modulus: { tables.modulus ≡ params.q },
    ghost length: { tables.length ≡ params.n },
    ghost root: { tables.root ≡ params.psi },
    ghost first: { (first_whole.modulus ≡ 4611686018427322369) × (first_whole.length ≡ params.n) },
    ghost second: { (second_whole.modulus ≡ 4611686018427289601) × (second_whole.length ≡ params.n) },
}

impl Model for Tabled {
    ghost use Rattle.param_set.specs.declared.params.Params.{Params};

    ghost Value = { Params };

    ghost view = { λ a. a.params };
}

impl Tabled {
    /// psi^n is -1, so tables are never refused.
    pub(crate) fn new(alloc: Global, params: &Params) -> Result<Tabled, AllocError>
        ensures { IfOk result (λ tabled. tabled ≡ params.now) }
    {
        let (first_whole, second_whole) = whole_tables(alloc, params.n())?;
        match Tables::new(alloc, params.q(), params.n(), params.psi()) {
            Ok(tables) => Ok(Tabled {
                params: *params,
                tables,
                first_whole,
                second_whole,
            }),
            Err(NttFault::NoMemory) => Err(AllocError),
            Err(NttFault::NoRoot { .. }) => unreachable!(),
        }
    }

    pub(crate) fn params(&self) -> &Params
        ensures { result.now ≡ self.now }
    {
        &self.params
    }

    pub(crate) fn tables(&self) -> &Tables
        ensures modulus { result.now.modulus ≡ self.now.q }
        ensures degree { result.now.length ≡ self.now.n }
        ensures root { result.now.root ≡ self.now.psi }
    {
        &self.tables
    }

    /// The tables modulo two fixed primes.
    pub(crate) fn whole_tables(&self) -> (&Tables, &Tables)
        ensures first { (result.0.now.modulus ≡ 4611686018427322369) × (result.0.now.length ≡ self.now.n) }
        ensures second { (result.1.now.modulus ≡ 4611686018427289601) × (result.1.now.length ≡ self.now.n) }
    {
        (&self.first_whole, &self.second_whole)
    }

    /// The product of f and g: both go to their values, which are multiplied, and the product comes back.
    pub(crate) fn product(
        &self,
        alloc: Global,
        f: &[u64],
        g: &[u64],
    ) -> Result<Vec<u64>, AllocError>
        requires left { IsPoly self.now.q self.now.n f.now }
        requires right { IsPoly self.now.q self.now.n g.now }
        ensures { IfOk result (λ v. v.items ≡ ring_product self.now.q self.now.n f.now g.now) }
    {
        let mut values = f.to_vec(alloc)?;
        let mut others = g.to_vec(alloc)?;
        self.tables.forward(values.as_mut_slice());
        self.tables.forward(others.as_mut_slice());
        self.tables
            .multiply_into(values.as_mut_slice(), others.as_slice());
        self.tables.inverse(values.as_mut_slice());
        Ok(values)
    }
}
