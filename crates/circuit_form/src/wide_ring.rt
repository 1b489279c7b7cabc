ghost use Rattle.std.specs.Prelude.{◌≡◌, ◌-◌, ◌*◌, ◌%◌, ◌^◌, ◌<◌, ◌≤◌, IfOk, IsTrue};
ghost use Rattle.std.specs.Int.{is_power_of_two};
ghost use Rattle.ring_spec.specs.Ring.{IsPoly, ring_product};
ghost use Rattle.circuit_form.specs.Products.{wide_modulus};

use param_set::Params;
use ring_ntt::{NttFault, Tables};
use std::alloc::{AllocError, Global};
use std::marker::Model;

/// The fixed modulus p of the wide ring: 2^62 less a little, and 1 modulo 8192.
pub(crate) const MODULUS: u64 = 4_611_686_018_427_322_369;

/// A residue whose power 4096 is -1 modulo p.
const PSI: u64 = 3_391_169_269_051_246_823;

/// The ring Z_p\[X\]/(X^n+1), in which products of plaintexts are made. Contracts see n alone.
#[derive(Drop)]
pub(crate) struct WideRing {
    tables: Tables,
    ghost modulus: { tables.modulus ≡ wide_modulus },
}

impl Model for WideRing {
    ghost use Rattle.std.specs.Prelude.{ℕ};

    ghost Value = { ℕ };

    ghost view = { λ a. a.tables.length };
}

impl WideRing {
    /// The ring for these parameters' n. The root has the power -1, so tables are never refused.
    pub(crate) fn new(alloc: Global, params: &Params) -> Result<WideRing, AllocError>
        ensures { IfOk result (λ wide. wide ≡ params.now.n) }
    {
        match Tables::new(alloc, MODULUS, params.n(), root_for(params.n())) {
            Ok(tables) => Ok(WideRing { tables }),
            Err(NttFault::NoMemory) => Err(AllocError),
            Err(NttFault::NoRoot { .. }) => unreachable!(),
        }
    }

    /// The product of f and g: both go to their values, which are multiplied, and the product comes back.
    pub(crate) fn product(
        &self,
        alloc: Global,
        f: &[u64],
        g: &[u64],
    ) -> Result<Vec<u64>, AllocError>
        requires left { IsPoly wide_modulus self.now f.now }
        requires right { IsPoly wide_modulus self.now g.now }
        ensures { IfOk result (λ v. v.items ≡ ring_product wide_modulus self.now f.now g.now) }
    {
        let mut values = f.to_vec(alloc)?;
        let mut others = g.to_vec(alloc)?;
        self.tables.forward(values.as_mut_slice());
        self.tables.forward(others.as_mut_slice());
        self.tables
            .multiply_into(values.as_mut_slice(), others.as_slice());
        self.tables.inverse(values.as_mut_slice());
        Ok(values)
    }
}

/// A residue whose power n is -1: psi, squared once for each halving of 4096 down to n.
fn root_for(n: u64) -> u64
    requires { (2 ≤ n) × (n ≤ 4096) × IsTrue (is_power_of_two n) }
    ensures residue { result < wide_modulus }
    ensures root { result ^ n % wide_modulus ≡ wide_modulus - 1 }
{
    let mut root = PSI;
    let mut degree = 4096;
    'squarings: while degree > n {
        root = (root as u128 * root as u128 % MODULUS as u128) as u64;
        degree /= 2;
    }
    root
}
