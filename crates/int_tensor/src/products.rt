ghost use Rattle.std.specs.Prelude.{◌≡◌, ◌^◌, ◌<◌, ◌≤◌, length, IfOk, IsTrue};
ghost use Rattle.std.specs.Int.{is_power_of_two};
ghost use Rattle.ring_spec.specs.Ring.{IsPoly, residues, wrapped, signed, ring_product};
ghost use Rattle.tensor_spec.specs.Rounding.{int_product};
ghost use Rattle.int_tensor.specs.Moduli.{first_modulus, second_modulus};
ghost use Rattle.int_tensor.specs.Factors.{AreSmall};

use crate::joins::join_all;
use crate::small::small_residues;
use crate::wide::Wide;
use mod_ring::whole_tables;
use ring_ntt::Tables;
use std::alloc::{AllocError, Global};

/// The product of two polynomials of the tables' ring, in the memory of the first.
fn product_of_residues(tables: &Tables, mut values: Vec<u64>, mut others: Vec<u64>) -> Vec<u64>
    requires left { IsPoly tables.now.modulus tables.now.length values.items }
    requires right { IsPoly tables.now.modulus tables.now.length others.items }
    ensures { let t = tables.now in result.items ≡ ring_product t.modulus t.length values.items others.items }
{
    tables.forward(values.as_mut_slice());
    tables.forward(others.as_mut_slice());
    tables.multiply_into(values.as_mut_slice(), others.as_slice());
    tables.inverse(values.as_mut_slice());
    values
}

/// The residues of the product modulo the modulus of the tables.
#[tactic(auto, using(mod_ring::proofs::Fits::signed_ones))]
fn product_modulo(
    alloc: Global,
    tables: &Tables,
    f: &[i64],
    g: &[i64],
) -> Result<Vec<u64>, AllocError>
    requires modulus { 2 ^ 54 < tables.now.modulus }
    requires lengths { (length f.now ≡ tables.now.length) × (length g.now ≡ tables.now.length) }
    requires left { AreSmall f.now }
    requires right { AreSmall g.now }
    ensures { IfOk result (λ v. let t = tables.now in
        v.items ≡ residues t.modulus t.length (wrapped t.length (signed f.now) (signed g.now))) }
{
    let values = small_residues(alloc, tables.modulus, f)?;
    let others = small_residues(alloc, tables.modulus, g)?;
    Ok(product_of_residues(tables, values, others))
}

/// The product of f and g over the whole numbers, where X^n is -1.
///
/// Both have n coefficients, n a power of two from 8 to 4096, below 2^54 in absolute value. It makes its tables anew:
/// who multiplies often keeps them and calls `int_mul_by`.
pub fn int_mul(alloc: Global, f: &[i64], g: &[i64]) -> Result<Wide, AllocError>
    requires degree { let n = length f.now in (8 ≤ n) × (n ≤ 4096) × IsTrue (is_power_of_two n) }
    requires lengths { length g.now ≡ length f.now }
    requires left { AreSmall f.now }
    requires right { AreSmall g.now }
    ensures { IfOk result (λ product. product ≡ int_product (length f.now) f.now g.now) }
{
    let (first, second) = whole_tables(alloc, f.len() as u64)?;
    int_mul_by(alloc, &first, &second, f, g)
}

/// The same with the tables of `mod_ring::whole_tables`.
pub fn int_mul_by(
    alloc: Global,
    first: &Tables,
    second: &Tables,
    f: &[i64],
    g: &[i64],
) -> Result<Wide, AllocError>
    requires first { (first.now.modulus ≡ first_modulus) × (first.now.length ≡ length f.now) }
    requires second { (second.now.modulus ≡ second_modulus) × (second.now.length ≡ length f.now) }
    requires lengths { length g.now ≡ length f.now }
    requires left { AreSmall f.now }
    requires right { AreSmall g.now }
    ensures { IfOk result (λ product. product ≡ int_product (length f.now) f.now g.now) }
{
    let residues = product_modulo(alloc, first, f, g)?;
    let others = product_modulo(alloc, second, f, g)?;
    let entries = join_all(alloc, residues.as_slice(), others.as_slice())?;
    Ok(Wide { entries })
}
