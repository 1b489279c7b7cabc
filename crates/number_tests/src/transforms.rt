//! Sums and products by transforms, against their definitions.

ghost use Rattle.std.specs.Prelude.{◌≡◌, ◌<◌, IfOk};
ghost use Rattle.ring_spec.specs.Ring.{IsPoly, ring_product};

use crate::schoolbook::{residue, schoolbook};
use ring_ntt::{NttFault, Tables};
use std::alloc::{AllocError, Global};
use std::process::Abort;
use std::test::Fail;

/// A modulus, a number whose n-th power is -1, and the length n. The last two moduli are composite.
const CASES: [(u64, u64, u64); 5] = [
    (17, 13, 2),
    (31525197391593473, 1791537114801093, 8),
    (31525197391593473, 17302343124140353, 64),
    (9839901637616593, 8145602877352104, 8),
    (6810591325885313, 5073007910005902, 64),
];

fn tables_for<R: Abort>(rt: &R, alloc: Global, q: u64, n: u64, psi: u64) -> Result<Tables, NttFault>
    ensures { IfOk result (λ t. (t.modulus ≡ q) × (t.length ≡ n)) }
{
    assert!(rt; q % 2 == 1);
    assert!(rt; q >= 3);
    assert!(rt; q <= 4611686018427387904);
    assert!(rt; n >= 2);
    assert!(rt; n <= 4096);
    assert!(rt; n.is_power_of_two());
    assert!(rt; psi < q);
    Tables::new(alloc, q, n, psi)
}

/// The product, in place of a: all that a caller needs stands in the contracts of the four calls.
fn multiply(tables: &Tables, a: &mut [u64], b: &mut [u64])
    requires left { IsPoly tables.now.modulus tables.now.length a.old }
    requires right { IsPoly tables.now.modulus tables.now.length b.old }
    ensures product { a.new ≡ ring_product tables.now.modulus tables.now.length a.old b.old }
    ensures left_length { IsPoly tables.now.modulus tables.now.length a.new }
{
    tables.forward(a);
    tables.forward(b);
    tables.multiply_into(a, b);
    tables.inverse(a);
}

/// n residues, each a multiple of the one before it.
pub(crate) fn sample(alloc: Global, q: u64, n: u64, first: u64) -> Result<Vec<u64>, AllocError>
    requires { 0 < q }
    ensures { IfOk result (λ f. IsPoly q n f.items) }
{
    let mut f = Vec::new(alloc);
    let mut x = first;
    'entries: for k in 0..n {
        x = residue(x, 6364136223846793005, q);
        f.push(x)?;
    }
    Ok(f)
}

/// X to the power `place`.
fn monomial(alloc: Global, q: u64, n: u64, place: u64) -> Result<Vec<u64>, AllocError>
    requires { 1 < q }
    ensures { IfOk result (λ f. IsPoly q n f.items) }
{
    let mut f = Vec::new(alloc);
    'entries: for k in 0..n {
        f.push(if k == place { 1 } else { 0 })?;
    }
    Ok(f)
}

/// The product of two samples by transforms.
fn by_transforms(alloc: Global, tables: &Tables, q: u64, n: u64) -> Result<Vec<u64>, AllocError>
    requires some { 0 < q }
    requires modulus { tables.now.modulus ≡ q }
    requires length { tables.now.length ≡ n }
{
    let mut a = sample(alloc, q, n, 3)?;
    let mut b = sample(alloc, q, n, 5)?;
    multiply(tables, a.as_mut_slice(), b.as_mut_slice());
    Ok(a)
}

/// Compares a product by transforms with the sums.
fn agrees<R: Abort>(rt: &R, alloc: Global, q: u64, psi: u64, n: u64) -> Result<bool, NttFault> {
    assert!(rt; q > 1);
    let tables = tables_for(rt, alloc, q, n, psi)?;
    let product = by_transforms(alloc, &tables, q, n)?;
    let f = sample(alloc, q, n, 3)?;
    let g = sample(alloc, q, n, 5)?;
    let sums = schoolbook(alloc, f.as_slice(), g.as_slice(), q)?;
    Ok(product.as_slice() == sums.as_slice())
}

/// The sum of two samples, added as values.
fn summed(alloc: Global, tables: &Tables, q: u64, n: u64) -> Result<Vec<u64>, AllocError>
    requires some { 0 < q }
    requires modulus { tables.now.modulus ≡ q }
    requires length { tables.now.length ≡ n }
{
    let mut a = sample(alloc, q, n, 3)?;
    let mut b = sample(alloc, q, n, 5)?;
    tables.forward(a.as_mut_slice());
    tables.forward(b.as_mut_slice());
    tables.add_into(a.as_mut_slice(), b.as_slice());
    tables.inverse(a.as_mut_slice());
    Ok(a)
}

/// Whether each entry is the sum of those of f and g.
fn are_sums(sum: &[u64], f: &[u64], g: &[u64], q: u64) -> bool
    requires { 0 < q }
{
    for (k, x) in sum.iter().enumerate() {
        let left = f.get(k).copied().unwrap_or(0);
        let right = g.get(k).copied().unwrap_or(0);
        if *x as u128 != (left as u128 + right as u128) % q as u128 {
            return false;
        }
    }
    sum.len() == f.len()
}

/// Compares a sum of values with the sum.
fn adds<R: Abort>(rt: &R, alloc: Global, q: u64, psi: u64, n: u64) -> Result<bool, NttFault> {
    assert!(rt; q > 1);
    let tables = tables_for(rt, alloc, q, n, psi)?;
    let sum = summed(alloc, &tables, q, n)?;
    let f = sample(alloc, q, n, 3)?;
    let g = sample(alloc, q, n, 5)?;
    Ok(are_sums(sum.as_slice(), f.as_slice(), g.as_slice(), q))
}

/// The product of X^(n-1) and X by transforms.
fn turned(alloc: Global, tables: &Tables, q: u64, n: u64) -> Result<Vec<u64>, AllocError>
    requires some { 1 < q }
    requires modulus { tables.now.modulus ≡ q }
    requires length { tables.now.length ≡ n }
    requires place { 0 < n }
{
    let mut a = monomial(alloc, q, n, n - 1)?;
    let mut b = monomial(alloc, q, n, 1)?;
    multiply(tables, a.as_mut_slice(), b.as_mut_slice());
    Ok(a)
}

/// Whether these are n coefficients of -1.
fn are_minus_one(product: &[u64], q: u64, n: u64) -> bool
    requires { 0 < q }
{
    for (k, x) in product.iter().enumerate() {
        if *x != (if k == 0 { q - 1 } else { 0 }) {
            return false;
        }
    }
    product.len() as u64 == n
}

/// Compares X^(n-1) times X with -1.
fn wraps<R: Abort>(rt: &R, alloc: Global, q: u64, psi: u64, n: u64) -> Result<bool, NttFault> {
    assert!(rt; q > 1);
    assert!(rt; n > 0);
    let tables = tables_for(rt, alloc, q, n, psi)?;
    let product = turned(alloc, &tables, q, n)?;
    Ok(are_minus_one(product.as_slice(), q, n))
}

#[test]
fn sums_and_products(rt: HostRuntime) -> Result<(), Fail> {
    for (q, psi, n) in CASES {
        assert!(rt; adds(&rt, rt.alloc(), q, psi, n)?, "modulo {q}");
        assert!(rt; agrees(&rt, rt.alloc(), q, psi, n)?, "modulo {q}");
        assert!(rt; wraps(&rt, rt.alloc(), q, psi, n)?, "modulo {q}");
    }
    Ok(())
}

#[test]
fn no_root(rt: HostRuntime) {
    let refused = tables_for(&rt, rt.alloc(), 17, 8, 4);
    assert!(rt; matches!(refused, Err(NttFault::NoRoot { value: 1 })));
}
