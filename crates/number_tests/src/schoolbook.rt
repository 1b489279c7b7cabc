//! The product in Z_q[X]/(X^n+1) by its definition, a coefficient after the other.

ghost use Rattle.std.specs.Prelude.{◌≡◌, ◌<◌};

use std::alloc::{AllocError, Global};

/// x * y modulo q.
pub(crate) fn residue(x: u64, y: u64, q: u64) -> u64
    requires { 0 < q }
    ensures { result < q }
{
    (x as u128 * y as u128 % q as u128) as u64
}

/// Coefficient k: the sum of f_i * g_j over i + j = k, less that over i + j = k + n.
fn coefficient(f: &[u64], g: &[u64], k: usize, q: u64) -> u64
    requires { 0 < q }
{
    let mut sum = 0;
    for (i, x) in f.iter().enumerate() {
        let (j, wraps) = if i <= k {
            (k - i, false)
        } else {
            (f.len().saturating_sub(i - k), true)
        };
        let term = residue(*x, g.get(j).copied().unwrap_or(0), q);
        let signed = if wraps { q - term } else { term };
        sum = ((sum as u128 + signed as u128) % q as u128) as u64;
    }
    sum
}

/// The product of f and g, with a division for each pair of their coefficients.
pub(crate) fn schoolbook(
    alloc: Global,
    f: &[u64],
    g: &[u64],
    q: u64,
) -> Result<Vec<u64>, AllocError>
    requires { 0 < q }
{
    let mut product = Vec::new(alloc);
    for k in 0..f.len() {
        product.push(coefficient(f, g, k, q))?;
    }
    Ok(product)
}
