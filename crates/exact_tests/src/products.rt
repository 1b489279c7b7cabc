//! Products over the whole numbers, against their definition.

use int_tensor::int_mul;
use std::test::Fail;

/// The largest number that is below 2^54.
const MOST: i64 = 18_014_398_509_481_983;

#[test]
fn wraps_around_with_the_sign_changed(rt: HostRuntime) -> Result<(), Fail> {
    let x = [0, 1, 0, 0, 0, 0, 0, 0];
    let x7 = [0, 0, 0, 0, 0, 0, 0, 1];
    let product = int_mul(rt.alloc(), x.as_slice(), x7.as_slice())?;
    assert_eq!(rt; product.as_slice(), [-1, 0, 0, 0, 0, 0, 0, 0].as_slice());
    Ok(())
}

/// Coefficient k of the product: the sum of f_i * g_j over i + j = k, less that over i + j = k + n.
fn coefficient(f: &[i64], g: &[i64], k: usize) -> i128 {
    let mut sum: i128 = 0;
    for (i, x) in f.iter().enumerate() {
        let (j, sign) = if i <= k {
            (k - i, 1)
        } else {
            (f.len().saturating_sub(i - k), -1)
        };
        let y = g.get(j).copied().unwrap_or(0);
        let term = (*x as i128).wrapping_mul(y as i128);
        sum = sum.wrapping_add(term.wrapping_mul(sign));
    }
    sum
}

#[test]
fn multiplies_the_greatest_entries(rt: HostRuntime) -> Result<(), Fail> {
    let f = [MOST, -MOST, MOST, MOST, -MOST, MOST - 1, 1, -MOST];
    let g = [-MOST, -MOST, MOST, 2 - MOST, MOST, MOST, -1, MOST];
    let product = int_mul(rt.alloc(), f.as_slice(), g.as_slice())?;
    assert_eq!(rt; product.len(), 8);
    for (k, entry) in product.as_slice().iter().enumerate() {
        assert_eq!(rt; *entry, coefficient(f.as_slice(), g.as_slice(), k), "{k}");
    }
    Ok(())
}

/// Whether coefficient k is 2k + 2 - n times a square, for each k.
fn is_square_of_ones(product: &[i128], square: i128) -> bool {
    let mut next: i128 = 2_i128.wrapping_sub(product.len() as i128);
    for entry in product {
        if *entry != next.wrapping_mul(square) {
            return false;
        }
        next = next.wrapping_add(2);
    }
    true
}

#[test]
fn multiplies_many_of_the_greatest(rt: HostRuntime) -> Result<(), Fail> {
    let f = vec![in rt.alloc(); MOST; 4096]?;
    let product = int_mul(rt.alloc(), f.as_slice(), f.as_slice())?;
    let square = (MOST as i128).wrapping_mul(MOST as i128);
    assert_eq!(rt; product.len(), 4096);
    assert!(rt; is_square_of_ones(product.as_slice(), square));
    Ok(())
}
