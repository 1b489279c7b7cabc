//! Digits and key switches by their definitions, in plain loops.

use crate::rings::Q;
use mod_ring::Polys;
use std::alloc::{AllocError, Global};

/// What digits are: as many bits in each, as many rows, and whether they are balanced.
#[derive(Clone, Copy)]
pub(crate) struct Kind {
    pub(crate) base: i64,
    pub(crate) rows: usize,
    pub(crate) balanced: bool,
}

/// x, or its centre where digits are balanced.
fn whole(kind: Kind, x: u64) -> i64 {
    let size = i64::try_from(x).unwrap_or(0);
    if kind.balanced && x > Q / 2 {
        size.wrapping_sub(31_525_197_391_593_473)
    } else {
        size
    }
}

/// The lowest digit: from 0 to base - 1, or from -base/2 to base/2 - 1.
fn lowest(kind: Kind, x: i64) -> i64 {
    let digit = x.checked_rem(kind.base).unwrap_or(0);
    let half = kind.base / 2;
    if kind.balanced && digit < half.wrapping_neg() {
        digit.wrapping_add(kind.base)
    } else if kind.balanced && digit >= half {
        digit.wrapping_sub(kind.base)
    } else {
        digit
    }
}

/// The digit of a row, as a whole number: in the last row all that is left.
fn digit(kind: Kind, row: usize, x: u64) -> i64 {
    let mut rest = whole(kind, x);
    for _ in 0..row {
        rest = rest
            .wrapping_sub(lowest(kind, rest))
            .checked_div(kind.base)
            .unwrap_or(0);
    }
    if row.wrapping_add(1) == kind.rows {
        rest
    } else {
        lowest(kind, rest)
    }
}

/// The residue of a digit.
fn residue(x: i64) -> u64 {
    if x < 0 {
        Q.wrapping_sub(x.unsigned_abs())
    } else {
        x.unsigned_abs()
    }
}

/// The residues of the digits of a row.
fn digits(alloc: Global, kind: Kind, row: usize, f: &[u64]) -> Result<Vec<u64>, AllocError> {
    let mut digits = Vec::new(alloc);
    for x in f {
        digits.push(residue(digit(kind, row, *x)))?;
    }
    Ok(digits)
}

/// Adds x * y at a place of a polynomial modulo X^n + 1.
fn add_term(sums: &mut [u64], place: usize, x: u64, y: u64) {
    let n = sums.len();
    let term = (x as u128 * y as u128 % Q as u128) as u64;
    let (at, added) = if place < n {
        (place, term)
    } else {
        (place - n, Q - term)
    };
    if let Some(sum) = sums.get_mut(at) {
        *sum = ((*sum as u128 + added as u128) % Q as u128) as u64;
    }
}

/// Adds f * g, a pair of coefficients after the other.
fn add_product(sums: &mut [u64], f: &[u64], g: &[u64]) {
    for i in 0..f.len() {
        for j in 0..g.len() {
            add_term(sums, i.wrapping_add(j), f[i], g[j]);
        }
    }
}

/// The digits of each row times a polynomial of that row, summed up.
pub(crate) fn switched(
    alloc: Global,
    kind: Kind,
    f: &[u64],
    rows: &Polys,
) -> Result<Vec<u64>, AllocError> {
    let mut sums = vec![in alloc; 0; f.len()]?;
    for row in 0..rows.len() {
        let digits = digits(alloc, kind, row, f)?;
        add_product(
            sums.as_mut_slice(),
            digits.as_slice(),
            rows.at(row).coeffs(),
        );
    }
    Ok(sums)
}
