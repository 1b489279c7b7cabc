//! Polynomials of the ring R_q = Z_q[X]/(X^n+1), and the pairs of them that ciphertexts and public
//! keys are.
//!
//! A `Poly` has n coefficients, each a residue from 0 to q - 1, lowest degree first, and contracts
//! see it as that list. Each operation gives the value that the ring's definition gives (Fan and
//! Vercauteren 2012, section 2), and what it gives back is a polynomial of the ring again. Products go by
//! the transforms of `ring_ntt`, whose tables a `Ring` holds. What is multiplied often is kept transformed, a
//! `Transformed`, and a `ProductSum` adds products of these, reduces once and goes back once; contracts see
//! both by the polynomial that they stand for. `phi` puts X^g for X. Every call has the condition that the
//! polynomials which it takes fit the ring. A `Ring` also lends tables modulo two fixed primes, for products
//! over the whole numbers. Nothing is said of time.
#![tactic(auto)]

mod entries;
mod fixed_primes;
mod pairs;
mod poly;
mod product_sum;
mod ring;
mod signs;
mod tabled;
mod transformed;
mod turns;
mod wide_sums;

pub use fixed_primes::whole_tables;
pub use mod_inverse::inverse;
pub use pairs::{Ciphertext, PublicKey};
pub use poly::{Poly, Polys};
pub use product_sum::ProductSum;
pub use ring::{
    Ring, add_into, add_into_row, mul, neg_into, of_residues, of_signed, scale_into, sub_into, zero,
};
pub use signs::{centre, residue_of};
pub use transformed::Transformed;
pub use turns::phi;
