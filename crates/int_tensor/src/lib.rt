//! Exact products of polynomials over the whole numbers modulo X^n+1, and scaling with rounding.
//!
//! `int_mul` multiplies two lists of n whole numbers below 2^54 in absolute value: a coefficient of the product is
//! below 2^120, so it is known by its residues modulo two primes of 62 bits, and these come from transforms. The two
//! residues are joined by Garner's rule (Knuth, The Art of Computer Programming, volume 2, section 4.3.2), with no
//! division of 128 bits. `scale_round` takes x to the whole number nearest to t*x/q, as products of ciphertexts ask
//! (Fan and Vercauteren 2012, section 4). Callers may rely on the exact values of `tensor_spec`'s definitions. Nothing
//! is said of time.
#![tactic(auto)]

mod joins;
mod products;
mod rounding;
mod small;
mod wide;

pub use products::{int_mul, int_mul_by};
pub use rounding::scale_round;
pub use wide::Wide;
