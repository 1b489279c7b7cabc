//! Arithmetic modulo q on single words, with a division only where a factor or a modulus is made.
//!
//! A `Factor` is a residue w with the quotient that lets any word be multiplied by it modulo q, or the
//! product be divided by q, in three products (Shoup's product, in Harvey, "Faster arithmetic for
//! number-theoretic transforms", 2014).
//! A `Modulus` takes one word, or two, to their residue by the factors 1 and 2^64. Callers may rely on
//! the exact values for every q from 1 to 2^62, prime or not; the loops above make one of these before
//! they begin. Nothing is said of time.
#![tactic(auto)]

mod multiples;
mod residues;
mod words;

pub use multiples::Factor;
pub use residues::Modulus;
