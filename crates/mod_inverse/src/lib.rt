//! The inverse of a residue modulo q, by the extended Euclidean algorithm.
//!
//! q need not be prime: there is an inverse exactly where the residue and q have no common divisor
//! but 1, and callers may rely on both directions (Euclid, Elements VII, 1 and 2; in the form with
//! factors Knuth, The Art of Computer Programming, volume 2, section 4.5.2). The time depends on the
//! residue, so it may not be a secret.
#![tactic(auto)]

mod euclid;

pub use euclid::inverse;
