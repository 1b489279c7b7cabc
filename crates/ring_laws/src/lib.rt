//! What follows from the definitions of the ring Z_q[X]/(X^n+1); no function stands here.
//!
//! Sums of whole numbers, the product of polynomials over them, residues, sizes, and the map that
//! takes X to X^g. The laws on lists of residues come from those on whole numbers, since two lists
//! are equal where the numbers that they stand for agree modulo q. Callers cite the lemmas of
//! `proofs`. Nothing here asks that q is prime or that n is a power of two, except where it is said.
#![tactic(auto)]
