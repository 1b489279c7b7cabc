//! Definitions of the ring Z_q[X]/(X^n+1), in which all work is done; no function stands here.
//!
//! A polynomial is a list of n coefficients, lowest degree first: residues from 0 to q - 1 where code
//! holds it, whole numbers where a law speaks of it. The product is the negacyclic one of Fan and
//! Vercauteren 2012, section 2. Contracts of the crates above cite these definitions, and
//! `ring_laws` proves what follows from them. Nothing here asks that q is prime.
#![tactic(auto)]
