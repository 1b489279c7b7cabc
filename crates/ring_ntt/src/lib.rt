//! Products in Z_q[X]/(X^n+1) by number-theoretic transforms.
//!
//! `Tables` holds the powers of a root psi with psi^n = -1 modulo q. `forward` takes a polynomial to
//! its values at the odd powers of psi, `inverse` takes it back, and between them sums and products of
//! polynomials are those of their entries, `add_into` and `multiply_into`. What a list of values stands for
//! is its `inverse_transform`, so a polynomial may be kept as its values. The steps are those of Harvey,
//! "Faster arithmetic for number-theoretic transforms" (2014): butterflies in place, with no division and
//! no allocation; docs/MATHEMATICS.md has the argument. Callers may rely on the exact values and on the
//! laws of sums and products, for every odd q up to 2^62, prime or not. Nothing is said of time.
#![tactic(auto)]

mod backward;
mod fault;
mod forward;
mod tables;
mod twiddles;
mod words;

pub use fault::NttFault;
pub use tables::Tables;
