//! Threshold sharing of a secret of the ring R_q among the parties 1 to N.
//!
//! Each party deals its part of the secret by a polynomial of degree T - 1 whose coefficients are
//! elements of R_q (Shamir 1979; over this ring Mouchet, Bertrand and Hubaux 2023). The share of party
//! j is the sum of what all parties deal to point j, and for any T parties the shares times the
//! Lagrange coefficients at 0 sum to the secret: `reconstruct` has that as its contract. Dealings of
//! several parties can be added up, since the value of the sum at a point is the sum of the values. q
//! need not be prime; it only has no divisor from 2 to 32. Nothing is said of what T - 1 shares hide, nor
//! of time.
#![tactic(auto)]

mod dealing;
mod parts;
mod ratios;
mod values;

pub use dealing::Dealing;
pub use parts::{additive, combine, reconstruct};
pub use ratios::lagrange;
