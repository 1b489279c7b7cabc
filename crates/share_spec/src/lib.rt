//! What threshold sharing over the ring is; no function stands here.
//!
//! A set of parties as the bits of a number, what a party deals and what each point gets of it, the
//! secret, and the Lagrange coefficients at 0 by which the shares of some parties become parts that
//! sum to the secret (Shamir 1979; over the ring R_q as in Mouchet, Bertrand and Hubaux 2023). That
//! they do is proved in `share_laws`.
#![tactic(auto)]
