//! What noise the evaluation keys have that honest shares make together.
//!
//! After Mouchet et al. 2021: where T parties take part with parts that sum to the secret s, the sums of their shares
//! are a switch key for s with X^e for X, with noise of size at most T * B in each row, and those of both rounds one
//! for s^2, with at most T * B * (n * (N + T) + 2), where s has size at most N. It holds for every modulus, every n
//! and every gadget. An honest share has its number of rows, each of the ring. Nothing is said of parties that send
//! other shares.
#![tactic(auto)]

pub mod laws;
