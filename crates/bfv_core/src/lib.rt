//! BFV ciphertexts: encryption, the operations that need no key, and the plaintext of a phase.
//!
//! After Fan and Vercauteren 2012: plaintexts are scaled by D = floor(q/t), a phase c0 + c1 * s is
//! rounded to the nearest multiple. Each call gives the value that `bfv_spec` defines, and what it
//! gives back fits the ring; `bfv_laws` proves what a ciphertext then carries and when rounding gives
//! it. `encrypt` draws u ternary, then e0, then e1, both small, from the place where the tape stands.
//! Nothing is said of hiding.
#![tactic(auto)]

mod cipher;
mod operations;
mod plain;

pub use cipher::{copied, encrypt, phase};
pub use mod_ring::{Ciphertext, PublicKey};
pub use operations::{add, mul_plain, neg, sub, trivial};
pub use plain::round_phase;
