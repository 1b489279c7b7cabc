//! The evaluation of circuits on ciphertexts.
//!
//! A `Job` is a circuit with the ciphertexts of its inputs; `evaluate` walks over its nodes and gives the
//! ciphertext of the last one, by the rules that `cipher_spec` defines. After Fan and Vercauteren 2012:
//! sums, differences and negatives part by part, a product with a constant on both parts, a constant as a
//! ciphertext without noise. `circuit_laws` proves what the output then carries. Rotations and products of
//! two nodes neither of which is a constant aren't there: `is_switch_free` tells the circuits without them,
//! and only these are taken. Nothing is said of noise.
#![tactic(auto)]

mod free;
mod inputs;
mod job;
mod nodes;
mod steps;

pub use free::is_switch_free;
pub use inputs::Inputs;
pub use job::{Job, evaluate};
