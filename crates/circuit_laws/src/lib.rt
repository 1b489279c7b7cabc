//! What the ciphertexts of a circuit carry: each node its plain value, within the ledger's bound.
//!
//! After Fan and Vercauteren 2012: where the inputs carry their values within the bound of a fresh
//! encryption, every node carries the polynomial that the plain circuit has there, within the bound that
//! `noise_ledger` computes, and the output of an admitted circuit leaves room for the flood of each party
//! that decrypts, as many as the ledger is asked with. It holds for all parameters and all circuits, by any
//! switch keys for the rotations and the full products that stand in them; a circuit without these needs no
//! key, and its ciphertexts are the same under any. Nothing is said of who makes the inputs and the keys.
#![tactic(auto)]

pub mod laws;
