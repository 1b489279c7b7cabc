//! The ciphertext of each node of a circuit; no function stands here.
//!
//! After Fan and Vercauteren 2012: sums, differences and negatives part by part, products with a constant
//! on both parts, a constant as a ciphertext without noise, rotations and products of two ciphertexts by
//! the keys for them. The ciphertexts of the inputs and the keys are handed in. `is_switch_free` tells the
//! circuits that need neither rotation nor relinearisation keys. `circuit_laws` proves what an output of such
//! a circuit carries.
#![tactic(auto)]
