//! What follows from the definitions of the product of two ciphertexts.
//!
//! The rounding of t*x/q is the nearest whole number, and the only one as near where q is odd. Where two ciphertexts
//! carry plaintexts within noises small enough to be decrypted, their tensor carries the product of the plaintexts
//! within a bound from n, t, q, the noises and the secret's size, and relinearisation adds at most l * n * W * V to it
//! (Fan and Vercauteren 2012, section 4, in whole numbers and for all draws). It holds for every modulus that the gadget
//! serves, even or odd, and every n. Nothing is said of who makes the keys.
#![tactic(auto)]

pub mod laws;
