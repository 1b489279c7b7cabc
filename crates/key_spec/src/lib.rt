//! Definitions of the shares of evaluation keys, those of rotations and of relinearisation; no function stands here.
//!
//! After Mouchet et al. 2021: a rotation key takes one round, whose shares are those of a switch key for the
//! secret with X^e for X; the relinearisation key takes two, since no party can multiply the secret by itself.
//! All parties take part with parts that sum to the secret, and the key is a formula on the sums of their
//! shares. Which words of which stream a party's noise is drawn from is this project's own choice. `key_laws`
//! proves what noise the keys have; nothing is said of hiding.
#![tactic(auto)]
