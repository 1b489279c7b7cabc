//! Definitions of the BFV scheme: encryption, phase, decryption, what a ciphertext carries, keys.
//!
//! After Fan and Vercauteren 2012: plaintexts in R_t, ciphertexts in R_q, scaled by D = floor(q/t).
//! The share of the public key is that of Mouchet et al. 2021. Everything is a function of lists of
//! residues by `ring_spec`, so that noise is a polynomial that is handed in; the words of a stream
//! that give it are those of `draw_spec`. `bfv_laws` proves what follows. No function stands here,
//! and nothing is said of hiding.
#![tactic(auto)]
