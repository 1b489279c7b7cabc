//! What follows from the definitions of the BFV scheme; no function stands here.
//!
//! The draws are as small as they are said to be; a public key's noise, a fresh encryption's, a sum's;
//! and decryption gives the plaintext where the noise is at most the limit L. The argument is that of
//! Fan and Vercauteren 2012, section 3, with the rest r of q modulo t carried along, and it stands in
//! docs/MATHEMATICS.md. Bounds hold for every draw, not with high probability. Nothing is said
//! of hiding.
#![tactic(auto)]
