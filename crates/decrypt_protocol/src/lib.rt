//! The protocol for a decryption: a party's share, and the plaintext from the sum of the shares.
//!
//! After Mouchet et al. 2021: for a ciphertext (c0, c1), a party with part s of the secret and flood f
//! shares c1*s + f, and c0 with the sum of all shares is a phase, which is rounded. A share is the
//! value that `dec_spec` defines, with the words of that instance's stream alone. `dec_finish` gives
//! what the ciphertext carries wherever its noise and the floods together stay within the limit, for
//! whichever parties. That parties are honest is a premise there; nothing is said of hiding.
#![tactic(auto)]

mod finish;
mod share;

pub use finish::dec_finish;
pub use share::dec_share;
