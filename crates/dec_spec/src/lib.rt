//! What a party's share of a decryption is; no function stands here.
//!
//! After Mouchet et al. 2021: for a ciphertext (c0, c1), a party with a part of the secret shares
//! c1 * part + f, with f wide enough to flood what the share would tell of the part. The part has its
//! Lagrange coefficient in it already, the flood never has one. f is drawn from the party's stream of
//! the instance alone. What such shares make together is said by `decrypt_protocol`; nothing is said
//! of hiding.
#![tactic(auto)]
