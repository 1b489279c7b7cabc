//! What the answers of a session are: the plain values of its circuits.
//!
//! N parties hold a secret, and any T of them act. Where the keys are sums of T parties' honest shares, each
//! input is encrypted under the public key with the words of its owner's stream, and T parties' honest shares
//! of a decryption are summed, the decryption is the circuit's plain value: for all seeds, and for every
//! circuit that the noise ledger admits, asked with that T or a larger one. A circuit that needs no key switch
//! wants no key but the public one. It rests on what the output of a circuit carries (`circuit_laws`) and on
//! the noise of keys (`key_laws`). Nothing is said of hiding, nor of shares that aren't honest.
#![tactic(auto)]

pub mod laws;
