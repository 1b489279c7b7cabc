//! Calls with honest shares, inputs and outputs keep the store of a session honest.
//!
//! For the states of `session_rules` and the stores of `session_spec`: the public key, the keys of a circuit that
//! is ready and each output are the same once they are there; an instance that is issued adds nothing; a share
//! that is counted makes the sums those of one more party; the last share of a decryption answers its circuit
//! with its plain value, where the circuits need no key switch. It holds for all parameters and for any order of
//! the calls. Nothing is said of parties that send other shares.
#![tactic(auto)]

pub mod laws;
