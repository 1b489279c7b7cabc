//! The tests of the scheme, of the parties' protocols and of the table of instances, each against values from
//! outside.
//!
//! A file a subject, and in `common` the parameters of most. They stand apart from the crates that they are about
//! because a crate with tests is proved twice. No code stands here, and nothing else uses this crate.
#![tactic(auto)]

#[cfg(test)]
mod bounds;
#[cfg(test)]
mod ciphertexts;
#[cfg(test)]
mod circuits;
#[cfg(test)]
mod common;
#[cfg(test)]
mod decryption;
#[cfg(test)]
mod evaluation;
#[cfg(test)]
mod instances;
#[cfg(test)]
mod parties;
#[cfg(test)]
mod rules;
#[cfg(test)]
mod sharing;
