//! The tests of what is read and written as text, from a script to the lines of its instances and calls, each against
//! values from outside.
//!
//! A file a subject. They stand apart from the crates that they are about because a crate with tests is proved
//! twice. `samples` has the scripts with which other tests begin too; nothing else uses this crate.
#![tactic(auto)]

mod samples;

pub use samples::{AT_LIMIT, ONE, PAST_LIMIT, SEED, THREE, read, script, script_in};

#[cfg(test)]
mod limits;
#[cfg(test)]
mod lines;
#[cfg(test)]
mod scripts;
