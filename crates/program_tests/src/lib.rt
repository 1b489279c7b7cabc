//! The tests of reports and of the top call, each against values from outside.
//!
//! A file a subject. They stand apart from the crates that they are about because a crate with tests is proved
//! twice. No code stands here, and nothing else uses this crate.
#![tactic(auto)]

#[cfg(test)]
mod program;
#[cfg(test)]
mod reports;
