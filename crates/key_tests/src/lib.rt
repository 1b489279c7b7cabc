//! The tests of `gadget_keys`, against digits worked out by hand and key switches by plain loops.
//!
//! They stand apart from the crate that they are about because a crate with tests is proved twice. No code stands
//! here, and nothing else uses this crate.
#![tactic(auto)]

#[cfg(test)]
mod digits;
#[cfg(test)]
mod plain_loops;
#[cfg(test)]
mod rings;
#[cfg(test)]
mod switches;
