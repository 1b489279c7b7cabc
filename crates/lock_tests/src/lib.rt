//! The test of the turn lock: two callers in threads of their own, whose turns stand in one history.
//!
//! It stands apart from the crate that it is about because a crate with tests is proved twice. The value that the test
//! keeps is here, and what a turn does to it: a list of sums that add up. Nothing else uses this crate.
#![tactic(auto)]

mod sums;
#[cfg(test)]
mod turns;

pub use sums::{Add, Pair, Sums, Told};
