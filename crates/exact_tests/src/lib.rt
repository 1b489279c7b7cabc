//! The tests of exact products and of rounding, each against values from outside.
//!
//! They stand apart from the crates that they are about because a crate with tests is proved twice. No code stands
//! here, and nothing else uses this crate.
#![tactic(auto)]

#[cfg(test)]
mod products;
#[cfg(test)]
mod rounding;
