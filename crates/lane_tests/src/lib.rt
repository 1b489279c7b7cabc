//! The tests of lanes: at a desk whose call to finish a circuit meets no memory, behind a gate, and at a session.
//!
//! They stand apart from `lane_workers` because a crate with tests is proved twice. No code stands here, and nothing
//! else uses this crate.
#![tactic(auto)]

#[cfg(test)]
mod failing;
#[cfg(test)]
mod lanes;
#[cfg(test)]
mod setting;
#[cfg(test)]
mod short;
#[cfg(test)]
mod watching;
