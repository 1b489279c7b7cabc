//! The tests of sessions: of what one has at a moment, and of its calls, each against values from outside.
//!
//! A file a subject, and in `common` what both begin with. They stand apart from the crates that they are about
//! because a crate with tests is proved twice. No code stands here, and nothing else uses this crate.
#![tactic(auto)]

#[cfg(test)]
mod common;
#[cfg(test)]
mod sessions;
#[cfg(test)]
mod standings;
