//! Names that the protocols share: signatures, instances, sets of parties, the groups that hold the
//! secret one after the other, and the streams of draws.
//!
//! A `Signature` names a protocol and what it is for; an `Instance` is one run of it by some parties.
//! A `PartySet` is the bits of a number, of which bit p - 1 stands for party p, 1 to 32. An instance
//! of a protocol and an input of a circuit each have a stream of their own: callers may rely on it
//! that no two of them share one, so that no word of a seed is drawn twice. Which instances are run
//! when is said elsewhere.
#![tactic(auto)]

mod group;
mod instance;
mod sets;
mod signature;
mod steps;
mod streams;

pub use group::{Group, Groups};
pub use instance::{Instance, Stage};
pub use sets::PartySet;
pub use signature::{Signature, rows_of};
pub use steps::{after_loss, counted_at, find, fresh, given_up, lacks, missing, with_share};
pub use streams::{input_stream, instance_stream};
