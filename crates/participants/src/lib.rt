//! Who takes part in a new instance of a protocol.
//!
//! The load of a party is the number of opened instances that still wait for its share. Of the parties
//! that are present the first k take part, by rising load and, where loads are the same, by rising number:
//! so one slow party holds up as few instances as can be. Callers may rely on it that those who are
//! chosen are k members, each of whom comes before every member that is left, and that a new instance
//! raises the load of each of its parties by one. Who is present, and how large k is, is said elsewhere.
#![tactic(auto)]

mod choice;
mod counts;
pub mod laws;

pub use choice::{choose, pick};
pub use counts::Loads;
