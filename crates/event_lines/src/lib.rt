//! The lines of a report that tell the instances of a session and the entries of its log.
//!
//! An entry is printed as the caller, the call and the reply, an instance as its number, signature,
//! parties and attempt, and how far it has come (docs/FORMATS.md). Callers may rely on this: with
//! `Ok` a text grew by exactly the line that the definitions give, for every entry, instance and
//! digest, and with `Err`, which only want of memory gives, it is as it was. Nothing is said of the
//! digest: it is written as it stands, and that it is that of an instance's sums is for the caller.
#![tactic(auto)]

mod events;
mod instances;
mod lists;
mod names;

pub use events::{event_line, event_lines};
pub use instances::instance_line;
