//! A ticket lock round one value, with one history for all who take turns at it.
//! Each caller draws a ticket with a pass of its own, waits until that ticket is served, acts on the value, and serves the next.
//! The rule that it keeps: one caller at a time has the value, and every turn appends to the one history (`specs/Rule.antt`).
//! A caller may rely on this: its turn finds the value behind all that its pass has seen, and then entries of others alone;
//! who meets a note has then seen what the note's maker had; and at the end the value stands for the whole history.
//! It says nothing of how long a caller waits, of fairness, of the order of turns whose callers never met, or of time.
//! Tickets are counted modulo 2^64, and at most 64 are out at a time, so that they are never mixed up.
#![tactic(auto)]

mod kept;
mod lock;
mod pass;
mod passes;
mod rule;
mod turns;
mod view;

pub use kept::{Act, Kept};
pub use lock::TurnLock;
pub use pass::{Note, Pass, Passes};
pub use view::{Sight, Stage, View};
