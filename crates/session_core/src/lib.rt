//! The session of a helper: its calls, its log, and what is known of the polynomials that it keeps.
//!
//! A `Session` adds up the shares of the parties that act together, makes the common key, keeps encrypted inputs,
//! hands out circuits to evaluate and has their outputs decrypted (docs/SESSION.md). Each call appends one entry to
//! the log, whose reply is that of the rules; the log is a legal history, and readers tell the state after it. Where
//! the roll tells the parties' seeds, and calls bring honest shares, inputs and outputs, the sums of an instance are
//! those of one honest share of each party that has sent, and an answer is the circuit's plain value. For every roll
//! the sums are those of the rows that were delivered. A session has no call that gives it a party's seed.
#![tactic(auto)]

mod asking;
mod bringing;
mod entries;
mod joining;
mod logging;
mod opening;
mod readers;
mod session;
mod stop;
mod working;

pub use instance_table::{Brief, Instance, Share, Stage};
pub use session::Session;
pub use session_rules::{Call, CircuitState, Entry, Reply};
pub use session_state::{Briefing, Circuits, Listing, Offered, Taking};
pub use stop::Stop;
