//! What those that act in a session do: each party gives its shares and its inputs, and circuits are evaluated.
//!
//! A session is settled by rounds (docs/SESSION.md): in each the parties that are present at its start send what
//! they owe, in the order of their numbers, and then all circuits that are ready are evaluated; rounds are made
//! while an admitted circuit isn't answered, six at most. In the serial run the lanes of a script are served before
//! that, one after the other, each with a hand of its own: what is in hand is the brief of an instance, from which the
//! share is made whenever it is given. Each function says of the entries that it adds to the log that caller 0 alone
//! made them, and which tasks they do, in the words of session_rules; where it stops, they are the first ones of
//! these, and it says which call is next and why that wasn't made. Where the roll tells the parties' seeds, what is
//! brought is what honest parties bring. Nothing is said of how much memory this takes.
#![tactic(auto)]

mod desk;
mod gate;
mod gated;
mod holding;
mod joining;
mod lanes;
mod sending;
mod serving;
mod settling;
mod working;

pub use desk::Desk;
pub use gate::{Gate, OpenGate};
pub use joining::serial;
pub use lanes::{Surroundings, run_lane, serve_lane};
pub use settling::settle;
