//! What a session has at a moment: the state of `session_rules`, with its polynomials.
//!
//! A `Standing` has the parties that are present, the table of instances, the inputs that are given, and how far
//! each circuit has come, each with the polynomials that belong to it. Its calls are those of a session without
//! the caller's log: each answers the reply of the rules and leads to their state, whatever the shares were; the
//! rows of a counted share are added to the sums of its instance alone, and an instance that is issued begins
//! with zeros. Where memory is wanting nothing has changed. That the polynomials are those of honest parties is
//! said in `session_core`, where it is known what calls bring.
#![tactic(auto)]

mod circuits;
mod completing;
mod finishing;
mod giving;
mod handed;
mod issuing;
mod joining;
mod losing;
mod opening;
mod owing;
mod places;
mod readers;
mod returning;
mod sharing;
mod standing;
mod working;

pub use circuits::{Circuits, Offered};
pub use handed::{Briefing, Listing, Taking};
pub use places::Places;
pub use standing::Standing;
