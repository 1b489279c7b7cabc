//! The script of a session: what it asks for, read from its bytes.
//!
//! A script is lines of words that give the parameters, the master seed, who is present, the circuits with
//! the values of their inputs, and the lanes of those that act, as docs/FORMATS.md says. `read_script`
//! answers the script that `specs/Scripts.antt` defines, or the first line that breaks a rule with the
//! first reason in the order of `Reason`, and nothing else but for want of memory. Of each script that is
//! read callers may rely on what `IsAccepted` of `specs/Kept.antt` says without the grammar: its numbers are
//! checked, its parties rise, its circuits, their inputs and rotations, its lanes and their lines are within
//! their limits and keep their rules; and `specs/Sections.antt` says in which order its statements stand. No
//! line is copied. What a script means is not said here.
#![tactic(auto)]

mod checks;
mod circuit_name;
mod circuit_statements;
mod frame;
mod head_statements;
mod lane_statements;
mod lanes;
mod language;
mod lines;
mod named_circuit;
mod named_circuits;
mod node_list;
mod node_statements;
mod place;
mod reason;
mod words;

pub use lanes::{Lane, Lanes};
pub use language::{Script, read_script};
pub use named_circuit::NamedCircuit;
pub use named_circuits::NamedCircuits;
pub use reason::{Reason, ScriptStop};
pub use session_rules::Line;
