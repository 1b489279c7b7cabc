//! The instances of a session with their briefs and their running sums.
//!
//! A `Table` has a place for each instance that was issued: what it is and how far it has come, the
//! brief that its parties are given, and the sum of the shares that were counted, row by row in the
//! ring R_q (Mouchet et al. 2021: the helper adds up shares and nothing else). Each call leaves all
//! other instances, their briefs and their sums as they were, and what becomes of the instance is
//! said by `proto_names`. Beside them it keeps those that aren't void, by which loads are counted
//! and parties picked, so that this takes no longer where many are void. Once there is room no
//! change takes memory. Nothing is said of who may send, of what a share has to be, or of when
//! instances are issued.
#![tactic(auto)]

mod attempts;
mod brief;
mod changes;
mod living;
mod numbered;
mod readers;
mod rows;
mod share;
mod table;

pub use brief::Brief;
pub use proto_names::{Instance, Stage};
pub use share::{Count, Share};
pub use table::Table;
