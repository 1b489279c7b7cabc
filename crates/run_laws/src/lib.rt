//! What callers of a session do, seen from the rules alone.
//!
//! For the rules of `session_rules`: entries that follow tasks split as the tasks do; what one caller does alone
//! is the run of its tasks, and so is the serial course, in which parties join, lanes are served one after the
//! other and the session is settled. What a caller takes it ends, whoever else calls in between, so nothing stays
//! taken. And it makes few calls, so that a session that may make more never comes to its last one. Nothing is
//! said of how calls of several callers follow one another.
#![tactic(auto)]

pub mod laws;
