//! The top call of the program: words and a script's bytes in, a report's bytes out, and a status.
//!
//! `run_words` settles whether the words are accepted before anything is read; `run_serial` reads a
//! script from a source, runs its session by one caller and writes the report to a sink. What each status
//! says of the bytes that went over stands in `specs/Owed.antt`: with `Done`, what was written is the
//! report of the script that was read and of its serial history, whole, so that the script fixes each
//! value, digest and event. Want of memory alone is a status without a cause. The report is whole before
//! its first byte is written.
#![tactic(auto)]

mod owed;
mod parties;
mod report;
mod run;
mod status;
mod words;
mod work;

pub use run::{run_check, run_serial};
pub use status::Status;
pub use words::run_words;
pub use work::Work;
