//! Bytes in and bytes out: the edge between a program and the world.
//!
//! A [`Source`] gives bytes and a [`Sink`] takes them, in the manner of std's `Read` and `Write`,
//! but with one plain answer for every failure, and with a count of failures that contracts see.
//! So a caller may rely on this: a fault is answered exactly where the object that was called counted
//! one in that very call, and a failed call moves no byte. [`read_all`] and [`write_all`] are exact
//! about which bytes went over, also where they stop midway, and answer no failure by another cause.
//!
//! A source or sink over memory tells its bytes, and those over std's traits tell none: what a file
//! or a terminal gives and takes is left to the system, and nothing is claimed of it.
#![tactic(auto)]

mod mem_sink;
mod mem_source;
mod reading;
mod sink;
mod source;
mod std_sink;
mod std_source;
mod writing;

pub use mem_sink::MemSink;
pub use mem_source::MemSource;
pub use reading::{ReadStop, read_all};
pub use sink::Sink;
pub use source::{Failed, Source};
pub use std_sink::StdSink;
pub use std_source::StdSource;
pub use writing::{WriteFault, write_all};
