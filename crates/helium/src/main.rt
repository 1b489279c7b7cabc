//! The program `helium`: the helper of a threshold multiparty BFV session, on the standard streams.
//!
//! All that it does is `run_words` of `helper_main`, with the words of the command line, standard
//! input as the source and standard output as the sink. It ends with the status's number. Words that
//! are not UTF-8 are words that the program doesn't take.
#![tactic(auto)]

use edge_io::{StdSink, StdSource};
use helper_main::{Status, run_words};
use std::process::ExitCode;
use std::rt::Env;
use std::{env, io};

/// The words of the command line behind the program's own name.
fn words<R: Env + AllocGlobal>(rt: &R) -> io::Result<Vec<String>> {
    let mut words = Vec::new(rt.alloc());
    for word in env::args(rt)?.skip(1) {
        words.push(word)?;
    }
    Ok(words)
}

fn main(rt: HostRuntime) -> ExitCode {
    let words = match words(&rt) {
        Ok(words) => words,
        Err(error) if error.kind() == io::ErrorKind::OutOfMemory => {
            return ExitCode::from(Status::Memory.number());
        }
        Err(_) => Vec::new(rt.alloc()),
    };
    let mut source = StdSource::new(rt.reader());
    let mut sink = StdSink::new(io::writer(&rt));
    let status = run_words(rt.alloc(), words.as_slice(), &mut source, &mut sink);
    ExitCode::from(status.number())
}
