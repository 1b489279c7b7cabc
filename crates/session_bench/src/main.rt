//! Times calls of a session in which 10, 1,000 and 100,000 instances were issued, all but the last of them void.
//!
//! With the word `measure` it prints a line for each case: the call with its reply, how many instances were issued,
//! and how many such calls can be made in a second by the median of their times. With no word it only says what it
//! would measure.
#![tactic(auto)]

mod setting;
mod timing;
mod work;

use setting::Setting;
use std::{env, io};
use timing::measure;
use work::Work;

/// Whether a word is given.
fn is_given(rt: &HostRuntime, word: &str) -> io::Result<bool> {
    Ok(env::args(rt)?.skip(1).any(|given| given.as_str() == word))
}

fn measure_all(rt: &HostRuntime, instances: u32) -> io::Result<()> {
    let Some(mut setting) = Setting::new(rt.alloc(), instances)? else {
        return println!(rt; "no session with {instances} instances");
    };
    for work in Work::ALL {
        measure(rt, &mut setting, work, instances)?;
    }
    Ok(())
}

fn main(rt: HostRuntime) -> io::Result<()> {
    if is_given(&rt, "measure")? {
        measure_all(&rt, 10)?;
        measure_all(&rt, 1_000)?;
        measure_all(&rt, 100_000)
    } else {
        println!(rt;
            "times calls of a session with 10, 1,000 and 100,000 instances: give the word measure"
        )
    }
}
