//! Times draws of polynomials, encryption, the share of a public key and that of a decryption, at 1024 and
//! 4096 coefficients, and the words of the generator alone.
//!
//! With the word `measure` it prints a line for each case: what was done, for how many coefficients or
//! words, the median in nanoseconds, and a sum over the results, by which they can be compared. With no
//! word it only says what it would measure. bench holds the same in plain Rust, and the script that runs
//! both.
#![tactic(auto)]

mod setting;
mod timing;
mod work;

use setting::Setting;
use std::{env, io};
use timing::measure;
use work::Work;

/// Whether a word is given.
fn is_given(rt: &HostRuntime, word: &str) -> io::Result<bool> {
    Ok(env::args(rt)?.skip(1).any(|given| given.as_str() == word))
}

fn measure_all(rt: &HostRuntime, n: u64) -> io::Result<()> {
    let Some(mut setting) = Setting::new(rt.alloc(), n)? else {
        return println!(rt; "no parameters with {n} coefficients");
    };
    for work in Work::ALL {
        measure(rt, &mut setting, work)?;
    }
    Ok(())
}

fn main(rt: HostRuntime) -> io::Result<()> {
    if is_given(&rt, "measure")? {
        measure_all(&rt, 1024)?;
        measure_all(&rt, 4096)
    } else {
        println!(rt;
            "times draws, encryption and shares at 1024 and 4096 coefficients: give the word measure"
        )
    }
}
