//! Measures turns a second at a turn lock, beside a plain mutex round the same value.
//! With no word it says what it measures; with the word `measure` it measures, with 1, 2 and 4 threads.
//! The value is a count, so that a turn costs little but the lock. Each number is the best of five runs.
//! Where more threads ask for processors than there are, runs differ by far, since a turn is handed to the next in line,
//! who may not be running then, and a mutex goes to whoever comes.
#![tactic(auto)]

mod count;
mod runs;

use runs::{mutex_nanos, turn_nanos};
use std::{env, io};

const TURNS: u64 = 1_000_000;

const RUNS: u32 = 5;

// How many turns a second, where `threads` threads took TURNS each.
fn rate(threads: u32, nanos: u128) -> u128 {
    let turns = threads as u128 * TURNS as u128;
    (turns * 1_000_000_000).checked_div(nanos).unwrap_or(0)
}

fn best(a: u128, b: u128) -> u128 {
    if a < b { a } else { b }
}

fn main(rt: HostRuntime) -> io::Result<()> {
    let asked = env::args(&rt)?
        .skip(1)
        .next()
        .is_some_and(|word| word.as_str() == "measure");
    if !asked {
        println!(rt;
            "lock_bench measure: turns a second at a turn lock and at a mutex, with 1, 2 and 4 threads"
        )?;
        return Ok(());
    }
    for threads in [1u32, 2, 4] {
        let mut turns = u128::MAX;
        let mut plain = u128::MAX;
        for _ in 0..RUNS {
            turns = best(turns, turn_nanos(&rt, rt.alloc(), threads, TURNS)?);
            plain = best(plain, mutex_nanos(&rt, rt.alloc(), threads, TURNS)?);
        }
        let lock = rate(threads, turns);
        let mutex = rate(threads, plain);
        let percent = plain
            .checked_mul(100)
            .and_then(|p| p.checked_div(turns))
            .unwrap_or(0);
        println!(rt; "{threads} threads: turn lock {lock}, mutex {mutex}, {percent} percent")?;
    }
    Ok(())
}
