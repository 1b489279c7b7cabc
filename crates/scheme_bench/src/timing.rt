use crate::setting::Setting;
use crate::work::Work;
use std::alloc::{AllocError, Global};
use std::io;
use std::time::{Clock, Instant};

const ROUNDS: usize = 101;

const REPEATS: u32 = 4;

/// Prints the median of a work's time over ROUNDS rounds, in nanoseconds, and the sum of what its rounds gave.
pub fn measure<R: Print + Clock + AllocGlobal>(
    rt: &R,
    setting: &mut Setting,
    work: Work,
) -> io::Result<()> {
    let mut times = Vec::new(rt.alloc());
    let mut sum = 0u64;
    for _ in 0..ROUNDS {
        let start = Instant::now(rt)?;
        let round = often(rt.alloc(), setting, work)?;
        times.push(start.elapsed(rt)?.as_nanos())?;
        sum = sum.wrapping_add(round);
    }
    times.sort_unstable();
    let name = work.name();
    let n = setting.n();
    let median = times.get(ROUNDS / 2).copied().unwrap_or(0) / REPEATS as u128;
    println!(rt; "{name} {n} {median} {sum}")
}

/// A work, REPEATS times over, and the sum of what it gave.
fn often(alloc: Global, setting: &mut Setting, work: Work) -> Result<u64, AllocError> {
    let mut sum = 0u64;
    for id in 0..REPEATS {
        sum = sum.wrapping_add(setting.once(alloc, work, id)?);
    }
    Ok(sum)
}
