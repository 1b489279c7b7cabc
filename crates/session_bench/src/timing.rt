use crate::setting::Setting;
use crate::work::Work;
use std::alloc::{AllocError, Global};
use std::io;
use std::time::{Clock, Instant};

const ROUNDS: usize = 101;

/// Prints how many calls can be made in a second, by the median of the times of ROUNDS calls.
pub fn measure<R: Print + Clock + AllocGlobal>(
    rt: &R,
    setting: &mut Setting,
    work: Work,
    instances: u32,
) -> io::Result<()> {
    let mut times = Vec::new(rt.alloc());
    for _ in 0..ROUNDS {
        setting.prepare(rt.alloc(), work);
        let start = Instant::now(rt)?;
        setting.once(rt.alloc(), work);
        times.push(start.elapsed(rt)?.as_nanos())?;
    }
    times.sort_unstable();
    let name = work.name();
    let median = times.get(ROUNDS / 2).copied().unwrap_or(0).max(1);
    let rate = 1_000_000_000 / median;
    println!(rt; "{name} {instances} {rate}")
}
