//! One run of each lock.
ghost use Rattle.std.specs.Prelude.{◌≡◌, ◌<◌, ◌≤◌};
ghost use Rattle.turn_lock.specs.Passes.{id_of, lock_of};

use crate::count::{Count, Step};
use std::alloc::Global;
use std::sync::{Mutex, Wait};
use std::thread::Threads;
use std::time::{Clock, Instant};
use std::{io, thread};
use turn_lock::{Pass, Passes, TurnLock};

fn take_turns<R: Wait>(rt: &R, lock: &TurnLock<Count>, pass: &mut Pass<Count>, turns: u64)
    requires { lock_of pass.old ≡ id_of lock.now }
{
    'turns: for _ in 0..turns {
        let number = pass.number();
        lock.take_turn(rt, pass, Step { number });
    }
}

fn lock_often<R: Wait>(rt: &R, lock: &Mutex<Count>, turns: u64) {
    for _ in 0..turns {
        let mut count = lock.lock(rt);
        count.turns = count.turns.wrapping_add(1);
    }
}

/// How long it takes, in nanoseconds, where each of so many threads takes its turns.
pub fn turn_nanos<R: Threads + Wait + Sync + Clock>(
    rt: &R,
    alloc: Global,
    threads: u32,
    turns: u64,
) -> io::Result<u128>
    requires { (1 ≤ threads) × (threads ≤ 64) }
{
    let (lock, passes) = TurnLock::new(alloc, Count { turns: 0 }, threads)?;
    let Passes { mut list } = passes;
    let shared = &lock;
    let start = Instant::now(rt)?;
    thread::for_each_mut(
        rt,
        list.as_mut_slice(),
        threads as usize,
        &|_: usize, pass: &mut Pass<Count>|
            requires { lock_of pass.old ≡ id_of shared.now }
        { take_turns(rt, shared, pass, turns) },
    );
    Ok(start.elapsed(rt)?.as_nanos())
}

/// The same for a mutex.
pub fn mutex_nanos<R: Threads + Wait + Sync + Clock>(
    rt: &R,
    alloc: Global,
    threads: u32,
    turns: u64,
) -> io::Result<u128>
    requires { 1 ≤ threads }
{
    let lock = Mutex::new(Count { turns: 0 });
    let mut places = vec![in alloc; 0u8; threads as usize]?;
    let start = Instant::now(rt)?;
    thread::for_each_mut(
        rt,
        places.as_mut_slice(),
        threads as usize,
        &|_: usize, _: &mut u8| lock_often(rt, &lock, turns),
    );
    Ok(start.elapsed(rt)?.as_nanos())
}
