//! Two callers take turns at a list of sums, each in a thread of its own.
ghost use Rattle.std.specs.Prelude.{◌≡◌};
ghost use Rattle.turn_lock.specs.Passes.{id_of, lock_of, seen, IsSamePass};
ghost use Rattle.lock_tests.specs.Sums.{IsSumIn};

use crate::sums::{Add, Sums};
use std::sync::Wait;
use std::test::Fail;
use std::thread;
use std::thread::Threads;
use turn_lock::{Pass, Passes, TurnLock};

// One turn. The caller knows a sum before, and then the sum that the turn came to.
fn turn<R: Wait>(rt: &R, lock: &TurnLock<Sums>, pass: &mut Pass<Sums>, known: u64) -> u64
    requires lock { lock_of pass.old ≡ id_of lock.now }
    requires known { IsSumIn (seen pass.old) known }
    ensures same { IsSamePass pass.old pass.new }
    ensures sum { IsSumIn (seen pass.new) result }
{
    let number = pass.number();
    match lock.take_turn(rt, pass, Add { number, known }) {
        Some(told) => told.sum,
        None => known,
    }
}

// Takes two turns.
fn take_two<R: Wait>(
    rt: &R,
    lock: &TurnLock<Sums>,
    mut pass: Pass<Sums>,
    known: u64,
) -> (Pass<Sums>, u64)
    requires lock { lock_of pass ≡ id_of lock.now }
    requires known { IsSumIn (seen pass) known }
    ensures same { IsSamePass pass result.0 }
    ensures sum { IsSumIn (seen result.0) result.1 }
{
    let sum = turn(rt, lock, &mut pass, known);
    let sum = turn(rt, lock, &mut pass, sum);
    (pass, sum)
}

// Each pass takes two turns, in a thread of its own. Both begin with a sum that both have seen.
fn round<R: Threads + Wait + Sync>(
    rt: &R,
    lock: &TurnLock<Sums>,
    first: Pass<Sums>,
    second: Pass<Sums>,
    known: u64,
) -> ((Pass<Sums>, u64), (Pass<Sums>, u64))
    requires first { lock_of first ≡ id_of lock.now }
    requires second { lock_of second ≡ id_of lock.now }
    requires known_first { IsSumIn (seen first) known }
    requires known_second { IsSumIn (seen second) known }
    ensures same { IsSamePass first result.0.0 × IsSamePass second result.1.0 }
    ensures sum_first { IsSumIn (seen result.0.0) result.0.1 }
    ensures sum_second { IsSumIn (seen result.1.0) result.1.1 }
{
    thread::join(
        rt,
        || -> (Pass<Sums>, u64)
            requires lock { lock_of first ≡ id_of lock.now }
            requires known { IsSumIn (seen first) known }
            ensures same { IsSamePass first result.0 }
            ensures sum { IsSumIn (seen result.0) result.1 }
        { take_two(rt, lock, first, known) },
        || -> (Pass<Sums>, u64)
            requires lock { lock_of second ≡ id_of lock.now }
            requires known { IsSumIn (seen second) known }
            ensures same { IsSamePass second result.0 }
            ensures sum { IsSumIn (seen result.0) result.1 }
        { take_two(rt, lock, second, known) },
    )
}

#[test]
fn two_callers_make_eight_pairs(rt: HostRuntime) -> Result<(), Fail> {
    let value = Sums {
        pairs: Vec::with_capacity(rt.alloc(), 8)?,
    };
    let (lock, passes) = TurnLock::new(rt.alloc(), value, 2)?;
    let Passes { mut list } = passes;
    let second = list.pop().unwrap();
    let first = list.pop().unwrap();
    let ((mut first, sum), (mut second, _)) = round(&rt, &lock, first, second, 0);
    let note = lock.note(&mut first);
    lock.meet(&mut second, note);
    let ((first, of_first), (second, of_second)) = round(&rt, &lock, first, second, sum);
    list.push(first)?;
    list.push(second)?;
    let value = lock.close(Passes { list });
    // No caller was told more than the sum at the end, and the last one was told just that.
    let total = value.total();
    let since_first = total - of_first;
    let since_second = total - of_second;
    assert_eq!(rt; value.pairs.len(), 8);
    assert_eq!(rt; total, 12);
    assert_eq!(rt; since_first.min(since_second), 0);
    let mut made: u64 = 0;
    for pair in value.pairs.as_slice() {
        if pair.number == 1 {
            made = made.wrapping_add(1);
        }
    }
    assert_eq!(rt; made, 4);
    Ok(())
}
