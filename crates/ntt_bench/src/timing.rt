ghost use Rattle.std.specs.Prelude.{◌≡◌, ◌-◌, ◌%◌, ◌^◌, ◌≤◌, ◌<◌, IsTrue};
ghost use Rattle.std.specs.Int.{is_power_of_two};
ghost use Rattle.ring_spec.specs.Ring.{IsPoly};

use ring_ntt::Tables;
use std::io;
use std::time::{Clock, Instant};

const ROUNDS: usize = 101;

/// Prints the medians of a transform's time forward and back, in nanoseconds.
pub fn measure<R: Print + Clock + AllocGlobal>(rt: &R, q: u64, n: u64, psi: u64) -> io::Result<()>
    requires odd { q % 2 ≡ 1 }
    requires at_least_three { 3 ≤ q }
    requires small { q ≤ 2 ^ 62 }
    requires length { (2 ≤ n) × (n ≤ 4096) × IsTrue (is_power_of_two n) }
    requires residue { psi < q }
{
    let Ok(tables) = Tables::new(rt.alloc(), q, n, psi) else {
        return println!(rt; "no tables modulo {q} for {n} coefficients");
    };
    let mut a = vec![in rt.alloc(); 1; n as usize]?;
    let mut onward = Vec::new(rt.alloc());
    let mut back = Vec::new(rt.alloc());
    'rounds: for _ in 0..ROUNDS {
        let start = Instant::now(rt)?;
        forward_often(&tables, a.as_mut_slice());
        onward.push(start.elapsed(rt)?.as_nanos())?;
        let start = Instant::now(rt)?;
        inverse_often(&tables, a.as_mut_slice());
        back.push(start.elapsed(rt)?.as_nanos())?;
    }
    onward.sort_unstable();
    back.sort_unstable();
    println!(rt;
        "{q} {n} {} {}",
        onward.get(ROUNDS / 2).copied().unwrap_or(0) / 16,
        back.get(ROUNDS / 2).copied().unwrap_or(0) / 16
    )
}

fn forward_often(tables: &Tables, a: &mut [u64])
    requires { IsPoly tables.now.modulus tables.now.length a.old }
    ensures { IsPoly tables.now.modulus tables.now.length a.new }
{
    'repeats: for _ in 0..16u32 {
        tables.forward(a);
    }
}

fn inverse_often(tables: &Tables, a: &mut [u64])
    requires { IsPoly tables.now.modulus tables.now.length a.old }
    ensures { IsPoly tables.now.modulus tables.now.length a.new }
{
    'repeats: for _ in 0..16u32 {
        tables.inverse(a);
    }
}
