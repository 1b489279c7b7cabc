ghost use Rattle.std.specs.Prelude.{◌≡◌, ◌-◌, ◌*◌, ◌%◌, ◌^◌, ◌<◌, ◌≤◌, IfOk, IsTrue};
ghost use Rattle.std.specs.Int.{is_power_of_two};

use ring_ntt::{NttFault, Tables};
use std::alloc::{AllocError, Global};

/// Two primes of 62 bits that are 1 modulo 8192, whose product passes 2^123; and of each a residue whose power
/// 4096 is -1.
const PRIMES: (u64, u64) = (4_611_686_018_427_322_369, 4_611_686_018_427_289_601);

const ROOTS: (u64, u64) = (3_391_169_269_051_246_823, 814_482_755_461_094_628);

/// The tables of transforms modulo two fixed primes, for products over the whole numbers: a product of
/// polynomials with n coefficients is known by its residues modulo both where it is small.
pub fn whole_tables(alloc: Global, n: u64) -> Result<(Tables, Tables), AllocError>
    requires degree { (8 ≤ n) × (n ≤ 4096) × IsTrue (is_power_of_two n) }
    ensures first { IfOk result (λ t.
        (t.0.modulus ≡ 4611686018427322369) × (t.0.length ≡ n)) }
    ensures second { IfOk result (λ t.
        (t.1.modulus ≡ 4611686018427289601) × (t.1.length ≡ n)) }
{
    let first = tables_for(alloc, PRIMES.0, ROOTS.0, n)?;
    let second = tables_for(alloc, PRIMES.1, ROOTS.1, n)?;
    Ok((first, second))
}

/// Tables for n coefficients modulo q, by a psi with psi^4096 = -1: they are never refused.
fn tables_for(alloc: Global, q: u64, psi: u64, n: u64) -> Result<Tables, AllocError>
    requires modulus { (q % 2 ≡ 1) × (3 ≤ q) × (q ≤ 2 ^ 62) }
    requires residue { psi < q }
    requires root { psi ^ 4096 % q ≡ q - 1 }
    requires degree { (8 ≤ n) × (n ≤ 4096) × IsTrue (is_power_of_two n) }
    ensures { IfOk result (λ t. (t.modulus ≡ q) × (t.length ≡ n)) }
{
    match Tables::new(alloc, q, n, root_for(q, psi, levels_of(n))) {
        Ok(tables) => Ok(tables),
        Err(NttFault::NoMemory) => Err(AllocError),
        Err(NttFault::NoRoot { .. }) => unreachable!(),
    }
}

fn levels_of(n: u64) -> u32
    requires { (8 ≤ n) × (n ≤ 4096) × IsTrue (is_power_of_two n) }
    ensures whole { 2 ^ result ≡ n }
    ensures few { result ≤ 12 }
{
    n.trailing_zeros()
}

/// psi^(4096/n) for n = 2^levels: a residue whose n-th power is -1.
fn root_for(q: u64, psi: u64, levels: u32) -> u64
    requires above_one { 1 < q }
    requires few { levels ≤ 12 }
    requires residue { psi < q }
    requires root { psi ^ 4096 % q ≡ q - 1 }
    ensures residue { result < q }
    ensures root { result ^ (2 ^ levels) % q ≡ q - 1 }
{
    let mut root = psi;
    'squarings: for k in levels..12 {
        root = square(q, root);
    }
    root
}

/// x^2 modulo q.
fn square(q: u64, x: u64) -> u64
    requires { 0 < q }
    ensures { result ≡ x * x % q }
{
    (x as u128 * x as u128 % q as u128) as u64
}
