ghost use Rattle.std.specs.Prelude.{◌≡◌, ℕ, ◌+◌, ◌*◌, ◌%◌, ◌^◌, ◌<◌, ◌≤◌, length, replicate, IfOk, IsTrue, slice_set, ◌-◌, pos, neg_ℤ};
ghost use Rattle.std.specs.Int.{is_power_of_two};
ghost use Rattle.mod_ring.specs.Fits.{Fits};
ghost use Rattle.ring_spec.specs.Ring.{IsPoly, residue, ring_turned};

use crate::entries::negative_of;
use crate::poly::Poly;
use crate::ring::{Ring, zero};
use std::alloc::{AllocError, Global};

/// place + step, where both count modulo 2n.
fn next_place(n: usize, place: usize, step: usize) -> usize
    requires degree { n ≤ 4096 }
    requires place { place < 2 * n }
    requires step { step < 2 * n }
    ensures { result ≡ (place + step) % (2 * n) }
{
    let sum = place + step;
    if sum < 2 * n { sum } else { sum - 2 * n }
}

/// Writes x to a place modulo 2n of n entries: places from n on are those from 0 with the sign changed.
fn put(q: u64, entries: &mut [u64], place: usize, x: u64)
    requires degree { length entries.old ≤ 4096 }
    requires place { place < 2 * length entries.old }
    requires residue { x < q }
    ensures low { place < length entries.old → entries.new ≡ slice_set entries.old place x }
    ensures high { length entries.old ≤ place → entries.new ≡
        slice_set entries.old (place - length entries.old) (residue q (neg_ℤ (pos x))) }
{
    let n = entries.len();
    if place < n {
        entries[place] = x;
    } else {
        entries[place - n] = negative_of(q, x);
    }
}

/// Writes each coefficient i of f to the place i * g modulo 2n. For g odd and n a power of two each entry is
/// written once.
fn turn_entries(q: u64, g: usize, entries: &mut [u64], f: &[u64])
    requires modulus { 0 < q }
    requires degree { (2 ≤ length entries.old) × (length entries.old ≤ 4096)
        × IsTrue (is_power_of_two (length entries.old)) }
    requires odd { g % 2 ≡ 1 }
    requires exponent { g < 2 * length entries.old }
    requires zeros { entries.old ≡ replicate (length entries.old) 0 }
    requires poly { IsPoly q (length entries.old) f.now }
    ensures { entries.new ≡ ring_turned q (length entries.old) g f.now }
{
    let mut place = 0;
    for i in 0..f.len() {
        put(q, entries, place, f[i]);
        place = next_place(f.len(), place, g);
    }
}

/// f with X^g for X, for an odd g below 2n.
pub fn phi(alloc: Global, ring: &Ring, g: u32, f: &Poly) -> Result<Poly, AllocError>
    requires odd { g % 2 ≡ 1 }
    requires exponent { g < 2 * ring.now.params.n }
    requires poly { Fits ring.now f.now }
    ensures value { IfOk result (λ h.
        h ≡ ring_turned ring.now.params.q ring.now.params.n g f.now) }
    ensures fits { IfOk result (λ h. Fits ring.now h) }
{
    let mut image = zero(alloc, ring)?;
    turn_entries(
        ring.params().q(),
        g as usize,
        image.coeffs.as_mut_slice(),
        f.coeffs(),
    );
    Ok(image)
}
