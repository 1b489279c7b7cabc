ghost use Rattle.std.specs.Prelude.{◌≡◌, ℕ, ◌+◌, ◌*◌, ◌%◌, ◌^◌, ◌<◌, ◌≤◌, length, pos, ◌+ℤ◌, ◌-ℤ◌, ◌*ℤ◌, neg_ℤ};
ghost use Rattle.ring_spec.specs.Ring.{IsPoly, residue, ring_sum, ring_difference, ring_negative, ring_multiple};

use mod_word::Factor;

/// x + y modulo q, without a division.
#[tactic(auto, unfolding(ring_spec::specs::Ring::residue))]
fn sum_of(q: u64, x: u64, y: u64) -> u64
    requires modulus { q < 2 ^ 63 }
    requires left { x < q }
    requires right { y < q }
    ensures { result ≡ residue q (pos x +ℤ pos y) }
{
    let sum = x + y;
    if sum < q { sum } else { sum - q }
}

/// x - y modulo q, without a division.
#[tactic(auto, unfolding(ring_spec::specs::Ring::residue))]
fn difference_of(q: u64, x: u64, y: u64) -> u64
    requires modulus { q < 2 ^ 63 }
    requires left { x < q }
    requires right { y < q }
    ensures { result ≡ residue q (pos x -ℤ pos y) }
{
    if x < y { x + q - y } else { x - y }
}

/// -x modulo q.
#[tactic(auto, unfolding(ring_spec::specs::Ring::residue))]
pub(crate) fn negative_of(q: u64, x: u64) -> u64
    requires residue { x < q }
    ensures { result ≡ residue q (neg_ℤ (pos x)) }
{
    if x == 0 { 0 } else { q - x }
}

/// k * x modulo q, for the factor k.
#[tactic(auto, unfolding(ring_spec::specs::Ring::residue))]
fn multiple_of(factor: &Factor, x: u64) -> u64
    ensures { result ≡ residue factor.now.modulus (pos factor.now.residue *ℤ pos x) }
{
    factor.times(x)
}

/// Adds f to acc, entry by entry.
pub(crate) fn add_entries(q: u64, acc: &mut [u64], f: &[u64])
    requires modulus { q < 2 ^ 63 }
    requires left { IsPoly q (length acc.old) acc.old }
    requires right { IsPoly q (length acc.old) f.now }
    ensures { acc.new ≡ ring_sum q (length acc.old) acc.old f.now }
{
    for i in 0..acc.len() {
        acc[i] = sum_of(q, acc[i], f[i]);
    }
}

/// Subtracts f from acc, entry by entry.
pub(crate) fn sub_entries(q: u64, acc: &mut [u64], f: &[u64])
    requires modulus { q < 2 ^ 63 }
    requires left { IsPoly q (length acc.old) acc.old }
    requires right { IsPoly q (length acc.old) f.now }
    ensures { acc.new ≡ ring_difference q (length acc.old) acc.old f.now }
{
    for i in 0..acc.len() {
        acc[i] = difference_of(q, acc[i], f[i]);
    }
}

/// Makes each entry its negative.
pub(crate) fn neg_entries(q: u64, acc: &mut [u64])
    requires { IsPoly q (length acc.old) acc.old }
    ensures { acc.new ≡ ring_negative q (length acc.old) acc.old }
{
    for i in 0..acc.len() {
        acc[i] = negative_of(q, acc[i]);
    }
}

/// Multiplies each entry by k.
pub(crate) fn scale_entries(q: u64, acc: &mut [u64], k: u64)
    requires few_bits { q ≤ 2 ^ 62 }
    requires factor { k < q }
    ensures { acc.new ≡ ring_multiple q (length acc.old) k acc.old }
{
    let factor = Factor::new(q, k);
    for i in 0..acc.len() {
        acc[i] = multiple_of(&factor, acc[i]);
    }
}
