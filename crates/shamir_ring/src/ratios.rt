ghost use Rattle.std.specs.Prelude.{◌≡◌, ◌≢◌, ℕ, ◌*◌, ◌%◌, ◌^◌, ◌<◌, ◌≤◌, IsTrue, pos, ◌-ℤ◌};
ghost use Rattle.param_set.specs.Moduli.{indivisible};
ghost use Rattle.ring_spec.specs.Ring.{residue};
ghost use Rattle.share_spec.specs.Lagrange.{ratio as ratio_of, lagrange as coefficient_of};

use mod_inverse::inverse;
use proto_names::PartySet;

/// i - j modulo q.
#[tactic(auto, unfolding(ring_spec::specs::Ring::residue))]
fn difference(q: u64, i: u64, j: u64) -> u64
    requires left { i < q }
    requires right { j < q }
    requires few_bits { q ≤ 2 ^ 55 }
    ensures { result ≡ residue q (pos i -ℤ pos j) }
{
    if i < j { i + q - j } else { i - j }
}

/// x * y modulo q.
fn product(q: u64, x: u64, y: u64) -> u64
    requires { 0 < q }
    ensures { result ≡ x * y % q }
{
    (x as u128 * y as u128 % q as u128) as u64
}

/// i/(i - j) modulo q, for two points.
fn ratio(q: u64, i: u32, j: u32) -> u64
    requires few_bits { q ≤ 2 ^ 55 }
    requires no_small_divisor { IsTrue (indivisible q 31) }
    requires more { 32 < q }
    requires first { i ≤ 32 }
    requires second { j ≤ 32 }
    requires apart { i ≢ j }
    ensures { result ≡ ratio_of q j i }
{
    let i = u64::from(i);
    match inverse(q, difference(q, i, u64::from(j))) {
        Some(y) => product(q, i, y),
        None => 0,
    }
}

/// The Lagrange coefficient of party j at 0 for the points of a set: the product of i/(i - j) modulo q
/// over the members i other than j, and 0 where j is no member.
#[tactic(auto, using(crate::proofs::Quotient::one_by_one))]
pub fn lagrange(q: u64, set: PartySet, j: u32) -> u64
    requires few_bits { q ≤ 2 ^ 55 }
    requires more { 32 < q }
    requires no_small_divisor { IsTrue (indivisible q 31) }
    ensures value { result ≡ coefficient_of q set.bits j }
    ensures below { result < q }
{
    if !set.has(j) {
        return 0;
    }
    let mut value = 1;
    for place in 0..32u32 {
        let i = place + 1;
        if set.has(i) && i != j {
            value = product(q, value, ratio(q, i, j));
        }
    }
    value
}
