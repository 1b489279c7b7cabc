//! The rules of the given numbers, field by field.

ghost use Rattle.std.specs.Prelude.{◌≡◌, ◌↔◌, ◌<◌, ◌≤◌, IsTrue};
ghost use Rattle.param_set.specs.Moduli.{indivisible};
ghost use Rattle.param_set.specs.Rules.{SharesNoDivisor, within, is_degree, is_modulus, first_bad};

use crate::raw::{Field, RawParams};

fn is_within(least: u64, greatest: u64, x: u64) -> bool
    ensures { result ≡ within least greatest x }
{
    least <= x && x <= greatest
}

/// Whether none of 2 to 32 divides q, so that it has no common divisor above 1 with any of them.
#[tactic(auto, using(crate::proofs::Divisors::indivisible_shares, crate::proofs::Divisors::divided))]
fn has_no_small_factor(q: u64) -> bool
    ensures rule { result ≡ indivisible q 31 }
    ensures coprime { IsTrue result ↔ SharesNoDivisor q }
{
    'divisors: for k in 0..31u64 {
        if q % (k + 2) == 0 {
            return false;
        }
    }
    true
}

#[tactic(auto, unfolding(crate::specs::Rules::is_degree))]
fn is_degree(n: u64) -> bool
    ensures { result ≡ is_degree n }
{
    is_within(8, 4096, n) && n.is_power_of_two()
}

#[tactic(auto, unfolding(crate::specs::Rules::is_modulus))]
fn is_modulus(n: u64, q: u64) -> bool
    requires some { 0 < n }
    requires few { n ≤ 4096 }
    ensures { result ≡ is_modulus n q }
{
    is_within(1 << 40, (1 << 55) - 1, q) && q % (2 * n) == 1 && has_no_small_factor(q)
}

/// The first field that breaks its rule, in the order of `Field`.
#[tactic(auto, unfolding(crate::specs::Rules::first_bad))]
pub(crate) fn first_bad(raw: &RawParams) -> Option<Field>
    ensures { result ≡ first_bad raw.now }
{
    if !is_degree(raw.n) {
        Some(Field::N)
    } else if !is_modulus(raw.n, raw.q) {
        Some(Field::Q)
    } else if !is_within(2, 65537, raw.t) {
        Some(Field::T)
    } else if !is_within(2, raw.q - 1, raw.root) {
        Some(Field::Root)
    } else if !is_within(1, 16, raw.digit_bits) {
        Some(Field::DigitBits)
    } else if !is_within(1, 255, raw.err) {
        Some(Field::Err)
    } else if !is_within(0, 1 << 40, raw.flood) {
        Some(Field::Flood)
    } else if !is_within(1, 32, raw.parties) {
        Some(Field::Parties)
    } else if !is_within(1, raw.parties, raw.threshold) {
        Some(Field::Threshold)
    } else {
        None
    }
}
