ghost use Rattle.std.specs.Prelude.{◌≡◌, ◌-◌, ◌^◌, ◌<◌, ◌≤◌};
ghost use Rattle.param_set.specs.Numbers.{numbers_of};
ghost use Rattle.noise_ledger.specs.Bounds.{widest_digit, switched};

use param_set::Params;

/// W, which no digit passes in absolute value: 2^(b-1) where digits are balanced, else 2^b - 1.
#[tactic(auto, using(crate::proofs::Sizes::digit_is, crate::proofs::Sizes::digit_small))]
fn widest_digit(params: &Params) -> u64
    ensures value { result ≡ widest_digit (numbers_of params.now) }
    ensures small { result ≤ 65535 }
{
    let bits = params.digit_bits();
    if params.is_balanced() {
        1u64 << (bits - 1)
    } else {
        (1u64 << bits) - 1
    }
}

/// What a key switch adds at most, where each row of its key has noise of size at most `noise`.
#[tactic(auto, using(crate::proofs::Sizes::switched_small), unfolding(crate::specs::Bounds::switched))]
pub(crate) fn switched(params: &Params, noise: u128) -> u128
    requires { noise ≤ 2 ^ 31 }
    ensures value { result ≡ switched (numbers_of params.now) noise }
    ensures small { result ≤ 2 ^ 65 }
{
    let digits = params.rows() as u128 * params.n() as u128;
    digits * widest_digit(params) as u128 * noise
}
