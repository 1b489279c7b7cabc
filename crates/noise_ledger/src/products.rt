ghost use Rattle.std.specs.Prelude.{◌≡◌, ◌^◌, ◌≤◌};
ghost use Rattle.param_set.specs.Numbers.{numbers_of};
ghost use Rattle.noise_ledger.specs.Bounds.{weight, wraps, crossed, rounding};

use param_set::Params;

/// n * N.
fn weight(params: &Params) -> u128
    ensures value { result ≡ weight (numbers_of params.now) }
    ensures small { result ≤ 131072 }
{
    params.n() as u128 * params.parties() as u128
}

/// K = n * N / 2 + 1.
fn wraps(params: &Params) -> u128
    ensures value { result ≡ wraps (numbers_of params.now) }
    ensures small { result ≤ 65537 }
{
    weight(params) / 2 + 1
}

/// n * (K + 1) * (t * (V1 + V2) + 2 * r * (t - 1)).
#[tactic(auto, using(crate::proofs::Sizes::crossed_small), unfolding(crate::specs::Bounds::crossed))]
pub(crate) fn crossed(params: &Params, v1: u128, v2: u128) -> u128
    requires left { v1 ≤ 2 ^ 55 }
    requires right { v2 ≤ 2 ^ 55 }
    ensures value { result ≡ crossed (numbers_of params.now) v1 v2 }
    ensures small { result ≤ 2 ^ 103 }
{
    let t = params.t() as u128;
    let noise = t * (v1 + v2) + 2 * params.rem() as u128 * (t - 1);
    params.n() as u128 * (wraps(params) + 1) * noise
}

/// (n * N + n^2 * N^2) / 2 + 1.
#[tactic(auto, unfolding(crate::specs::Bounds::rounding))]
pub(crate) fn rounding(params: &Params) -> u128
    ensures value { result ≡ rounding (numbers_of params.now) }
    ensures small { result ≤ 2 ^ 34 }
{
    let weight = weight(params);
    (weight + weight * weight) / 2 + 1
}
