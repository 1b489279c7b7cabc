ghost use Rattle.std.specs.Prelude.{◌≡◌, ◌^◌, ◌<◌, ◌≤◌};
ghost use Rattle.param_set.specs.Moduli.{noise_limit};
ghost use Rattle.param_set.specs.Numbers.{numbers_of};
ghost use Rattle.noise_ledger.specs.Bounds.{numbers_for, limit, rotation_noise, relin_noise, input_bound, const_bound, sum_bound, neg_bound, plain_mul_bound, rot_bound, mul_bound, output_bound};

use crate::gadget::switched;
use crate::products::{crossed, rounding};
use param_set::Params;

/// F = B * (1 + n * (T + N)), of the encryption of an input.
pub fn input_bound(params: &Params) -> u128
    ensures value { result ≡ input_bound (numbers_of params.now) }
    ensures small { result < 2 ^ 104 }
{
    input_bound_for(params, params.threshold())
}

/// The same with another T.
#[tactic(auto, unfolding(crate::specs::Bounds::input_bound))]
pub(crate) fn input_bound_for(params: &Params, threshold: u64) -> u128
    requires { threshold ≤ 32 }
    ensures value { result ≡ input_bound (numbers_for params.now threshold) }
    ensures small { result < 2 ^ 104 }
{
    let parties = (threshold + params.parties()) as u128;
    params.err() as u128 * (1 + params.n() as u128 * parties)
}

/// 0, of a constant, whose ciphertext has no noise.
pub fn const_bound(_params: &Params) -> u128
    ensures { result ≡ const_bound }
{
    0
}

/// V1 + V2 + r, of a sum or a difference of nodes within V1 and V2, each at most L.
#[tactic(auto, unfolding(crate::specs::Bounds::sum_bound))]
pub fn sum_bound(params: &Params, v1: u128, v2: u128) -> u128
    requires left { v1 ≤ limit (numbers_of params.now) }
    requires right { v2 ≤ limit (numbers_of params.now) }
    ensures value { result ≡ sum_bound (numbers_of params.now) v1 v2 }
    ensures small { result < 2 ^ 104 }
{
    v1 + v2 + params.rem() as u128
}

/// V + r, of the negative of a node within V, at most L.
#[tactic(auto, unfolding(crate::specs::Bounds::neg_bound))]
pub fn neg_bound(params: &Params, v: u128) -> u128
    requires { v ≤ limit (numbers_of params.now) }
    ensures value { result ≡ neg_bound (numbers_of params.now) v }
    ensures small { result < 2 ^ 104 }
{
    v + params.rem() as u128
}

/// n * (t - 1) * (V + r), of the product of a constant and a node within V, at most L.
#[tactic(auto, unfolding(crate::specs::Bounds::plain_mul_bound))]
pub fn plain_mul_bound(params: &Params, v: u128) -> u128
    requires { v ≤ limit (numbers_of params.now) }
    ensures value { result ≡ plain_mul_bound (numbers_of params.now) v }
    ensures small { result < 2 ^ 104 }
{
    params.n() as u128 * (params.t() - 1) as u128 * (v + params.rem() as u128)
}

/// T * B, which bounds the noise of a row of a rotation key.
fn rotation_noise(params: &Params, threshold: u64) -> u128
    requires { threshold ≤ 32 }
    ensures value { result ≡ rotation_noise (numbers_for params.now threshold) }
    ensures small { result ≤ 8160 }
{
    threshold as u128 * params.err() as u128
}

/// T * B * (n * (N + T) + 2), which bounds the noise of a row of the relinearisation key.
fn relin_noise(params: &Params, threshold: u64) -> u128
    requires { threshold ≤ 32 }
    ensures value { result ≡ relin_noise (numbers_for params.now threshold) }
    ensures small { result ≤ 2 ^ 31 }
{
    let parties = (params.parties() + threshold) as u128;
    rotation_noise(params, threshold) * (params.n() as u128 * parties + 2)
}

/// V + r + l * n * W * T * B, of the rotation of a node within V, at most L.
pub fn rot_bound(params: &Params, v: u128) -> u128
    requires { v ≤ limit (numbers_of params.now) }
    ensures value { result ≡ rot_bound (numbers_of params.now) v }
    ensures small { result < 2 ^ 104 }
{
    rot_bound_for(params, params.threshold(), v)
}

/// The same with another T.
#[tactic(auto, unfolding(crate::specs::Bounds::rot_bound, crate::specs::Bounds::switched))]
pub(crate) fn rot_bound_for(params: &Params, threshold: u64, v: u128) -> u128
    requires few { threshold ≤ 32 }
    requires node { v ≤ limit (numbers_of params.now) }
    ensures value { result ≡ rot_bound (numbers_for params.now threshold) v }
    ensures small { result < 2 ^ 104 }
{
    v + params.rem() as u128 + switched(params, rotation_noise(params, threshold))
}

/// n * (K + 1) * (t * (V1 + V2) + 2 * r * (t - 1)) + (n * N + n^2 * N^2) / 2 + 1
/// + l * n * W * T * B * (n * (N + T) + 2), of the product of two nodes that aren't constants, within V1
/// and V2, each at most L. K = n * N / 2 + 1.
pub fn mul_bound(params: &Params, v1: u128, v2: u128) -> u128
    requires left { v1 ≤ limit (numbers_of params.now) }
    requires right { v2 ≤ limit (numbers_of params.now) }
    ensures value { result ≡ mul_bound (numbers_of params.now) v1 v2 }
    ensures small { result < 2 ^ 104 }
{
    mul_bound_for(params, params.threshold(), v1, v2)
}

/// The same with another T.
#[tactic(auto, unfolding(crate::specs::Bounds::mul_bound, crate::specs::Bounds::crossed, crate::specs::Bounds::rounding, crate::specs::Bounds::switched))]
pub(crate) fn mul_bound_for(params: &Params, threshold: u64, v1: u128, v2: u128) -> u128
    requires few { threshold ≤ 32 }
    requires left { v1 ≤ limit (numbers_of params.now) }
    requires right { v2 ≤ limit (numbers_of params.now) }
    ensures value { result ≡ mul_bound (numbers_for params.now threshold) v1 v2 }
    ensures small { result < 2 ^ 104 }
{
    let noise = relin_noise(params, threshold);
    crossed(params, v1, v2) + rounding(params) + switched(params, noise)
}

/// V + T * D_f, of what is decrypted, where the last node is within V, at most L.
pub fn output_bound(params: &Params, v: u128) -> u128
    requires { v ≤ limit (numbers_of params.now) }
    ensures value { result ≡ output_bound (numbers_of params.now) v }
    ensures small { result < 2 ^ 104 }
{
    output_bound_for(params, params.threshold(), v)
}

/// The same with another T.
#[tactic(auto, unfolding(crate::specs::Bounds::output_bound))]
pub(crate) fn output_bound_for(params: &Params, threshold: u64, v: u128) -> u128
    requires few { threshold ≤ 32 }
    requires node { v ≤ limit (numbers_of params.now) }
    ensures value { result ≡ output_bound (numbers_for params.now threshold) v }
    ensures small { result < 2 ^ 104 }
{
    v + threshold as u128 * params.flood() as u128
}
