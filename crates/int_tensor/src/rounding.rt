ghost use Rattle.std.specs.Prelude.{◌≡◌, ◌+◌, ◌*◌, ◌/◌, ◌^◌, ◌<◌, ◌≤◌, unsigned_abs};
ghost use Rattle.tensor_spec.specs.Rounding.{nearest};

/// The whole number nearest to t * a / q. The quotient and the rest of a are scaled apart, since t * a may be above
/// 2^128.
fn scaled_size(a: u128, t: u64, q: u64) -> u128
    requires number { a < 2 ^ 122 }
    requires factor { t ≤ 65537 }
    requires modulus { (2 ^ 40 ≤ q) × (q < 2 ^ 55) }
    ensures value { result ≡ (2 * t * a + q) / (2 * q) }
    ensures small { result < 2 ^ 100 }
{
    let q = q as u128;
    let t = t as u128;
    let whole = a / q;
    let rest = a - whole * q;
    t * whole + (2 * t * rest + q) / (2 * q)
}

/// The whole number nearest to t * x / q: that of the absolute value, with the sign of x. There is no tie where q is odd.
#[tactic(auto, unfolding(tensor_spec::specs::Rounding::nearest))]
pub fn scale_round(x: i128, t: u64, q: u64) -> i128
    requires number { unsigned_abs x < 2 ^ 122 }
    requires factor { t ≤ 65537 }
    requires modulus { (2 ^ 40 ≤ q) × (q < 2 ^ 55) }
    ensures { result ≡ nearest t q x }
{
    let size = scaled_size(x.unsigned_abs(), t, q) as i128;
    if x >= 0 { size } else { -size }
}
