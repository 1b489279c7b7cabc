ghost use Rattle.std.specs.Prelude.{◌≡◌, ◌*◌, ◌%◌, ◌^◌, ◌<◌, ◌≤◌};

/// A number below 4q, brought below 2q.
#[inline]
pub(crate) fn halved(q: u64, x: u64) -> u64
    requires few_bits { q ≤ 2 ^ 62 }
    requires within { x < 4 * q }
    ensures below { result < 2 * q }
    ensures same { result % q ≡ x % q }
{
    if x < 2 * q { x } else { x - 2 * q }
}

/// The residue of a number below 2q.
#[inline]
pub(crate) fn lowered(q: u64, x: u64) -> u64
    requires { x < 2 * q }
    ensures { result ≡ x % q }
{
    if x < q { x } else { x - q }
}
