//! Arithmetic on residues in single words.

ghost use Rattle.std.specs.Prelude.{◌≡◌, ◌+◌, ◌-◌, ◌*◌, ◌/◌, ◌%◌, ◌^◌, ◌<◌, ◌≤◌};
ghost use Rattle.ring_ntt.specs.Words.{quotient_of};

/// x * y modulo q by a division: for the making of tables alone.
pub(crate) fn product(x: u64, y: u64, q: u64) -> u64
    requires { 0 < q }
    ensures { result ≡ x * y % q }
{
    (x as u128 * y as u128 % q as u128) as u64
}

/// base^exponent modulo q, by squarings.
pub(crate) fn power(base: u64, exponent: u64, q: u64) -> u64
    requires { 1 < q }
    ensures { result ≡ base ^ exponent % q }
{
    let mut made = 1;
    let mut square = base % q;
    let mut rest = exponent;
    'squarings: while rest > 0 {
        if rest % 2 == 1 {
            made = product(made, square, q);
        }
        square = product(square, square, q);
        rest /= 2;
    }
    made
}

/// The quotient that `scaled` takes for multiples of w.
pub(crate) fn quotient(w: u64, q: u64) -> u64
    requires { w < q }
    ensures { result ≡ quotient_of q w }
{
    (w as u128 * 18446744073709551616 / q as u128) as u64
}

/// w * x modulo q, as a number below 2q, with no division. Shoup's product.
#[inline]
pub(crate) fn scaled(x: u64, w: u64, quotient: u64, q: u64) -> u64
    requires positive { 0 < q }
    requires small { q ≤ 2 ^ 62 }
    requires precomputed { quotient ≡ quotient_of q w }
    ensures below { result < 2 * q }
    ensures same { result % q ≡ w * x % q }
{
    let times = (quotient as u128 * x as u128) >> 64;
    (w as u128 * x as u128 - times * q as u128) as u64
}

/// The residue of a number below 2q.
#[inline]
pub(crate) fn lowered(x: u64, q: u64) -> u64
    requires { x < 2 * q }
    ensures { result ≡ x % q }
{
    if x >= q { x - q } else { x }
}

/// A number below 4q, brought below 2q.
#[inline]
pub(crate) fn halved(x: u64, q: u64) -> u64
    requires small { q ≤ 2 ^ 62 }
    requires within { x < 4 * q }
    ensures below { result < 2 * q }
    ensures same { result % q ≡ x % q }
{
    if x >= 2 * q { x - 2 * q } else { x }
}

/// The residue of a number below 4q.
#[inline]
pub(crate) fn reduced(x: u64, q: u64) -> u64
    requires small { q ≤ 2 ^ 62 }
    requires within { x < 4 * q }
    ensures { result ≡ x % q }
{
    lowered(halved(x, q), q)
}
