//! Powers modulo q.

ghost use Rattle.std.specs.Prelude.{◌≡◌, ◌*◌, ◌%◌, ◌^◌, ◌<◌};

/// x * y modulo q.
fn product(x: u64, y: u64, q: u64) -> u64
    requires { 0 < q }
    ensures { result ≡ x * y % q }
{
    (x as u128 * y as u128 % q as u128) as u64
}

/// base^exponent modulo q, by squarings.
pub(crate) fn power(base: u64, exponent: u64, q: u64) -> u64
    requires { 1 < q }
    ensures { result ≡ base ^ exponent % q }
{
    let mut made = 1;
    let mut square = base % q;
    let mut rest = exponent;
    'squarings: while rest > 0 {
        if rest % 2 == 1 {
            made = product(made, square, q);
        }
        square = product(square, square, q);
        rest /= 2;
    }
    made
}
