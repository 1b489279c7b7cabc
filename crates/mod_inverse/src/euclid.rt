ghost use Rattle.std.specs.Prelude.{◌≡◌, ℕ, ◌+◌, ◌-◌, ◌*◌, ◌/◌, ◌%◌, ◌^◌, ◌<◌, ◌≤◌, ◌↔◌, IfSome, IsSome};
ghost use Rattle.std.specs.Int.{IsGcd};

/// A remainder of Euclid's algorithm on q and x, and a factor: factor * x leaves that remainder
/// modulo q.
#[derive(Clone, Copy)]
struct Step {
    remainder: u64,
    factor: u64,
}

/// The step below two steps.
fn next(q: u64, above: Step, here: Step) -> Step
    requires positive { 0 < here.remainder }
    requires modulus { q ≤ 2 ^ 55 }
    requires factor { above.factor < q }
    requires remainder { above.remainder ≤ q }
    requires other_factor { here.factor < q }
    ensures remainder { result.remainder ≡ above.remainder % here.remainder }
    ensures factor { result.factor ≡ (above.factor + (q - above.remainder / here.remainder * here.factor % q)) % q }
{
    let quotient = above.remainder / here.remainder;
    let taken = (quotient as u128 * here.factor as u128 % q as u128) as u64;
    Step {
        remainder: above.remainder % here.remainder,
        factor: (above.factor + (q - taken)) % q,
    }
}

/// The number y below q with x * y = 1 modulo q, and None where there is none.
pub fn inverse(q: u64, x: u64) -> Option<u64>
    requires residue { x < q }
    requires more_than_one { 1 < q }
    requires few_bits { q ≤ 2 ^ 55 }
    ensures below { IfSome result (λ y. y < q) }
    ensures inverse { IfSome result (λ y. x * y % q ≡ 1) }
    ensures exactly { IsSome result ↔ IsGcd x q 1 }
{
    let mut above = Step {
        remainder: q,
        factor: 0,
    };
    let mut here = Step {
        remainder: x,
        factor: 1,
    };
    while here.remainder != 0 {
        let below = next(q, above, here);
        above = here;
        here = below;
    }
    if above.remainder == 1 {
        Some(above.factor)
    } else {
        None
    }
}
