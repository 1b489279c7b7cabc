ghost use Rattle.std.specs.Prelude.{◌≡◌, ℕ, ◌*◌, ◌^◌, ◌<◌, ℤ};
ghost use Rattle.ring_spec.specs.Ring.{centre as centre_of, residue};

/// The residue of x modulo q that is least in absolute value, for q odd.
#[tactic(auto, unfolding(ring_spec::specs::Ring::centre))]
pub fn centre(q: u64, x: u64) -> i64
    requires modulus { q < 2 ^ 63 }
    requires residue { x < q }
    ensures { result ≡ centre_of q x }
{
    if 2 * x < q {
        x as i64
    } else {
        x as i64 - q as i64
    }
}

/// The residue modulo q, from 0 to q - 1, of a whole number.
#[tactic(auto, unfolding(ring_spec::specs::Ring::residue))]
pub fn residue_of(q: u64, x: i64) -> u64
    requires modulus { 0 < q }
    ensures { result ≡ residue q x }
{
    let size = x.unsigned_abs();
    if x >= 0 {
        size % q
    } else {
        q - 1 - (size - 1) % q
    }
}
