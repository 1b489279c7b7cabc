ghost use Rattle.std.specs.Prelude.{◌≡◌, ℕ, ◌*◌, ◌^◌, ◌<◌, ◌≤◌, length, unsigned_abs};
ghost use Rattle.ring_spec.specs.Ring.{residue};
ghost use Rattle.bfv_spec.specs.Drawn.{uniform_poly, small_poly, wide_poly, ternary_poly};
ghost use Rattle.word_tape.specs.Standing.{moved};

use mod_word::Modulus;
use word_tape::Tape;

/// The residue modulo q of a number between -q and q, without a division.
#[inline]
#[tactic(auto, unfolding(ring_spec::specs::Ring::residue))]
fn residue_within(q: u64, x: i64) -> u64
    requires { unsigned_abs x < q }
    ensures { result ≡ residue q x }
{
    let size = x.unsigned_abs();
    if x >= 0 { size } else { q - size }
}

/// Makes each entry a uniform draw modulo q.
pub(crate) fn fill_uniform(q: u64, entries: &mut [u64], tape: &mut Tape)
    requires modulus { 1 ≤ q }
    requires few_bits { q ≤ 2 ^ 62 }
    requires some { 1 ≤ length entries.old }
    ensures value { entries.new ≡ uniform_poly q (length entries.old) tape.old.seed tape.old.stream tape.old.next }
    ensures place { tape.new ≡ moved tape.old (4 * length entries.old) }
{
    let modulus = Modulus::new(q);
    for i in 0..entries.len() {
        entries[i] = tape.uniform_by(&modulus);
    }
}

/// Makes each entry the residue of a draw within `bound`.
pub(crate) fn fill_small(q: u64, bound: u64, entries: &mut [u64], tape: &mut Tape)
    requires modulus { bound < q }
    requires bound { bound ≤ 255 }
    requires some { 1 ≤ length entries.old }
    ensures value { entries.new ≡ small_poly q (length entries.old) bound tape.old.seed tape.old.stream tape.old.next }
    ensures place { tape.new ≡ moved tape.old (length entries.old) }
{
    let choices = Modulus::new(2 * bound + 1);
    for i in 0..entries.len() {
        entries[i] = residue_within(q, tape.small_by(bound, &choices));
    }
}

/// Makes each entry the residue of a draw of two words within `bound`.
pub(crate) fn fill_wide(q: u64, bound: u64, entries: &mut [u64], tape: &mut Tape)
    requires modulus { bound < q }
    requires bound { bound ≤ 2 ^ 40 }
    requires some { 1 ≤ length entries.old }
    ensures value { entries.new ≡ wide_poly q (length entries.old) bound tape.old.seed tape.old.stream tape.old.next }
    ensures place { tape.new ≡ moved tape.old (2 * length entries.old) }
{
    let choices = Modulus::new(2 * bound + 1);
    for i in 0..entries.len() {
        entries[i] = residue_within(q, tape.wide_by(bound, &choices));
    }
}

/// Makes each entry the residue of -1, 0 or 1.
pub(crate) fn fill_ternary(q: u64, entries: &mut [u64], tape: &mut Tape)
    requires modulus { 1 < q }
    requires some { 1 ≤ length entries.old }
    ensures value { entries.new ≡ ternary_poly q (length entries.old) tape.old.seed tape.old.stream tape.old.next }
    ensures place { tape.new ≡ moved tape.old (length entries.old) }
{
    for i in 0..entries.len() {
        entries[i] = residue_within(q, tape.ternary());
    }
}
