ghost use Rattle.std.specs.Prelude.{◌≡◌, ℕ, ◌*◌, ◌^◌, ◌≤◌, IfOk, OnOk, OnErr};
ghost use Rattle.mod_ring.specs.Fits.{Fits};
ghost use Rattle.bfv_spec.specs.Drawn.{uniform_poly, small_poly, wide_poly, ternary_poly};
ghost use Rattle.word_tape.specs.Standing.{moved};

use crate::fill::{fill_small, fill_ternary, fill_uniform, fill_wide};
use mod_ring::{Poly, Ring, of_residues};
use std::alloc::{AllocError, Global};
use word_tape::Tape;

/// A polynomial with uniform coefficients, four words each.
pub fn uniform(alloc: Global, ring: &Ring, tape: &mut Tape) -> Result<Poly, AllocError>
    ensures value { IfOk result (λ f. f ≡ uniform_poly ring.now.params.q ring.now.params.n tape.old.seed tape.old.stream tape.old.next) }
    ensures fits { IfOk result (λ f. Fits ring.now f) }
    ensures place { OnOk result (tape.new ≡ moved tape.old (4 * ring.now.params.n)) }
    ensures err { OnErr result (tape.new ≡ tape.old) }
{
    let params = ring.params();
    let mut entries = vec![in alloc; 0; params.n() as usize]?;
    fill_uniform(params.q(), entries.as_mut_slice(), tape);
    Ok(of_residues(params, entries))
}

/// A polynomial with coefficients within `bound`, a word each.
pub fn small(alloc: Global, ring: &Ring, bound: u64, tape: &mut Tape) -> Result<Poly, AllocError>
    requires { bound ≤ 255 }
    ensures value { IfOk result (λ f. f ≡ small_poly ring.now.params.q ring.now.params.n bound tape.old.seed tape.old.stream tape.old.next) }
    ensures fits { IfOk result (λ f. Fits ring.now f) }
    ensures place { OnOk result (tape.new ≡ moved tape.old ring.now.params.n) }
    ensures err { OnErr result (tape.new ≡ tape.old) }
{
    let params = ring.params();
    let mut entries = vec![in alloc; 0; params.n() as usize]?;
    fill_small(params.q(), bound, entries.as_mut_slice(), tape);
    Ok(of_residues(params, entries))
}

/// A polynomial with coefficients within `bound`, two words each.
pub fn wide(alloc: Global, ring: &Ring, bound: u64, tape: &mut Tape) -> Result<Poly, AllocError>
    requires { bound ≤ 2 ^ 40 }
    ensures value { IfOk result (λ f. f ≡ wide_poly ring.now.params.q ring.now.params.n bound tape.old.seed tape.old.stream tape.old.next) }
    ensures fits { IfOk result (λ f. Fits ring.now f) }
    ensures place { OnOk result (tape.new ≡ moved tape.old (2 * ring.now.params.n)) }
    ensures err { OnErr result (tape.new ≡ tape.old) }
{
    let params = ring.params();
    let mut entries = vec![in alloc; 0; params.n() as usize]?;
    fill_wide(params.q(), bound, entries.as_mut_slice(), tape);
    Ok(of_residues(params, entries))
}

/// A polynomial with coefficients -1, 0 and 1, a word each.
pub fn ternary(alloc: Global, ring: &Ring, tape: &mut Tape) -> Result<Poly, AllocError>
    ensures value { IfOk result (λ f. f ≡ ternary_poly ring.now.params.q ring.now.params.n tape.old.seed tape.old.stream tape.old.next) }
    ensures fits { IfOk result (λ f. Fits ring.now f) }
    ensures place { OnOk result (tape.new ≡ moved tape.old ring.now.params.n) }
    ensures err { OnErr result (tape.new ≡ tape.old) }
{
    let params = ring.params();
    let mut entries = vec![in alloc; 0; params.n() as usize]?;
    fill_ternary(params.q(), entries.as_mut_slice(), tape);
    Ok(of_residues(params, entries))
}
