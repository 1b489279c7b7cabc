ghost use Rattle.std.specs.Prelude.{◌≡◌, ◌<◌, ◌^◌, map, unsigned_abs, IfOk};
ghost use Rattle.ring_spec.specs.Ring.{residue};
ghost use Rattle.int_tensor.specs.Factors.{AreSmall};

use std::alloc::{AllocError, Global};

/// The residue modulo q of a whole number below q in absolute value, without a division.
#[inline]
#[tactic(auto, unfolding(ring_spec::specs::Ring::residue))]
fn small_residue(q: u64, x: i64) -> u64
    requires { unsigned_abs x < q }
    ensures { result ≡ residue q x }
{
    let size = x.unsigned_abs();
    if x >= 0 { size } else { q - size }
}

/// The residues modulo q of whole numbers below 2^54 in absolute value.
pub(crate) fn small_residues(alloc: Global, q: u64, f: &[i64]) -> Result<Vec<u64>, AllocError>
    requires modulus { 2 ^ 54 < q }
    requires entries { AreSmall f.now }
    ensures { IfOk result (λ v. v.items ≡ map (residue q) f.now) }
{
    let mut residues = Vec::with_capacity(alloc, f.len())?;
    for x in f {
        residues.push(small_residue(q, *x))?;
    }
    Ok(residues)
}
