ghost use Rattle.std.specs.Prelude.{◌≡◌, ℕ, ◌+◌, ◌-◌, ◌*◌, ◌/◌, ◌%◌, ◌^◌, ◌<◌, ◌≤◌, ◌++◌, [], ◌∷◌, length, map, get_or, IfOk, OnOk, vec_len};
ghost use Rattle.ring_ntt.specs.Words.{quotient_of};
ghost use Rattle.ring_ntt.specs.Nodes.{powers, multiple};

use crate::words::{product, quotient};
use std::alloc::{AllocError, Global};

/// The powers of a root in bit-reversed order, each with the quotient that its multiples need.
#[derive(Drop)]
pub(crate) struct Twiddles {
    pub(crate) modulus: u64,
    pub(crate) levels: u32,
    pub(crate) base: u64,
    pub(crate) roots: Vec<u64>,
    pub(crate) quotients: Vec<u64>,
    ghost above_one: { 1 < modulus },
    ghost small: { modulus ≤ 2 ^ 62 },
    ghost few_levels: { levels ≤ 12 },
    ghost in_order: { roots.items ≡ powers modulus levels base },
    ghost precomputed: { quotients.items ≡ map (quotient_of modulus) (powers modulus levels base) },
}

/// A root, and its quotient.
#[derive(Clone, Copy)]
pub(crate) struct Factor {
    pub(crate) root: u64,
    pub(crate) quotient: u64,
}

impl Twiddles {
    pub(crate) fn new(
        alloc: Global,
        modulus: u64,
        levels: u32,
        base: u64,
    ) -> Result<Twiddles, AllocError>
        requires above_one { 1 < modulus }
        requires small { modulus ≤ 2 ^ 62 }
        requires levels { levels ≤ 12 }
        requires residue { base < modulus }
        ensures { IfOk result (λ t. (t.modulus ≡ modulus) × (t.levels ≡ levels) × (t.base ≡ base)) }
    {
        let mut roots = Vec::with_capacity(alloc, 1 << levels)?;
        push_powers(&mut roots, modulus, levels, base)?;
        let quotients = quotients_of(alloc, roots.as_slice(), modulus)?;
        Ok(Twiddles {
            modulus,
            levels,
            base,
            roots,
            quotients,
        })
    }

    /// Entry k of the table.
    #[inline]
    pub(crate) fn factor(&self, k: usize) -> Factor
        requires { k < 2 ^ self.now.levels }
        ensures root { let t = self.now in
            result.root ≡ get_or (powers t.modulus t.levels t.base) k 0 }
        ensures residue { result.root < self.now.modulus }
        ensures precomputed { result.quotient ≡ quotient_of self.now.modulus result.root }
    {
        Factor {
            root: self.roots[k],
            quotient: self.quotients[k],
        }
    }
}

/// Fills an empty list with the powers of `base`: those of its square, then the same times `base`.
#[tactic(auto, using(crate::proofs::Reversal::powers_none, crate::proofs::Reversal::powers_more))]
fn push_powers(roots: &mut Vec<u64>, modulus: u64, levels: u32, base: u64) -> Result<(), AllocError>
    requires above_one { 1 < modulus }
    requires residue { base < modulus }
    requires empty { roots.old.items ≡ [] }
    ensures { OnOk result (roots.new.items ≡ powers modulus levels base) }
{
    if levels == 0 {
        roots.push(1)?;
        return Ok(());
    }
    push_powers(roots, modulus, levels - 1, product(base, base, modulus))?;
    push_multiples(roots, modulus, base)?;
    Ok(())
}

/// Appends each root once more, times `base`.
fn push_multiples(roots: &mut Vec<u64>, modulus: u64, base: u64) -> Result<(), AllocError>
    requires { 0 < modulus }
    ensures { OnOk result
        (roots.new.items ≡ roots.old.items ++ map (multiple modulus base) roots.old.items) }
{
    let count = roots.len();
    for k in 0..count {
        let next = product(roots[k], base, modulus);
        roots.push(next)?;
    }
    Ok(())
}

fn quotients_of(alloc: Global, roots: &[u64], modulus: u64) -> Result<Vec<u64>, AllocError>
    requires { (k : ℕ) → k < length roots.now → get_or roots.now k 0 < modulus }
    ensures { IfOk result (λ v. v.items ≡ map (quotient_of modulus) roots.now) }
{
    let mut quotients = Vec::with_capacity(alloc, roots.len())?;
    for w in roots {
        quotients.push(quotient(*w, modulus))?;
    }
    Ok(quotients)
}
