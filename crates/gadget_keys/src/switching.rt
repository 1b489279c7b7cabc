ghost use Rattle.std.specs.Prelude.{◌≡◌, ◌<◌, IfOk};
ghost use Rattle.mod_ring.specs.Fits.{Fits};
ghost use Rattle.ring_spec.specs.Pairs.{CipherFits};
ghost use Rattle.gadget_spec.specs.Switching.{key_switch};
ghost use Rattle.gadget_keys.specs.Gadgets.{gadget_of};

use crate::digits::digit_into;
use crate::row_sums::RowSums;
use crate::switch_key::SwitchKey;
use mod_ring::{Ciphertext, Poly, Ring, Transformed, zero};
use std::alloc::{AllocError, Global};

/// f switched by a key: the sum of the polynomial of digits i of f times row i, on both parts. Beside the key and f
/// it holds at most six polynomials.
pub fn switch(
    alloc: Global,
    ring: &Ring,
    key: &SwitchKey,
    f: &Poly,
) -> Result<Ciphertext, AllocError>
    requires key { key.now.params ≡ ring.now.params }
    requires poly { Fits ring.now f.now }
    ensures value { IfOk result (λ c. c ≡ key_switch ring.now.params.q ring.now.params.n
        (gadget_of ring.now.params) key.now.rows f.now) }
    ensures fits { IfOk result (CipherFits ring.now.params.q ring.now.params.n) }
{
    let mut digits = zero(alloc, ring)?;
    let mut sums = RowSums::new(alloc, ring)?;
    'rows: for i in 0..key.rows.len() {
        digit_into(ring, f, i as u32, &mut digits);
        let values = Transformed::of(alloc, ring, &digits)?;
        sums.add(ring, &values, &key.rows[i], i);
    }
    sums.into_ciphertext(alloc, ring, key.rows.len())
}
