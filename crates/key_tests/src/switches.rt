//! Key switches, against plain loops.

ghost use Rattle.std.specs.Prelude.{◌≡◌, All, length, IfOk};
ghost use Rattle.mod_ring.specs.Fits.{Fits};
ghost use Rattle.param_set.specs.Moduli.{digit_rows};

use crate::plain_loops::{Kind, switched};
use crate::rings::{mixed, params_of};
use gadget_keys::{SwitchKey, switch};
use mod_ring::{Polys, Ring};
use param_set::Params;
use std::alloc::{AllocError, Global};
use std::test::Fail;

/// A polynomial for each row.
fn rows_of(alloc: Global, ring: &Ring, seed: u64) -> Result<Polys, AllocError>
    requires { ring.now.params.n ≡ 8 }
    ensures count { IfOk result (λ rows.
        length rows ≡ digit_rows ring.now.params.q ring.now.params.digit_bits) }
    ensures fit { IfOk result (All (Fits ring.now)) }
{
    let mut rows = Polys::new(alloc);
    'rows: for i in 0..ring.params().rows() {
        rows.push(mixed(alloc, ring, seed.wrapping_add(i))?)?;
    }
    Ok(rows)
}

/// Whether a switch gives what plain loops give, on both parts.
fn agrees(alloc: Global, params: &Params, kind: Kind) -> Result<bool, AllocError>
    requires { params.now.n ≡ 8 }
{
    let ring = Ring::new(alloc, params)?;
    let f = mixed(alloc, &ring, 1_000)?;
    let b = rows_of(alloc, &ring, 2_000)?;
    let a = rows_of(alloc, &ring, 3_000)?;
    let c0 = switched(alloc, kind, f.coeffs(), &b)?;
    let c1 = switched(alloc, kind, f.coeffs(), &a)?;
    let key = SwitchKey::new(alloc, &ring, b, a)?;
    let c = switch(alloc, &ring, &key, &f)?;
    Ok(c.c0.coeffs() == c0.as_slice() && c.c1.coeffs() == c1.as_slice())
}

#[test]
fn switches_as_by_the_definition(rt: HostRuntime) -> Result<(), Fail> {
    for (digit_bits, base, rows) in [(1, 2, 55), (8, 256, 7), (13, 8_192, 5), (16, 65_536, 4)] {
        for balanced in [false, true] {
            let kind = Kind {
                base,
                rows,
                balanced,
            };
            let same = agrees(rt.alloc(), &params_of(digit_bits, balanced)?, kind)?;
            assert!(rt; same, "{digit_bits} bits, balanced: {balanced}");
        }
    }
    Ok(())
}
