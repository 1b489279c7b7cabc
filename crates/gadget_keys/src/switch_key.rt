ghost use Rattle.std.specs.Prelude.{◌≡◌, ◌<◌, length, All, IfOk};
ghost use Rattle.mod_ring.specs.Fits.{Fits};
ghost use Rattle.param_set.specs.Moduli.{digit_rows};
ghost use Rattle.gadget_keys.specs.Keys.{RowFits, key_rows, stands_for};

use crate::key_row::Row;
use mod_ring::{Poly, Polys, Ring, Transformed};
use param_set::Params;
use std::alloc::{AllocError, Global};
use std::marker::Model;

/// A switch key: a row (b, a) for each digit of a residue modulo q, kept transformed. Contracts see the
/// polynomials of its rows, and the parameters of the ring for which it was made.
#[derive(Drop)]
pub struct SwitchKey {
    params: Params,
    pub(crate) rows: Vec<Row>,
}

impl Model for SwitchKey {
    ghost use Rattle.gadget_keys.specs.Keys.{RingKey, RowsFit, kept_rows};

    ghost Value = { RingKey };

    ghost view = { λ a. record { params = a.params; rows = kept_rows a.rows.items } };

    ghost invariant = { λ a. RowsFit a.params a.rows.items };
}

/// A row from its polynomials.
fn row_of(alloc: Global, ring: &Ring, b: &Poly, a: &Poly) -> Result<Row, AllocError>
    requires b { Fits ring.now b.now }
    requires a { Fits ring.now a.now }
    ensures value { IfOk result (λ row. stands_for row ≡ record { b = b.now; a = a.now }) }
    ensures fits { IfOk result (RowFits ring.now.params) }
{
    let b = Transformed::of(alloc, ring, b)?;
    let a = Transformed::of(alloc, ring, a)?;
    Ok(Row { b, a })
}

impl SwitchKey {
    /// The key whose row i has polynomial i of each list.
    pub fn new(alloc: Global, ring: &Ring, b: Polys, a: Polys) -> Result<SwitchKey, AllocError>
        requires b_rows { length b ≡ digit_rows ring.now.params.q ring.now.params.digit_bits }
        requires a_rows { length a ≡ digit_rows ring.now.params.q ring.now.params.digit_bits }
        requires b_fit { All (Fits ring.now) b }
        requires a_fit { All (Fits ring.now) a }
        ensures params { IfOk result (λ key. key.params ≡ ring.now.params) }
        ensures rows { IfOk result (λ key. key.rows ≡ key_rows b a) }
    {
        let mut rows = Vec::new(alloc);
        'rows: for i in 0..b.len() {
            let row = row_of(alloc, ring, b.at(i), a.at(i))?;
            rows.push(row)?;
        }
        Ok(SwitchKey {
            params: *ring.params(),
            rows,
        })
    }
}
