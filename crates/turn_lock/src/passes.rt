//! The passes of a lock: how they are numbered, and how they come together at its end.
ghost use Rattle.std.specs.Prelude.{◌≡◌, ◌+◌, ◌<◌, [], All, IfOk, length};
ghost use Rattle.turn_lock.specs.declared.view.Stage.TheVariants.{Idle};
ghost use Rattle.turn_lock.specs.Rule.{opening_view};
ghost use Rattle.turn_lock.specs.Passes.{lock_of, AreNew};
ghost use Rattle.turn_lock.specs.Gathering.{Gathers};

use crate::kept::Kept;
use crate::pass::Pass;
use crate::rule::{Board, Both, Number, Place};
use std::alloc::{AllocError, Global};

// Hands out the first seat's numbers, one to each new pass.
pub fn number_passes<V: Kept>(
    alloc: Global,
    board: &Board<V>,
    first: &mut Place<V>,
    callers: u32,
) -> Result<Vec<Pass<V>>, AllocError>
    requires lock { (first.old.table_id ≡ board.now.table_id) × (0 < board.now.table_id.words) }
    requires all { first.old.me ≡ (opening_view (V.fixed board.now.key.opening.value) (V.entries board.now.key.opening.value) callers, []) }
    ensures { IfOk result (λ v. AreNew board.now.table_id callers (V.fixed board.now.key.opening.value) (V.entries board.now.key.opening.value) v.items) }
{
    let mut list = Vec::with_capacity(alloc, callers as usize)?;
    'numbers: for given in 0..callers {
        let seat = board.split_seat::<Number>(first);
        let pass = Pass {
            number: given + 1,
            seat,
        };
        list.push(pass)?;
    }
    Ok(list)
}

// Joins all passes into one seat.
pub fn gather<V: Kept>(board: &Board<V>, mut list: Vec<Pass<V>>) -> Place<V>
    requires lock { 0 < board.now.table_id.words }
    requires some { 0 < length list.items }
    requires each { All (λ p. lock_of p ≡ board.now.table_id) list.items }
    ensures seat { (result.table_id ≡ board.now.table_id) × (result.me.0.stage ≡ Idle) × (result.me.1 ≡ []) }
    ensures all { Gathers list.items result.me.0 }
{
    let Pass {
        number: _,
        mut seat,
    } = list.pop().unwrap();
    'passes: while let Some(pass) = list.pop() {
        let Pass {
            number: _,
            seat: other,
        } = pass;
        board.join_seat::<Both>(&mut seat, other);
    }
    seat
}
