//! What a seat does in its turn.
ghost use Rattle.std.specs.Prelude.{◌≡◌, ◌%◌, ◌^◌, ℕ, [], ◌∷◌, Some, None};
ghost use Rattle.turn_lock.specs.declared.view.Stage.TheVariants.{Waiting};
ghost use Rattle.turn_lock.specs.Rule.{ticket_of};
ghost use Rattle.turn_lock.specs.Steps.{Finds, IsLeft, IsBack, view_after};

use crate::kept::Kept;
use crate::rule::{Board, Look, PassOn, Place, SERVING};
use std::sync::Wait;
use std::thread;

// Looks at the ticket that is served until it is this one.
pub fn wait_for<V: Kept, X: Wait>(board: &Board<V>, rt: &X, seat: &mut Place<V>, ticket: u64)
    requires lock { (seat.old.table_id ≡ board.now.table_id) × (board.now.table_id.words ≡ 2) }
    requires stage { seat.old.me.0.stage ≡ Waiting (ticket_of seat.old.me.0.stage) }
    requires ticket { ticket ≡ ticket_of seat.old.me.0.stage % 2 ^ 64 }
    requires empty { seat.old.me.1 ≡ [] }
    ensures same { (seat.new.table_id ≡ seat.old.table_id) × (seat.new.id ≡ seat.old.id) }
    ensures found { Finds V.fixed V.entries V.number seat.old.me seat.new.me }
{
    for _ in rt.forever() {
        if board.load::<Look>(seat, SERVING) == ticket {
            break;
        }
        thread::yield_now();
    }
}

// Takes the value out of the slot that the seat holds.
pub fn take_out<V: Kept>(board: &Board<V>, seat: &mut Place<V>) -> V
    requires lock { seat.old.table_id ≡ board.now.table_id }
    requires there { (x : V) × (seat.old.me.1 ≡ (0, Some x) ∷ []) }
    ensures same { (seat.new.table_id ≡ seat.old.table_id) × (seat.new.id ≡ seat.old.id) × (seat.new.me ≡ (seat.old.me.0, (0, None) ∷ [])) }
    ensures value { seat.old.me.1 ≡ (0, Some result) ∷ [] }
{
    match board.exchange(seat, 0, None) {
        Some(value) => value,
        None => unreachable!(),
    }
}

// Puts the value back into the slot.
pub fn put_in<V: Kept>(board: &Board<V>, seat: &mut Place<V>, value: V)
    requires lock { seat.old.table_id ≡ board.now.table_id }
    requires empty { seat.old.me.1 ≡ (0, None) ∷ [] }
    ensures { (seat.new.table_id ≡ seat.old.table_id) × (seat.new.id ≡ seat.old.id) × (seat.new.me ≡ (seat.old.me.0, (0, Some value) ∷ [])) }
{
    board.exchange(seat, 0, Some(value));
}

// Serves the next ticket. The value is back in the slot by then.
pub fn pass_on<V: Kept>(board: &Board<V>, seat: &mut Place<V>)
    requires lock { (seat.old.table_id ≡ board.now.table_id) × (board.now.table_id.words ≡ 2) }
    requires back { IsBack V.fixed V.entries V.number seat.old.me }
    ensures same { (seat.new.table_id ≡ seat.old.table_id) × (seat.new.id ≡ seat.old.id) }
    ensures passed { seat.new.me ≡ (view_after V.entries seat.old.me.0 seat.old.me.1, []) }
{
    board.fetch_add::<PassOn>(seat, SERVING, 1);
}

// Ends the turn, with the value as the act left it.
#[tactic(auto, using(crate::proofs::Taking::full_again))]
pub fn end_turn<V: Kept>(board: &Board<V>, seat: &mut Place<V>, value: V)
    requires lock { (seat.old.table_id ≡ board.now.table_id) × (board.now.table_id.words ≡ 2) }
    requires empty { seat.old.me.1 ≡ (0, None) ∷ [] }
    requires left { IsLeft V.fixed V.entries V.number seat.old.me.0 value }
    ensures same { (seat.new.table_id ≡ seat.old.table_id) × (seat.new.id ≡ seat.old.id) }
    ensures passed { seat.new.me ≡ (view_after V.entries seat.old.me.0 ((0, Some value) ∷ []), []) }
{
    put_in(board, seat, value);
    pass_on(board, seat);
}
