//! The lock.
ghost use Rattle.std.specs.Prelude.{◌≡◌, ◌≤◌};

use crate::kept::{Act, Kept};
use crate::pass::{Note, Pass, Passes};
use crate::rule::{Both, Draw, Duplicate, Key, Law, Recall, SERVING, TICKET};
use crate::turns::{end_turn, take_out, wait_for};
use crate::view::View;
use atomic_table::Table;
use std::alloc::{AllocError, Global};
use std::sync::Wait;

mod ends;

/// A value that threads act on one at a time, each with a pass of its own.
#[derive(Drop)]
pub struct TurnLock<V: Kept> {
    table: Table<Option<V>, View<V::Fixed, V::Entry>, Key<V>, Law, Global>,
    callers: u32,
    ghost sized: { (table.shared.table_id.words ≡ 2) × (table.shared.table_id.slots ≡ 1) },
    ghost told: { table.shared.key.callers ≡ callers },
    ghost some: { 1 ≤ callers },
}

impl<V: Kept> TurnLock<V> {
    ghost use Rattle.std.specs.Prelude.{◌++◌, option_to_list};
    ghost use Rattle.turn_lock.specs.Views.{BeginsWith};
    ghost use Rattle.turn_lock.specs.Passes.{id_of, lock_of, number_of, seen, mine, lock_in, seen_in, IsSamePass, MayTake, TakesTurn};

    /// Waits for the pass's turn, and does the act. It may wait without end, and its promise holds if it returns.
    pub fn take_turn<X: Wait, A: Act<V>>(&self, rt: &X, pass: &mut Pass<V>, act: A) -> A::Reply
        requires lock { lock_of pass.old ≡ id_of self.now }
        requires number { A.number act ≡ number_of pass.old }
        requires may { MayTake (A.MayAct act) pass.old }
        ensures same { IsSamePass pass.old pass.new }
        ensures turn { TakesTurn (A.Says act result) (option_to_list (A.appends act result)) pass.old pass.new }
        ensures mine { mine pass.new ≡ mine pass.old ++ option_to_list (A.appends act result) }
    {
        let board = &self.table.shared;
        let ticket = board.fetch_add::<Draw>(&mut pass.seat, TICKET, 1);
        wait_for(board, rt, &mut pass.seat, ticket);
        let mut value = take_out(board, &mut pass.seat);
        let reply = act.act(&mut value);
        end_turn(board, &mut pass.seat, value);
        reply
    }

    /// A note of what the pass has seen, for another pass to meet.
    pub fn note(&self, pass: &mut Pass<V>) -> Note<V>
        requires { lock_of pass.old ≡ id_of self.now }
        ensures same { IsSamePass pass.old pass.new × (seen pass.new ≡ seen pass.old) }
        ensures mine { mine pass.new ≡ mine pass.old }
        ensures note { (lock_in result ≡ id_of self.now) × (seen_in result ≡ seen pass.old) }
    {
        let seat = self.table.shared.split_seat::<Duplicate>(&mut pass.seat);
        Note { seat }
    }

    /// The pass has then seen a history that begins with what it had seen, and with what the note's maker had.
    pub fn meet(&self, pass: &mut Pass<V>, note: Note<V>)
        requires pass { lock_of pass.old ≡ id_of self.now }
        requires note { lock_in note ≡ id_of self.now }
        ensures same { IsSamePass pass.old pass.new }
        ensures mine { mine pass.new ≡ mine pass.old }
        ensures own { BeginsWith (seen pass.new) (seen pass.old) }
        ensures told { BeginsWith (seen pass.new) (seen_in note) }
    {
        let Note { seat } = note;
        self.table.shared.join_seat::<Both>(&mut pass.seat, seat);
        self.table.shared.load::<Recall>(&mut pass.seat, SERVING);
    }
}
