//! The rule of the lock, and what each step on its words tells.
ghost use Rattle.turn_lock.specs.Steps.{drew, looked, passed_on, Recalls, kept_back, handed_out, copied, noted, joined, spent};

use crate::kept::Kept;
use crate::view::View;
use atomic_table::{Join, Play, Seat, Shared, Split, TableRule};
use std::snapshot::Snapshot;

/// The word from which tickets are drawn.
pub const TICKET: usize = 0;
/// The word that says which ticket is served.
pub const SERVING: usize = 1;

/// What the lock is told once: the value that it begins with, as clauses see it, and how many passes there are.
#[derive(Drop)]
pub struct Key<V> {
    pub opening: Snapshot<V>,
    pub callers: u32,
}

pub struct Law;

impl<V: Kept> TableRule<Option<V>, View<V::Fixed, V::Entry>, Key<V>> for Law {
    ghost use Rattle.turn_lock.specs.Rule.{Ruled, opening_view};

    ghost holds = { λ key. Ruled V.fixed V.entries V.number (V.fixed key.opening.value) (V.entries key.opening.value) key.callers };

    ghost first = { λ key. opening_view (V.fixed key.opening.value) (V.entries key.opening.value) key.callers };
}

pub type Board<V> = Shared<Option<V>, View<<V as Kept>::Fixed, <V as Kept>::Entry>, Key<V>, Law>;

pub type Place<V> = Seat<Option<V>, View<<V as Kept>::Fixed, <V as Kept>::Entry>>;

pub struct Draw;

impl<V: Kept> Play<Option<V>, View<V::Fixed, V::Entry>> for Draw {
    ghost then = { drew };
}

pub struct Look;

impl<V: Kept> Play<Option<V>, View<V::Fixed, V::Entry>> for Look {
    ghost then = { looked V.fixed V.entries V.number };
}

pub struct PassOn;

impl<V: Kept> Play<Option<V>, View<V::Fixed, V::Entry>> for PassOn {
    ghost then = { passed_on V.entries };
}

pub struct Recall;

impl<V: Kept> Play<Option<V>, View<V::Fixed, V::Entry>> for Recall {
    ghost then = { λ _ me _. Recalls V.number me };
}

pub struct Number;

impl<F, E> Split<View<F, E>> for Number {
    ghost left = { kept_back };

    ghost right = { handed_out };
}

pub struct Duplicate;

impl<F, E> Split<View<F, E>> for Duplicate {
    ghost left = { copied };

    ghost right = { noted };
}

pub struct Both;

impl<F, E> Join<View<F, E>> for Both {
    ghost both = { joined };

    ghost spent = { spent };
}
