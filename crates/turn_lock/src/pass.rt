//! Passes, with which threads take turns, and notes, by which one tells another what it has seen.
ghost use Rattle.std.specs.Prelude.{◌≡◌, ℕ, ◌≤◌, [], ◌∷◌};
ghost use Rattle.turn_lock.specs.Views.{numbers_in};
ghost use Rattle.turn_lock.specs.declared.view.Stage.TheVariants.{Idle};

use crate::kept::Kept;
use crate::view::View;
use atomic_table::Seat;

/// The right to take turns under one number.
#[derive(Drop)]
pub struct Pass<V: Kept> {
    pub(crate) number: u32,
    pub(crate) seat: Seat<Option<V>, View<V::Fixed, V::Entry>>,
    ghost numbered: { numbers_in seat.me.0 ≡ number ∷ [] },
    ghost counts: { 1 ≤ number },
    ghost idle: { seat.me.0.stage ≡ Idle },
    ghost empty: { seat.me.1 ≡ [] },
}

/// The passes of one lock, by rising number.
#[derive(Drop)]
pub struct Passes<V: Kept> {
    pub list: Vec<Pass<V>>,
}

/// What a pass had seen when it was made.
#[derive(Drop)]
pub struct Note<V: Kept> {
    pub(crate) seat: Seat<Option<V>, View<V::Fixed, V::Entry>>,
    ghost unnumbered: { numbers_in seat.me.0 ≡ 0 ∷ [] },
    ghost idle: { seat.me.0.stage ≡ Idle },
    ghost empty: { seat.me.1 ≡ [] },
}

impl<V: Kept> Pass<V> {
    ghost use Rattle.turn_lock.specs.Passes.{number_of};

    /// The pass's number, from 1 to the number of callers.
    pub fn number(&self) -> u32
        ensures { result ≡ number_of self.now }
    {
        self.number
    }
}
