//! How a lock begins and ends.
ghost use Rattle.std.specs.Prelude.{◌≡◌, ◌<◌, ◌≤◌, IfOk};
ghost use Rattle.turn_lock.specs.Passes.{id_of, callers_of, AreNew, AreAll, IsWhole};

use super::TurnLock;
use crate::kept::Kept;
use crate::pass::Passes;
use crate::passes::{gather, number_passes};
use crate::rule::Key;
use atomic_table::Table;
use std::alloc::{AllocError, Global};
use std::snapshot::Snapshot;

impl<V: Kept> TurnLock<V> {
    /// A lock round the value, and its passes, numbered from 1.
    pub fn new(
        alloc: Global,
        value: V,
        callers: u32,
    ) -> Result<(TurnLock<V>, Passes<V>), AllocError>
        requires { (1 ≤ callers) × (callers ≤ 64) }
        ensures callers { IfOk result (λ r. callers_of r.0 ≡ callers) }
        ensures passes { IfOk result (λ r. AreNew (id_of r.0) callers (V.fixed value) (V.entries value) r.1.list.items) }
    {
        let key = Key {
            opening: Snapshot::of(&value),
            callers,
        };
        let mut slots = Vec::with_capacity(alloc, 1)?;
        slots.push(Some(value))?;
        let Ok((table, mut first)) = Table::new(alloc, &[0, 0], slots, &key) else {
            return Err(AllocError);
        };
        let list = number_passes(alloc, &table.shared, &mut first, callers)?;
        Ok((TurnLock { table, callers }, Passes { list }))
    }

    /// Ends the lock, with all its passes, and gives the value back with the whole history.
    pub fn close(self, passes: Passes<V>) -> V
        requires { AreAll (id_of self) (callers_of self) passes.list.items }
        ensures { IsWhole result passes.list.items }
    {
        let TurnLock { table, callers: _ } = self;
        let Passes { list } = passes;
        let seat = gather(&table.shared, list);
        let mut closed = table.close_with(seat);
        let slot = closed.take(0);
        closed.free();
        match slot {
            Some(value) => value,
            None => unreachable!(),
        }
    }
}
