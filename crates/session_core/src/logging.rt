ghost use Rattle.std.specs.Prelude.{◌≡◌, ◌↔◌, ◌<◌, ◌≤◌, length, max, IsOk, OnOk, Err};
ghost use Rattle.session_core.specs.Sessions.{spare, IsReady};
ghost use Rattle.session_core.specs.Calls.{IsSpent, HasSpare, Doubles, Waits};
ghost use Rattle.session_core.specs.declared.stop.Stop.TheVariants.{Spent, NoMemory};

use crate::{Session, Stop};
use party_roll::Roll;
use std::alloc::AllocError;

impl<R: Roll> Session<R> {
    /// Makes room for so many further entries, and no more: they can then be appended without memory. There is never
    /// less room than before, with either answer.
    pub fn reserve_log(&mut self, more: u32) -> Result<(), AllocError>
        ensures room { OnOk result (more ≤ spare self.new.log) }
        ensures exact { spare self.new.log ≤ max (spare self.old.log) more }
        ensures free { more ≤ spare self.old.log → IsOk result }
        ensures waits { Waits self.old self.new }
    {
        self.log.reserve_exact(more as usize)
    }

    /// Room for the entry of a call, unless all calls are made.
    #[tactic(auto, using(crate::proofs::Grown::is_ready))]
    pub(crate) fn begin(&mut self) -> Result<(), Stop>
        ensures spent { (result ≡ Err Spent) ↔ IsSpent self.old }
        ensures free { HasSpare self.old → result ≡ Err NoMemory → ⊥ }
        ensures room { OnOk result (HasSpare self.new) }
        ensures doubles { Doubles self.old self.new }
        ensures ready { OnOk result (IsReady self.new.standing) }
        ensures more { OnOk result (length self.old.log.items < self.old.max_calls) }
        ensures waits { Waits self.old self.new }
    {
        let made = self.log.len();
        if made >= self.max_calls as usize {
            return Err(Stop::Spent);
        }
        if made == self.log.capacity() {
            self.log.reserve_exact(made + 1)?;
        }
        Ok(())
    }
}
