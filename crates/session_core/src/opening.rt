ghost use Rattle.std.specs.Prelude.{◌≡◌, ◌≤◌, true, [], length, All, IfOk};
ghost use Rattle.session_spec.specs.Settings.{rules, Keeps, NeedsNoSwitch};
ghost use Rattle.session_spec.specs.Stores.{empty};
ghost use Rattle.session_state.specs.Parts.{setting_by};
ghost use Rattle.session_core.specs.Sessions.{HasTold, IsModest};
ghost use Rattle.session_core.specs.Calls.{IsOpened};

use crate::{Circuits, Session};
use mod_ring::Ring;
use party_roll::Roll;
use session_state::Standing;
use std::alloc::{AllocError, Global};
use std::sync::Arc;

impl<R: Roll> Session<R> {
    /// A session for these circuits, none of which needs a key switch, in which nobody is present and no call was
    /// made. The values of their inputs are there where the roll tells the parties' seeds; there are at most 64
    /// circuits, with at most 16 different rotations and 1,024 inputs in all; and no call past `max_calls`, which is
    /// at most 8,388,608, is answered. It takes room for no entry.
    pub fn new(
        alloc: Global,
        roll: R,
        ring: Arc<Ring>,
        circuits: Circuits,
        max_calls: u32,
    ) -> Result<Session<R>, AllocError>
        requires keep { All (Keeps ring.value.params) circuits }
        requires free { NeedsNoSwitch (setting_by ring.value.params (R.public roll) circuits) }
        requires values { R.tells roll ≡ true → All (HasTold ring.value.params) circuits }
        requires few { length circuits ≤ 64 }
        requires modest { IsModest (rules (setting_by ring.value.params (R.public roll) circuits)) }
        requires some_calls { 1 ≤ max_calls }
        requires most_calls { max_calls ≤ 8388608 }
        ensures roll { IfOk result (λ session. session.roll ≡ roll) }
        ensures params { IfOk result (λ session. session.standing.params ≡ ring.value.params) }
        ensures most { IfOk result (λ session. session.max_calls ≡ max_calls) }
        ensures opened { IfOk result (IsOpened ring.value.params (R.public roll) circuits) }
    {
        let standing = Standing::new(alloc, ring, roll.public(), circuits)?;
        Ok(Session {
            roll,
            max_calls,
            standing,
            log: Vec::new(alloc),
        })
    }
}
