//! The value under the lock.
ghost use Rattle.std.specs.Prelude.{◌≡◌, ℕ, [], None};
ghost use Rattle.std.proofs.Common.{rules};

use turn_lock::{Act, Kept};

#[derive(Drop)]
pub struct Count {
    pub turns: u64,
}

impl Kept for Count {
    type Fixed = ();

    type Entry = u32;

    ghost fixed = { λ _. tt };

    ghost entries = { λ _. [] };

    ghost number = { λ n. n };

    ghost IsLegal = { λ _ _. Unit {0} };

    ghost legal = { λ _. tt };
}

/// Counts one turn, and appends no entry.
#[derive(Drop)]
pub struct Step {
    pub number: u32,
}

impl Act<Count> for Step {
    type Reply = ();

    ghost number = { λ s. s.number };

    ghost MayAct = { λ _ _. Unit {0} };

    ghost appends = { λ _ _. None };

    ghost Says = { λ _ _ _ _. Unit {0} };

    fn act(self, value: &mut Count) {
        value.turns = value.turns.wrapping_add(1);
    }

    ghost signed = { Prim.search rules };
}
