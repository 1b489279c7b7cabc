//! The value that a lock keeps, and what a turn does to it.
ghost use Rattle.std.specs.Prelude.{◌≡◌, ℕ, ◌≤◌, List, ◌++◌, Option, Some, option_to_list};

/// A value that stands for fixed data and for a list of entries, which is its history.
pub trait Kept: Send + Drop {
    type Fixed;

    type Entry;

    // What no turn changes.
    ghost fixed: { Self → Self.Fixed };
    // The history that the value stands for.
    ghost entries: { Self → List Self.Entry };
    // Whose entry it is: the number of a pass.
    ghost number: { Self.Entry → ℕ };
    // Which histories are legal for given fixed data.
    ghost IsLegal: { Self.Fixed → List Self.Entry → Type 0 };
    // Every value stands for a legal history.
    ghost legal: { (v : Self) → IsLegal (fixed v) (entries v) };
}

/// What one turn does: it appends one entry with the number of its pass, or none.
pub trait Act<V: Kept> {
    type Reply;

    // The number of the pass that makes the turn.
    ghost number: { Self → ℕ };
    // At which values it may be done.
    ghost MayAct: { Self → V → Type 0 };
    // The entry that it appends, if any: it follows from the act and its reply.
    ghost appends: { Self → Self.Reply → Option V.Entry };
    // What the reply says of the value before and of the value after.
    ghost Says: { Self → Self.Reply → V → V → Type 0 };

    fn act(self, value: &mut V) -> Self::Reply
        requires { MayAct self value.old }
        ensures fixed { V.fixed value.new ≡ V.fixed value.old }
        ensures entries { V.entries value.new ≡ V.entries value.old ++ option_to_list (appends self result) }
        ensures says { Says self result value.old value.new };

    ghost signed: { (a : Self) (r : Self.Reply) (e : V.Entry) → appends a r ≡ Some e → V.number e ≡ number a };
}
