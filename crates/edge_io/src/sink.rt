//! What takes bytes.
ghost use Rattle.std.specs.Prelude.{◌≡◌, ℕ, List, Option, ◌<◌, ◌≤◌, length, IfOk, OnOk, OnErr};
ghost use Rattle.std.specs.Io.{WritesAtMost};
ghost use Rattle.std.specs.Io.KnownBytes.{WriteAppends};
ghost use Rattle.edge_io.specs.Faults.{HasFault};

use crate::source::Failed;

/// Takes bytes, one after the other.
///
/// Contracts see two things of it: the bytes that it took, where it tells them, and how many of its
/// calls have failed. A failure is counted only by the call that answers it.
pub trait Sink {
    // The bytes that were taken, or `None` where the sink doesn't tell.
    ghost taken: { Self → Option (List ℕ) };

    // How many writes have failed.
    ghost faults: { Self → ℕ };

    /// Takes the first bytes of `piece`, and answers how many they are: at least one, where `piece`
    /// isn't empty.
    fn write(&mut self, piece: &[u8]) -> Result<usize, Failed>
        ensures within { WritesAtMost result piece.now }
        ensures moves { IfOk result (λ count. 0 < length piece.now → 0 < count) }
        ensures bytes { WriteAppends (taken self.old) (taken self.new) result piece.now }
        ensures failed { OnErr result (HasFault (faults self.old) (faults self.new)) }
        ensures none_hidden { OnOk result (faults self.new ≡ faults self.old) }
        ensures never_falls { faults self.old ≤ faults self.new };
}
