//! What gives bytes.
ghost use Rattle.std.specs.Prelude.{◌≡◌, ℕ, List, Option, ◌≤◌, OnOk, OnErr};
ghost use Rattle.std.specs.Io.{ReadsAtMost};
ghost use Rattle.std.specs.Io.KnownBytes.{ReadConsumes};
ghost use Rattle.edge_io.specs.Faults.{HasFault};

use thiserror::Error;

/// The answer of an outside call that failed. It took no byte and gave none.
#[derive(Clone, Copy, Debug, PartialEq, Eq, Error)]
#[error("an outside call failed")]
pub struct Failed;

/// Gives bytes, one after the other, until they end.
///
/// Contracts see two things of it: the bytes that are left, where it tells them, and how many of
/// its calls have failed. A failure is counted only by the call that answers it.
pub trait Source {
    // The bytes that are left, or `None` where the source doesn't tell.
    ghost left: { Self → Option (List ℕ) };

    // How many reads have failed.
    ghost faults: { Self → ℕ };

    /// Takes the next bytes into the front of `buf`, and answers how many they are.
    /// It answers 0 only where `buf` is empty or the bytes have ended.
    fn read(&mut self, buf: &mut [u8]) -> Result<usize, Failed>
        ensures within { ReadsAtMost result buf.new }
        ensures bytes { ReadConsumes (left self.old) (left self.new) result buf.new }
        ensures failed { OnErr result (HasFault (faults self.old) (faults self.new)) }
        ensures none_hidden { OnOk result (faults self.new ≡ faults self.old) }
        ensures never_falls { faults self.old ≤ faults self.new };
}
