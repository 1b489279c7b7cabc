//! Writes bytes to a sink, to the last one.
ghost use Rattle.std.specs.Prelude.{◌≡◌, ℕ, ◌+◌, ◌<◌, ◌≤◌, length, take, OnOk, OnErr, IfErr};
ghost use Rattle.std.specs.Io.KnownBytes.{Appends};
ghost use Rattle.edge_io.specs.Faults.{HasFault};

use crate::sink::Sink;
use thiserror::Error;

/// A write failed. The sink took exactly the first `written` bytes, and not all.
#[derive(Clone, Copy, Debug, PartialEq, Eq, Error)]
#[error("a write failed after {written} bytes")]
pub struct WriteFault {
    pub written: u64,
}

/// Writes all of `bytes`.
pub fn write_all<K: Sink>(sink: &mut K, bytes: &[u8]) -> Result<(), WriteFault>
    ensures all { OnOk result (Appends (K.taken sink.old) (K.taken sink.new) bytes.now) }
    ensures part { IfErr result (λ fault. Appends (K.taken sink.old) (K.taken sink.new) (take fault.written bytes.now)) }
    ensures fewer { IfErr result (λ fault. fault.written < length bytes.now) }
    ensures fault { OnErr result (HasFault (K.faults sink.old) (K.faults sink.new)) }
    ensures no_fault { OnOk result (K.faults sink.new ≡ K.faults sink.old) }
    ensures never_falls { K.faults sink.old ≤ K.faults sink.new }
{
    let mut written = 0usize;
    'pieces: while written < bytes.len() {
        let count = sink.write(&bytes[written..]);
        match count {
            Ok(count) => written += count,
            Err(_) => {
                return Err(WriteFault {
                    written: written as u64,
                });
            }
        }
    }
    Ok(())
}
