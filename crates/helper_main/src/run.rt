ghost use Rattle.std.specs.Prelude.{◌≡◌, ℕ, ◌≤◌, length, true, false};
ghost use Rattle.std.specs.Io.KnownBytes.{Appends};
ghost use Rattle.edge_io.specs.Faults.{HasFault};
ghost use Rattle.session_script.specs.Scripts.{script};
ghost use Rattle.helper_main.specs.Works.{owed, is_done};
ghost use Rattle.helper_main.specs.Owed.{Serves, WritesPart, HasHeadline, HoldsScript, IsDoneOr, most_bytes};

use crate::owed::owed;
use crate::status::Status;
use crate::work::Work;
use edge_io::{ReadStop, Sink, Source, read_all, write_all};
use std::alloc::Global;

/// The greatest number of bytes of a script.
const MOST_BYTES: u64 = 1_048_576;

/// Writes a text, and tells whether all of it was written.
pub(crate) fn put<K: Sink>(sink: &mut K, text: &[u8]) -> bool
    ensures all { result ≡ true → Appends (K.taken sink.old) (K.taken sink.new) text.now }
    ensures part { result ≡ false → WritesPart (K.taken sink.old) (K.taken sink.new) text.now }
    ensures fault { result ≡ false → HasFault (K.faults sink.old) (K.faults sink.new) }
    ensures no_fault { result ≡ true → K.faults sink.new ≡ K.faults sink.old }
    ensures never_falls { K.faults sink.old ≤ K.faults sink.new }
{
    write_all(sink, text).is_ok()
}

/// Answers the bytes of a script that was read whole.
fn answer<K: Sink>(alloc: Global, work: Work, bytes: &[u8], sink: &mut K) -> Status
    requires { length bytes.now ≤ most_bytes }
    ensures done { result ≡ Status.Done → (is_done (script bytes.now) ≡ true)
        × Appends (K.taken sink.old) (K.taken sink.new) (owed work (script bytes.now)) }
    ensures script { result ≡ Status.Script → (is_done (script bytes.now) ≡ false)
        × Appends (K.taken sink.old) (K.taken sink.new) (owed work (script bytes.now)) }
    ensures write { result ≡ Status.Write
        → WritesPart (K.taken sink.old) (K.taken sink.new) (owed work (script bytes.now))
        × HasFault (K.faults sink.old) (K.faults sink.new) }
    ensures memory { result ≡ Status.Memory → K.taken sink.new ≡ K.taken sink.old }
    ensures others { (result ≡ Status.Usage → ⊥) × (result ≡ Status.Read → ⊥) }
    ensures no_write_fault { (result ≡ Status.Write → ⊥) → K.faults sink.new ≡ K.faults sink.old }
    ensures never_falls { K.faults sink.old ≤ K.faults sink.new }
{
    let Ok(owed) = owed(alloc, work, bytes) else {
        return Status::Memory;
    };
    if !put(sink, owed.text.as_slice()) {
        return Status::Write;
    }
    if owed.is_done {
        Status::Done
    } else {
        Status::Script
    }
}

/// Reads a script to its end, does the work with it and writes what is owed.
fn serve<S: Source, K: Sink>(alloc: Global, work: Work, source: &mut S, sink: &mut K) -> Status
    ensures serves { Serves work result (S.left source.old) (S.left source.new) (K.taken sink.old)
        (K.taken sink.new) }
    ensures read { result ≡ Status.Read → HasFault (S.faults source.old) (S.faults source.new) }
    ensures no_read_fault { (result ≡ Status.Read → ⊥) → S.faults source.new ≡ S.faults source.old }
    ensures write { result ≡ Status.Write → HasFault (K.faults sink.old) (K.faults sink.new) }
    ensures no_write_fault { (result ≡ Status.Write → ⊥) → K.faults sink.new ≡ K.faults sink.old }
    ensures source_never_falls { S.faults source.old ≤ S.faults source.new }
    ensures sink_never_falls { K.faults sink.old ≤ K.faults sink.new }
{
    match read_all(alloc, source, MOST_BYTES) {
        Ok(bytes) => answer(alloc, work, bytes.as_slice(), sink),
        Err(ReadStop::TooLong) => {
            if put(sink, b"refused long\n") {
                Status::Script
            } else {
                Status::Write
            }
        }
        Err(ReadStop::ReadFault) => Status::Read,
        Err(ReadStop::NoMemory) => Status::Memory,
    }
}

/// Reads a script to its end, runs its session and writes its report.
///
/// With `Done` the report keeps the headline (the crate `headline`): every aggregate that it calls complete is
/// the sum of one share of each of its T parties, and every answer is the plain value of its circuit.
/// `specs/Owed.antt` says what each status means for the bytes. A refused script is answered by one
/// line, and more than 1,048,576 bytes by another.
pub fn run_serial<S: Source, K: Sink>(alloc: Global, source: &mut S, sink: &mut K) -> Status
    ensures headline { result ≡ Status.Done
        → HasHeadline (S.left source.old) (S.left source.new) (K.taken sink.old)
        (K.taken sink.new) }
    ensures serves { Serves Work.Run result (S.left source.old) (S.left source.new)
        (K.taken sink.old) (K.taken sink.new) }
    ensures complete { HoldsScript (S.left source.old)
        → (HasFault (S.faults source.old) (S.faults source.new) → ⊥)
        → (HasFault (K.faults sink.old) (K.faults sink.new) → ⊥) → IsDoneOr result }
    ensures read { result ≡ Status.Read → HasFault (S.faults source.old) (S.faults source.new) }
    ensures no_read_fault { (result ≡ Status.Read → ⊥) → S.faults source.new ≡ S.faults source.old }
    ensures write { result ≡ Status.Write → HasFault (K.faults sink.old) (K.faults sink.new) }
    ensures no_write_fault { (result ≡ Status.Write → ⊥) → K.faults sink.new ≡ K.faults sink.old }
    ensures source_never_falls { S.faults source.old ≤ S.faults source.new }
    ensures sink_never_falls { K.faults sink.old ≤ K.faults sink.new }
{
    serve(alloc, Work::Run, source, sink)
}

/// Reads a script to its end and writes the noise bounds and the plain values of its circuits.
///
/// The statuses are those of `run_serial`, with that text in place of the report.
pub fn run_check<S: Source, K: Sink>(alloc: Global, source: &mut S, sink: &mut K) -> Status
    ensures serves { Serves Work.Check result (S.left source.old) (S.left source.new)
        (K.taken sink.old) (K.taken sink.new) }
    ensures complete { HoldsScript (S.left source.old)
        → (HasFault (S.faults source.old) (S.faults source.new) → ⊥)
        → (HasFault (K.faults sink.old) (K.faults sink.new) → ⊥) → IsDoneOr result }
    ensures read { result ≡ Status.Read → HasFault (S.faults source.old) (S.faults source.new) }
    ensures no_read_fault { (result ≡ Status.Read → ⊥) → S.faults source.new ≡ S.faults source.old }
    ensures write { result ≡ Status.Write → HasFault (K.faults sink.old) (K.faults sink.new) }
    ensures no_write_fault { (result ≡ Status.Write → ⊥) → K.faults sink.new ≡ K.faults sink.old }
    ensures source_never_falls { S.faults source.old ≤ S.faults source.new }
    ensures sink_never_falls { K.faults sink.old ≤ K.faults sink.new }
{
    serve(alloc, Work::Check, source, sink)
}
