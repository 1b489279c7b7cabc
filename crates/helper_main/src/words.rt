ghost use Rattle.std.specs.Prelude.{◌≡◌, ℕ, ◌≤◌, [], ◌∷◌, codes, map, string_bytes, IsTrue, ◌↔◌};
ghost use Rattle.edge_io.specs.Faults.{HasFault};
ghost use Rattle.helper_main.specs.Owed.{Serves, Declines, HasHeadline, HoldsScript, IsDoneOr, words_of};

use crate::run::{put, run_check, run_serial};
use crate::status::Status;
use crate::work::Work;
use edge_io::{Sink, Source};
use std::alloc::Global;

/// Whether two texts are the same.
fn same(a: &str, b: &str) -> bool
    ensures { IsTrue result ↔ (a.now ≡ b.now) }
{
    a == b
}

/// Whether the words are `run`, `--serial`.
fn are_of_run(words: &[String]) -> bool
    ensures { IsTrue result ↔ (map string_bytes words.now ≡ words_of Work.Run) }
{
    match words {
        [work, flag] => {
            let is_work = same(work.as_str(), "run");
            let is_flag = same(flag.as_str(), "--serial");
            is_work && is_flag
        }
        _ => false,
    }
}

/// Whether the only word is `check`.
fn are_of_check(words: &[String]) -> bool
    ensures { IsTrue result ↔ (map string_bytes words.now ≡ words_of Work.Check) }
{
    match words {
        [work] => same(work.as_str(), "check"),
        _ => false,
    }
}

/// Does what the words ask: with `run`, `--serial` it is `run_serial`, with `check` it is `run_check`;
/// for all other words the usage line is written and nothing is read.
pub fn run_words<S: Source, K: Sink>(
    alloc: Global,
    words: &[String],
    source: &mut S,
    sink: &mut K,
) -> Status
    ensures headline { map string_bytes words.now ≡ words_of Work.Run → result ≡ Status.Done
        → HasHeadline (S.left source.old) (S.left source.new) (K.taken sink.old)
        (K.taken sink.new) }
    ensures serves { (work : Work) → map string_bytes words.now ≡ words_of work
        → Serves work result (S.left source.old) (S.left source.new) (K.taken sink.old)
        (K.taken sink.new) }
    ensures complete { (work : Work) → map string_bytes words.now ≡ words_of work
        → HoldsScript (S.left source.old)
        → (HasFault (S.faults source.old) (S.faults source.new) → ⊥)
        → (HasFault (K.faults sink.old) (K.faults sink.new) → ⊥) → IsDoneOr result }
    ensures usage { ((work : Work) → map string_bytes words.now ≡ words_of work → ⊥)
        → Declines result (K.taken sink.old) (K.taken sink.new) × (source.new ≡ source.old) }
    ensures read { result ≡ Status.Read → HasFault (S.faults source.old) (S.faults source.new) }
    ensures no_read_fault { (result ≡ Status.Read → ⊥) → S.faults source.new ≡ S.faults source.old }
    ensures write { result ≡ Status.Write → HasFault (K.faults sink.old) (K.faults sink.new) }
    ensures no_write_fault { (result ≡ Status.Write → ⊥) → K.faults sink.new ≡ K.faults sink.old }
    ensures source_never_falls { S.faults source.old ≤ S.faults source.new }
    ensures sink_never_falls { K.faults sink.old ≤ K.faults sink.new }
{
    if are_of_run(words) {
        return run_serial(alloc, source, sink);
    }
    if are_of_check(words) {
        return run_check(alloc, source, sink);
    }
    if put(
        sink,
        b"usage: helium run [--serial] [--json] | check | gen NUMBER\n",
    ) {
        Status::Usage
    } else {
        Status::Write
    }
}
