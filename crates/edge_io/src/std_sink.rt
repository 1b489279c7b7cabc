//! A sink over a writer of std.
ghost use Rattle.std.specs.Prelude.{◌≡◌, ◌<◌, ◌≤◌, None, length, IfOk, OnOk, OnErr, is_err, if◌then◌else◌};
ghost use Rattle.std.specs.Io.{WritesAtMost};
ghost use Rattle.std.specs.Io.KnownBytes.{WriteAppends};
ghost use Rattle.edge_io.specs.Faults.{raised, HasFault};

use crate::sink::Sink;
use crate::source::Failed;
use std::io::Write;

/// Gives its bytes to a writer of std, as a file or a terminal, and counts its failures. A write
/// that takes nothing of a piece with bytes is a failure too.
/// It tells no bytes, so what goes out is trusted to be what the system wrote.
#[derive(Drop)]
pub struct StdSink<W> {
    writer: W,
    faults: u64,
}

impl<W> StdSink<W> {
    ghost use Rattle.edge_io.specs.Outside.{sink_faults, sink_writer};

    /// Gives what it takes to `writer`.
    pub fn new(writer: W) -> StdSink<W>
        ensures writer { sink_writer result ≡ writer }
        ensures no_fault { sink_faults result ≡ 0 }
    {
        StdSink { writer, faults: 0 }
    }

    /// The writer.
    pub fn into_writer(self) -> W
        ensures { result ≡ sink_writer self }
    {
        self.writer
    }
}

impl<W: Write> Sink for StdSink<W> {
    ghost use Rattle.edge_io.specs.Outside.{sink_faults, sink_writer};

    ghost taken = { λ _. None };

    ghost faults = { sink_faults };

    // It passes on what it is given. Each failure of the writer is counted, once, and nothing else
    // is.
    fn write(&mut self, piece: &[u8]) -> Result<usize, Failed>
        ensures within { WritesAtMost result piece.now }
        ensures moves { IfOk result (λ count. 0 < length piece.now → 0 < count) }
        ensures passed_on { WriteAppends (W.contents (sink_writer self.old)) (W.contents (sink_writer self.new)) result piece.now }
        ensures failed { OnErr result (HasFault (sink_faults self.old) (sink_faults self.new)) }
        ensures none_hidden { OnOk result (sink_faults self.new ≡ sink_faults self.old) }
        ensures never_falls { sink_faults self.old ≤ sink_faults self.new }
        ensures counted { sink_faults self.new ≡ (if is_err result then raised (sink_faults self.old) else sink_faults self.old) }
    {
        match self.writer.write(piece) {
            Ok(count) if count > 0 || piece.is_empty() => Ok(count),
            _ => {
                self.faults = self.faults.saturating_add(1);
                Err(Failed)
            }
        }
    }
}
