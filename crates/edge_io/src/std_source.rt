//! A source over a reader of std.
ghost use Rattle.std.specs.Prelude.{◌≡◌, ◌≤◌, None, OnOk, OnErr, is_err, if◌then◌else◌};
ghost use Rattle.std.specs.Io.{ReadsAtMost};
ghost use Rattle.std.specs.Io.KnownBytes.{ReadConsumes};
ghost use Rattle.edge_io.specs.Faults.{raised, HasFault};

use crate::source::{Failed, Source};
use std::io::Read;

/// Gives what a reader of std gives, as a file or a terminal, and counts its failures.
/// It tells no bytes, so what comes in is trusted to be what the system read.
#[derive(Drop)]
pub struct StdSource<R> {
    reader: R,
    faults: u64,
}

impl<R> StdSource<R> {
    ghost use Rattle.edge_io.specs.Outside.{source_faults, source_reader};

    /// Gives what `reader` gives.
    pub fn new(reader: R) -> StdSource<R>
        ensures reader { source_reader result ≡ reader }
        ensures no_fault { source_faults result ≡ 0 }
    {
        StdSource { reader, faults: 0 }
    }
}

impl<R: Read> Source for StdSource<R> {
    ghost use Rattle.edge_io.specs.Outside.{source_faults, source_reader};

    ghost left = { λ _. None };

    ghost faults = { source_faults };

    // It passes on what the reader gives. Each failure of the reader is counted, once, and nothing
    // else is.
    fn read(&mut self, buf: &mut [u8]) -> Result<usize, Failed>
        ensures within { ReadsAtMost result buf.new }
        ensures passed_on { ReadConsumes (R.remaining (source_reader self.old)) (R.remaining (source_reader self.new)) result buf.new }
        ensures failed { OnErr result (HasFault (source_faults self.old) (source_faults self.new)) }
        ensures none_hidden { OnOk result (source_faults self.new ≡ source_faults self.old) }
        ensures never_falls { source_faults self.old ≤ source_faults self.new }
        ensures counted { source_faults self.new ≡ (if is_err result then raised (source_faults self.old) else source_faults self.old) }
    {
        match self.reader.read(buf) {
            Ok(count) => Ok(count),
            Err(_) => {
                self.faults = self.faults.saturating_add(1);
                Err(Failed)
            }
        }
    }
}
