//! A source over memory, whose reads fail where they are told to.
ghost use Rattle.std.specs.Prelude.{◌≡◌, ◌↔◌, ℕ, ◌≤◌, List, Some, Contains, IsErr, is_err, if◌then◌else◌, OnOk, OnErr};
ghost use Rattle.std.specs.Io.{ReadsAtMost};
ghost use Rattle.std.specs.Io.KnownBytes.{ReadConsumes};
ghost use Rattle.edge_io.specs.Faults.{raised, HasFault};

use crate::source::{Failed, Source};
use std::marker::Model;

/// Gives the bytes of a list. Contracts see what is left of it, which reads fail, and how many were
/// made and failed.
#[derive(Drop)]
pub struct MemSource {
    bytes: Vec<u8>,
    next: usize,
    failing: Vec<u64>,
    reads: u64,
    faults: u64,
}

impl Model for MemSource {
    ghost use Rattle.std.specs.Prelude.{◌≤◌, drop, vec_len};
    ghost use Rattle.edge_io.specs.Memory.{SourceState};

    ghost Value = { SourceState };

    ghost view = { λ s. record {
      bytes = drop s.next s.bytes.items;
      failing = s.failing.items;
      reads = s.reads;
      faults = s.faults;
    } };

    ghost invariant = { λ s. s.next ≤ vec_len s.bytes };
}

impl MemSource {
    /// Gives `bytes`. The reads whose number is in `failing` fail, the first has number 1.
    pub fn new(bytes: Vec<u8>, failing: Vec<u64>) -> MemSource
        ensures left { result.bytes ≡ bytes.items }
        ensures failing { result.failing ≡ failing.items }
        ensures no_read { result.reads ≡ 0 }
        ensures no_fault { result.faults ≡ 0 }
    {
        MemSource {
            bytes,
            next: 0,
            failing,
            reads: 0,
            faults: 0,
        }
    }
}

impl Source for MemSource {
    ghost left = { λ s. Some s.bytes };

    ghost faults = { λ s. s.faults };

    fn read(&mut self, buf: &mut [u8]) -> Result<usize, Failed>
        ensures within { ReadsAtMost result buf.new }
        ensures bytes { ReadConsumes (Some self.old.bytes) (Some self.new.bytes) result buf.new }
        ensures failed { OnErr result (HasFault self.old.faults self.new.faults) }
        ensures none_hidden { OnOk result (self.new.faults ≡ self.old.faults) }
        ensures never_falls { self.old.faults ≤ self.new.faults }

        // It fails exactly at the numbers that were given, and each failure is counted, once.
        ensures fails { IsErr result ↔ Contains self.old.failing (raised self.old.reads) }
        ensures counted { self.new.faults ≡ (if is_err result then raised self.old.faults else self.old.faults) }
        ensures numbered { self.new.reads ≡ raised self.old.reads }
        ensures same { self.new.failing ≡ self.old.failing }
    {
        self.reads = self.reads.saturating_add(1);
        if self.failing.contains(&self.reads) {
            self.faults = self.faults.saturating_add(1);
            return Err(Failed);
        }
        let count = buf.len().min(self.bytes.len() - self.next);
        let end = self.next + count;
        buf[..count].copy_from_slice(&self.bytes[self.next..end]);
        self.next = end;
        Ok(count)
    }
}
