//! A sink over memory, with room for so many bytes, whose writes fail where they are told to.
ghost use Rattle.std.specs.Prelude.{◌≡◌, ◌↔◌, ℕ, ◌<◌, ◌≤◌, [], List, Some, length, Contains, IsErr, is_err, if◌then◌else◌, IfOk, OnOk, OnErr, ◌⊎◌};
ghost use Rattle.std.specs.Io.{WritesAtMost};
ghost use Rattle.std.specs.Io.KnownBytes.{WriteAppends};
ghost use Rattle.edge_io.specs.Faults.{raised, HasFault};
ghost use Rattle.edge_io.specs.Memory.{IsFull};

use crate::sink::Sink;
use crate::source::Failed;
use std::alloc::{AllocError, Global};
use std::marker::Model;

/// Keeps the bytes that it takes. Contracts see them, the room, which writes fail, and how many
/// were made and failed.
#[derive(Drop)]
pub struct MemSink {
    bytes: Vec<u8>,
    room: u32,
    failing: Vec<u64>,
    writes: u64,
    faults: u64,
}

impl Model for MemSink {
    ghost use Rattle.std.specs.Prelude.{◌≤◌, vec_len, vec_capacity};
    ghost use Rattle.edge_io.specs.Memory.{SinkState};

    ghost Value = { SinkState };

    ghost view = { λ s. record {
      bytes = s.bytes.items;
      room = s.room;
      failing = s.failing.items;
      writes = s.writes;
      faults = s.faults;
    } };

    ghost invariant = { λ s. (vec_len s.bytes ≤ s.room) × (s.room ≤ vec_capacity s.bytes) };
}

impl MemSink {
    /// Takes up to `room` bytes, for which it takes the memory now. The writes whose number is in
    /// `failing` fail, the first has number 1.
    pub fn new(alloc: Global, room: u32, failing: Vec<u64>) -> Result<MemSink, AllocError>
        ensures empty { IfOk result (λ sink. sink.bytes ≡ []) }
        ensures room { IfOk result (λ sink. sink.room ≡ room) }
        ensures failing { IfOk result (λ sink. sink.failing ≡ failing.items) }
        ensures no_write { IfOk result (λ sink. sink.writes ≡ 0) }
        ensures no_fault { IfOk result (λ sink. sink.faults ≡ 0) }
    {
        let bytes = Vec::with_capacity(alloc, room as usize)?;
        Ok(MemSink {
            bytes,
            room,
            failing,
            writes: 0,
            faults: 0,
        })
    }

    /// The bytes that were taken.
    pub fn bytes(&self) -> &[u8]
        ensures { result.now ≡ self.now.bytes }
    {
        self.bytes.as_slice()
    }
}

impl Sink for MemSink {
    ghost taken = { λ s. Some s.bytes };

    ghost faults = { λ s. s.faults };

    fn write(&mut self, piece: &[u8]) -> Result<usize, Failed>
        ensures within { WritesAtMost result piece.now }
        ensures moves { IfOk result (λ count. 0 < length piece.now → 0 < count) }
        ensures bytes { WriteAppends (Some self.old.bytes) (Some self.new.bytes) result piece.now }
        ensures failed { OnErr result (HasFault self.old.faults self.new.faults) }
        ensures none_hidden { OnOk result (self.new.faults ≡ self.old.faults) }
        ensures never_falls { self.old.faults ≤ self.new.faults }

        // It fails exactly at the numbers that were given and where there is no room, and each
        // failure is counted, once.
        ensures fails { IsErr result ↔ (Contains self.old.failing (raised self.old.writes) ⊎ IsFull self.old piece.now) }
        ensures counted { self.new.faults ≡ (if is_err result then raised self.old.faults else self.old.faults) }
        ensures numbered { self.new.writes ≡ raised self.old.writes }
        ensures same_room { self.new.room ≡ self.old.room }
        ensures same_failing { self.new.failing ≡ self.old.failing }
        ensures in_room { length self.new.bytes ≤ self.new.room }
    {
        self.writes = self.writes.saturating_add(1);
        let room = self.room as usize - self.bytes.len();
        let is_full = room == 0 && !piece.is_empty();
        if is_full || self.failing.contains(&self.writes) {
            self.faults = self.faults.saturating_add(1);
            return Err(Failed);
        }
        let count = piece.len().min(room);
        self.bytes.extend_from_slice(&piece[..count]).unwrap();
        Ok(count)
    }
}
