//! Reads a source to its end.
ghost use Rattle.std.specs.Prelude.{◌≡◌, ◌↔◌, ℕ, ◌+◌, ◌<◌, ◌≤◌, ◌++◌, min, length, take, vec_len, vec_capacity, IfOk, IfErr, IfSome, OnOk, OnErr};
ghost use Rattle.std.specs.Io.KnownBytes.{Consumes, IsAtEnd, Keeps};
ghost use Rattle.edge_io.specs.Faults.{HasFault};
ghost use Rattle.edge_io.specs.Taking.{TakesAll, TakesMoreThan};
ghost use Rattle.edge_io.specs.Reading.{StopsReading, TellsFaults};

use crate::source::{Failed, Source};
use std::alloc::{AllocError, Global};
use thiserror::Error;

/// The most bytes of one read.
const PIECE: usize = 65536;

/// Why a source wasn't read to its end.
#[derive(Clone, Copy, Debug, PartialEq, Eq, Error)]
pub enum ReadStop {
    #[error("a read failed")]
    ReadFault,
    #[error("there are more bytes than the limit")]
    TooLong,
    #[error("out of memory")]
    NoMemory,
}

impl From<AllocError> for ReadStop {
    ghost use Rattle.edge_io.specs.declared.reading.ReadStop.TheVariants.{NoMemory};

    ghost from_gives = { λ _ stop. stop ≡ NoMemory };

    fn from(_error: AllocError) -> ReadStop {
        ReadStop::NoMemory
    }
}

impl From<Failed> for ReadStop {
    ghost use Rattle.edge_io.specs.declared.reading.ReadStop.TheVariants.{ReadFault};

    ghost from_gives = { λ _ stop. stop ≡ ReadFault };

    fn from(_failed: Failed) -> ReadStop {
        ReadStop::ReadFault
    }
}

/// How many bytes the next read asks for: one more than are still allowed, at most [`PIECE`].
fn piece_len(allowed: u64) -> usize
    ensures { result ≡ min (allowed + 1) 65536 }
{
    allowed.min(PIECE as u64 - 1) as usize + 1
}

/// One read, whose bytes are appended to `bytes`, which has room for them.
fn append_piece<S: Source>(
    source: &mut S,
    buffer: &mut [u8],
    bytes: &mut Vec<u8>,
) -> Result<usize, Failed>
    requires { vec_len bytes.old + length buffer.old ≤ vec_capacity bytes.old }
    ensures within { IfOk result (λ count. count ≤ length buffer.old) }
    ensures appended { IfOk result (λ count. bytes.new.items ≡ bytes.old.items ++ take count buffer.new) }
    ensures len { IfOk result (λ count. vec_len bytes.new ≡ vec_len bytes.old + count) }
    ensures consumed { IfOk result (λ count. Consumes (S.left source.old) (S.left source.new) (take count buffer.new)) }
    ensures end { IfOk result (λ count. count ≡ 0 → 0 < length buffer.old → IsAtEnd (S.left source.new)) }
    ensures kept { OnErr result (Keeps (S.left source.old) (S.left source.new)) }
    ensures same { OnErr result (bytes.new.items ≡ bytes.old.items) }
    ensures failed { OnErr result (HasFault (S.faults source.old) (S.faults source.new)) }
    ensures none_hidden { OnOk result (S.faults source.new ≡ S.faults source.old) }
    ensures never_falls { S.faults source.old ≤ S.faults source.new }
{
    let count = source.read(buffer)?;
    bytes.extend_from_slice(&buffer[..count]).unwrap();
    Ok(count)
}

/// All bytes that `source` has left, if they are at most `limit`.
///
/// It reads at most one byte more than `limit`, and that one only where the answer is `TooLong`.
/// Where it stops, the bytes that it took are lost. No clause says when memory runs out.
pub fn read_all<S: Source>(alloc: Global, source: &mut S, limit: u64) -> Result<Vec<u8>, ReadStop>
    ensures all { IfOk result (λ bytes. TakesAll (S.left source.old) (S.left source.new) bytes.items) }
    ensures within { IfOk result (λ bytes. vec_len bytes ≤ limit) }
    ensures stops { IfErr result (StopsReading (S.left source.old) (S.left source.new) limit) }
    ensures too_long { IfSome (S.left source.old)
        (λ all. (result ≡ Err ReadStop.TooLong) ↔ TakesMoreThan all (S.left source.new) limit) }
    ensures fault { result ≡ Err ReadStop.ReadFault → HasFault (S.faults source.old) (S.faults source.new) }
    ensures no_fault { OnOk result (S.faults source.new ≡ S.faults source.old) }
    ensures told { IfErr result (TellsFaults (S.faults source.old) (S.faults source.new)) }
    ensures never_falls { S.faults source.old ≤ S.faults source.new }
{
    let mut buffer = vec![in alloc; 0u8; piece_len(limit)]?;
    let mut bytes = Vec::new(alloc);
    'pieces: loop {
        let piece = piece_len(limit - bytes.len() as u64);
        bytes.reserve(piece)?;
        let count = append_piece(source, &mut buffer[..piece], &mut bytes)?;
        if count == 0 {
            return Ok(bytes);
        }
        if bytes.len() as u64 > limit {
            return Err(ReadStop::TooLong);
        }
    }
}
