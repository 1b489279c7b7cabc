//! Each call once where it succeeds, and each failure once in mid-stream.
ghost use Rattle.std.specs.Prelude.{◌≤◌, IfOk};

use edge_io::{MemSink, MemSource, ReadStop, StdSink, StdSource, WriteFault, read_all, write_all};
use std::alloc::{AllocError, Global};
use std::io::{self, Read, Write};
use std::test::Fail;

/// A reader and a writer that move at most two bytes in a call, and fail in each call after the
/// first so many.
#[derive(Drop)]
struct Flaky {
    calls: usize,
}

impl Flaky {
    fn moved(&mut self, asked: usize) -> io::Result<usize>
        ensures { IfOk result (λ count. count ≤ asked) }
    {
        if self.calls == 0 {
            return Err(io::Error::other("gone"));
        }
        self.calls -= 1;
        Ok(asked.min(2))
    }
}

impl Read for Flaky {
    fn read(&mut self, buf: &mut [u8]) -> io::Result<usize> {
        self.moved(buf.len())
    }
}

impl Write for Flaky {
    fn write(&mut self, buf: &[u8]) -> io::Result<usize> {
        self.moved(buf.len())
    }

    fn flush(&mut self) -> io::Result<()> {
        Ok(())
    }
}

/// The bytes 0, 1, .., 255, 0, .. .
fn counting(alloc: Global, len: u32) -> Result<Vec<u8>, AllocError> {
    let mut bytes = Vec::new(alloc);
    for number in 0..len {
        bytes.push((number % 256) as u8)?;
    }
    Ok(bytes)
}

/// Whether these are so many bytes 0, 1, .., 255, 0, .. .
fn are_counting(bytes: &[u8], len: u32) -> bool {
    for (place, byte) in bytes.iter().enumerate() {
        if *byte as usize != place % 256 {
            return false;
        }
    }
    bytes.len() == len as usize
}

/// Whether the counting bytes of a source, whose read of such a number fails, are read to their end, or
/// there is this stop.
fn ends(
    alloc: Global,
    len: u32,
    failing: u64,
    limit: u64,
    stop: Option<ReadStop>,
) -> Result<bool, AllocError> {
    let bytes = counting(alloc, len)?;
    let mut source = MemSource::new(bytes, vec![in alloc; failing]?);
    match read_all(alloc, &mut source, limit) {
        Ok(bytes) => Ok(stop.is_none() && are_counting(bytes.as_slice(), len)),
        Err(cause) => Ok(stop == Some(cause)),
    }
}

#[test]
fn reads_over_memory(rt: HostRuntime) -> Result<(), Fail> {
    // The source's length, the number of the read that fails, the limit, and the stop.
    for (len, failing, limit, stop) in [
        (0, 9, 0, None),
        (5, 9, 9, None),
        (5, 9, 5, None),
        (5, 9, 4, Some(ReadStop::TooLong)),
        (5, 1, 9, Some(ReadStop::ReadFault)),
        (5, 2, 9, Some(ReadStop::ReadFault)),
        (70_000, 9, u64::MAX, None),
        (70_000, 9, 70_000, None),
        (70_000, 9, 69_999, Some(ReadStop::TooLong)),
        (70_000, 2, 70_000, Some(ReadStop::ReadFault)),
    ] {
        let so = ends(rt.alloc(), len, failing, limit, stop)?;
        assert!(rt; so, "{len} bytes, limit {limit}");
    }
    Ok(())
}

/// What the writing of five bytes answers where so many went out.
fn told(written: u64) -> Result<(), WriteFault> {
    if written == 5 {
        Ok(())
    } else {
        Err(WriteFault { written })
    }
}

/// Whether of five bytes so many go into a sink with such room, whose write of such a number fails.
fn takes(alloc: Global, room: u32, failing: u64, written: u64) -> Result<bool, AllocError>
    requires { written ≤ 5 }
{
    let mut sink = MemSink::new(alloc, room, vec![in alloc; failing]?)?;
    let outcome = write_all(&mut sink, b"hello");
    let (front, _) = b"hello".split_at(written as usize);
    Ok(sink.bytes() == front && outcome == told(written))
}

#[test]
fn writes_over_memory(rt: HostRuntime) -> Result<(), Fail> {
    // The sink's room, the number of the write that fails, and how many bytes were written.
    for (room, failing, written) in [(9, 9, 5), (5, 9, 5), (3, 9, 3), (9, 1, 0), (3, 2, 3)] {
        assert!(rt; takes(rt.alloc(), room, failing, written)?, "room {room}");
    }
    Ok(())
}

#[test]
fn reads_over_std(rt: HostRuntime) -> Result<(), Fail> {
    let mut source = StdSource::new(b"hello".as_slice());
    let read = read_all(rt.alloc(), &mut source, 5)?;
    assert_eq!(rt; read.as_slice(), b"hello".as_slice());
    Ok(())
}

#[test]
fn fails_to_read_over_std(rt: HostRuntime) {
    let mut source = StdSource::new(Flaky { calls: 2 });
    let stop = read_all(rt.alloc(), &mut source, 9).err();
    assert_eq!(rt; stop, Some(ReadStop::ReadFault));
}

#[test]
fn writes_over_std(rt: HostRuntime) {
    let mut sink = StdSink::new(Vec::new(rt.alloc()));
    let outcome = write_all(&mut sink, b"hello");
    assert_eq!(rt; outcome, Ok(()));
    assert_eq!(rt; sink.into_writer().as_slice(), b"hello".as_slice());
}

#[test]
fn fails_to_write_over_std(rt: HostRuntime) {
    let mut sink = StdSink::new(Flaky { calls: 2 });
    let outcome = write_all(&mut sink, b"hello");
    assert_eq!(rt; outcome, Err(WriteFault { written: 4 }));
}

#[test]
fn writes_what_has_room_over_std(rt: HostRuntime) {
    // Two bytes have room, and then a write takes none.
    let mut room = [0u8; 2];
    let mut sink = StdSink::new(room.as_mut_slice());
    let outcome = write_all(&mut sink, b"hello");
    assert_eq!(rt; outcome, Err(WriteFault { written: 2 }));
}
