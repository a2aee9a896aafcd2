//! Tests of watched devices.

use super::*;
use std::alloc::Global;
use std::io;
use std::io::{BufWriter, Read, Write};
use std::test::Fail;

/// Gives one byte a call, and fails once its bytes have ended.
#[derive(Drop)]
struct Giver {
    bytes: &'static [u8],
}

impl Read for Giver {
    fn read(&mut self, bytes: &mut [u8]) -> io::Result<usize> {
        if self.bytes.is_empty() {
            return Err(io::ErrorKind::Other.into());
        }
        if bytes.is_empty() {
            return Ok(0);
        }
        bytes[0] = self.bytes[0];
        self.bytes = &self.bytes[1..];
        Ok(1)
    }
}

/// Takes one byte a call while it has room, and then none; it fails at a line feed, and at a flush without room.
#[derive(Drop)]
struct Taker {
    held: Vec<u8>,
    room: usize,
}

impl Write for Taker {
    fn write(&mut self, bytes: &[u8]) -> io::Result<usize> {
        if bytes.is_empty() || self.held.len() >= self.room {
            return Ok(0);
        }
        if bytes[0] == b'\n' {
            return Err(io::ErrorKind::Other.into());
        }
        self.held.push(bytes[0])?;
        Ok(1)
    }

    fn flush(&mut self) -> io::Result<()> {
        if self.held.len() >= self.room {
            return Err(io::ErrorKind::Other.into());
        }
        Ok(())
    }
}

/// Counts its own calls. It gives nothing, and takes all.
#[derive(Drop)]
struct Counting {
    calls: u64,
}

impl Read for Counting {
    fn read(&mut self, _bytes: &mut [u8]) -> io::Result<usize> {
        self.calls = self.calls.saturating_add(1);
        Ok(0)
    }
}

impl Write for Counting {
    fn write(&mut self, bytes: &[u8]) -> io::Result<usize> {
        self.calls = self.calls.saturating_add(1);
        Ok(bytes.len())
    }

    fn flush(&mut self) -> io::Result<()> {
        self.calls = self.calls.saturating_add(1);
        Ok(())
    }
}

#[test]
fn reads_are_watched(rt: HostRuntime) -> Result<(), Fail> {
    let mut reader = Watched::new(Giver { bytes: b"ab" });
    let mut bytes = [0u8; 4];
    assert!(rt; !reader.failed());
    assert_eq!(rt; reader.calls(), 0);
    assert_eq!(rt; reader.read(&mut bytes)?, 1);
    assert_eq!(rt; bytes[0], b'a');
    assert_eq!(rt; reader.read(&mut bytes)?, 1);
    assert_eq!(rt; bytes[0], b'b');
    assert!(rt; !reader.failed());
    assert!(rt;
        matches!(reader.read(&mut bytes), Err(error) if error.kind() == io::ErrorKind::Other)
    );
    assert!(rt; reader.failed());
    assert!(rt; !reader.ended());
    assert_eq!(rt; reader.calls(), 3);
    assert_eq!(rt; reader.after(), 0);
    assert!(rt; reader.read(&mut bytes).is_err());
    assert_eq!(rt; reader.calls(), 4);
    assert_eq!(rt; reader.after(), 1);
    assert!(rt; reader.into_inner().bytes.is_empty());
    Ok(())
}

#[test]
fn reads_after_the_end_are_counted(rt: HostRuntime) -> Result<(), Fail> {
    let mut reader = Watched::new(b"ab".as_slice());
    let mut bytes = [0u8; 4];
    assert_eq!(rt; reader.read(&mut bytes)?, 2);
    assert!(rt; !reader.ended());
    assert_eq!(rt; reader.read(&mut bytes)?, 0);
    assert!(rt; reader.ended());
    assert!(rt; !reader.failed());
    assert_eq!(rt; reader.after(), 0);
    assert_eq!(rt; reader.read(&mut bytes)?, 0);
    assert_eq!(rt; reader.read(&mut [])?, 0);
    assert!(rt; reader.ended());
    assert_eq!(rt; reader.calls(), 4);
    assert_eq!(rt; reader.after(), 2);
    Ok(())
}

#[test]
fn reads_into_no_room_are_counted(rt: HostRuntime) -> Result<(), Fail> {
    let mut reader = Watched::new(b"ab".as_slice());
    let mut bytes = [0u8; 1];
    assert_eq!(rt; reader.read(&mut [])?, 0);
    assert!(rt; !reader.ended());
    assert_eq!(rt; reader.after(), 1);
    assert_eq!(rt; reader.read(&mut bytes)?, 1);
    assert_eq!(rt; reader.calls(), 2);
    assert_eq!(rt; reader.after(), 1);
    Ok(())
}

#[test]
fn writes_are_watched(rt: HostRuntime) -> Result<(), Fail> {
    let mut writer = Watched::new(Taker {
        held: Vec::new(rt.alloc()),
        room: 2,
    });
    assert_eq!(rt; writer.write(b"abc")?, 1);
    assert_eq!(rt; writer.write(b"bc")?, 1);
    assert_eq!(rt; writer.write(b"")?, 0);
    assert!(rt; !writer.failed());
    assert_eq!(rt; writer.write(b"c")?, 0);
    assert!(rt; writer.failed());
    assert_eq!(rt; writer.calls(), 4);
    assert_eq!(rt; writer.after(), 0);
    assert_eq!(rt; writer.write(b"")?, 0);
    assert_eq!(rt; writer.after(), 1);
    assert_eq!(rt; writer.into_inner().held.as_slice(), b"ab".as_slice());
    Ok(())
}

#[test]
fn flushes_are_watched(rt: HostRuntime) -> Result<(), Fail> {
    let mut writer = Watched::new(Taker {
        held: Vec::new(rt.alloc()),
        room: 2,
    });
    writer.flush()?;
    assert_eq!(rt; writer.write(b"")?, 0);
    assert!(rt; !writer.unflushed());
    assert_eq!(rt; writer.write(b"ab")?, 1);
    assert!(rt; writer.unflushed());
    writer.flush()?;
    assert!(rt; !writer.unflushed());
    assert!(rt; !writer.failed());
    assert_eq!(rt; writer.calls(), 4);
    assert_eq!(rt; writer.write(b"bc")?, 1);
    assert!(rt; writer.flush().is_err());
    assert!(rt; writer.unflushed());
    assert!(rt; writer.failed());
    assert_eq!(rt; writer.calls(), 6);
    assert_eq!(rt; writer.after(), 0);
    assert!(rt; writer.flush().is_err());
    assert_eq!(rt; writer.after(), 1);
    assert_eq!(rt; writer.into_inner().held.as_slice(), b"ab".as_slice());
    Ok(())
}

#[test]
fn a_write_that_answers_an_error_has_failed(rt: HostRuntime) {
    let mut writer = Watched::new(Taker {
        held: Vec::new(rt.alloc()),
        room: 2,
    });
    assert!(rt; matches!(writer.write(b"\n"), Err(error) if error.kind() == io::ErrorKind::Other));
    assert!(rt; writer.failed());
    assert_eq!(rt; writer.calls(), 1);
    assert_eq!(rt; writer.after(), 0);
    assert!(rt; writer.flush().is_ok());
    assert_eq!(rt; writer.after(), 1);
}

#[test]
fn each_call_is_one_call_of_the_device(rt: HostRuntime) -> Result<(), Fail> {
    let mut bytes = [0u8; 4];
    let mut reader = Watched::new(Counting { calls: 0 });
    assert_eq!(rt; reader.read(&mut bytes)?, 0);
    assert_eq!(rt; reader.read(&mut bytes)?, 0);
    assert_eq!(rt; reader.read(&mut [])?, 0);
    assert_eq!(rt; reader.calls(), 3);
    assert_eq!(rt; reader.into_inner().calls, 3);
    let mut writer = Watched::new(Counting { calls: 0 });
    assert_eq!(rt; writer.write(b"")?, 0);
    assert_eq!(rt; writer.write(b"ab")?, 2);
    writer.flush()?;
    writer.flush()?;
    assert_eq!(rt; writer.calls(), 4);
    assert_eq!(rt; writer.into_inner().calls, 4);
    Ok(())
}

#[test]
fn reads_that_come_before_a_flush_are_counted(rt: HostRuntime) -> Result<(), Fail> {
    let mut reader = Watched::new(b"abcd".as_slice());
    let mut writer = Watched::new(Vec::new(rt.alloc()));
    let mut byte = [0u8; 1];
    assert_eq!(rt; reader.read_after(&writer, &mut byte)?, 1);
    assert_eq!(rt; reader.early(), 0);
    assert_eq!(rt; writer.write(b"x")?, 1);
    assert_eq!(rt; reader.read_after(&writer, &mut byte)?, 1);
    assert_eq!(rt; byte[0], b'b');
    assert_eq!(rt; reader.early(), 1);
    writer.flush()?;
    assert_eq!(rt; reader.read_after(&writer, &mut byte)?, 1);
    assert_eq!(rt; reader.early(), 1);
    assert_eq!(rt; reader.read(&mut byte)?, 1);
    assert_eq!(rt; reader.early(), 2);
    assert_eq!(rt; reader.calls(), 4);
    assert_eq!(rt; writer.early(), 0);
    Ok(())
}

#[test]
fn a_watched_writer_stands_behind_a_buffer(rt: HostRuntime) -> Result<(), Fail> {
    let mut buffer = BufWriter::new(rt.alloc(), Watched::new(Vec::new(rt.alloc())))?;
    buffer.write_all(b"ab")?;
    assert_eq!(rt; buffer.get_ref().calls(), 0);
    buffer.flush()?;
    let (writer, rest) = buffer.into_parts();
    assert!(rt; rest.is_empty());
    assert_eq!(rt; writer.calls(), 2);
    assert!(rt; !writer.unflushed());
    assert_eq!(rt; writer.into_inner().as_slice(), b"ab".as_slice());
    Ok(())
}
