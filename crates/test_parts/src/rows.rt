//! Rows, and the parts of them, by hand.

mod nodes;
mod paths;
mod singular;

use crate::tapes::{NoTape, tape_of};
use jp_devices::Watched;
use jp_model::{Framing, LineFault};
use jp_nodes::Cursor;
use jp_rows::{QueryPart, write_count, write_path, write_refusal, write_whole};
use std::alloc::{AllocError, Global};
use std::io;
use std::io::Write;
use std::test::Fail;

/// Takes one byte a call while it has room. Then it fails, or takes none.
#[derive(Drop)]
struct Taker {
    held: Vec<u8>,
    room: usize,
    fails: bool,
}

impl Write for Taker {
    fn write(&mut self, bytes: &[u8]) -> io::Result<usize> {
        if bytes.is_empty() {
            return Ok(0);
        }
        if self.held.len() >= self.room {
            return if self.fails {
                Err(io::ErrorKind::Other.into())
            } else {
                Ok(0)
            };
        }
        self.held.push(bytes[0])?;
        Ok(1)
    }

    fn flush(&mut self) -> io::Result<()> {
        Ok(())
    }
}

/// A writer with this room.
fn with_room(alloc: Global, room: usize, fails: bool) -> Taker {
    Taker {
        held: Vec::new(alloc),
        room,
        fails,
    }
}

/// The path of the member of an object whose only name has this body.
fn path_of_member(alloc: Global, body: &[u8]) -> Result<Vec<u8>, NoTape> {
    let mut line = Vec::from_slice(alloc, b"{\"")?;
    line.extend_from_slice(body)?;
    line.extend_from_slice(b"\":0}")?;
    let tape = tape_of(alloc, &line)?;
    let root = Cursor::root(&tape, &line);
    let Some(member) = root.first_child() else {
        return Err(NoTape::Line);
    };
    let mut out = Watched::new(Vec::new(alloc));
    match write_path(member, &mut out) {
        Ok(()) => Ok(out.into_inner()),
        Err(_) => Err(NoTape::Memory),
    }
}

#[test]
fn texts_are_written_whole(rt: HostRuntime) -> Result<(), Fail> {
    for text in [b"".as_slice(), b"a", b"a\nb\n"] {
        let mut out = Watched::new(Vec::new(rt.alloc()));
        assert!(rt; write_whole(text, &mut out).is_ok());
        assert_eq!(rt; out.into_inner().as_slice(), text);
    }
    Ok(())
}

#[test]
fn refusals_have_the_word_of_their_fault(rt: HostRuntime) -> Result<(), Fail> {
    let rows: [(u32, LineFault, Framing, &[u8]); 4] = [
        (1, LineFault::Utf8, Framing::Lines, b"1\t!utf8\n"),
        (3, LineFault::Grammar, Framing::Lines, b"3\t!grammar\n"),
        (
            10,
            LineFault::Truncated,
            Framing::Sequence,
            b"\x1e10\t!truncated\n",
        ),
        (
            4_294_967_295,
            LineFault::Duplicate,
            Framing::Sequence,
            b"\x1e4294967295\t!duplicate\n",
        ),
    ];
    for (line, fault, framing, want) in rows {
        let mut out = Watched::new(Vec::new(rt.alloc()));
        assert!(rt; write_refusal(line, fault, framing, &mut out).is_ok());
        assert_eq!(rt; out.into_inner().as_slice(), want);
    }
    Ok(())
}

#[test]
fn counts_end_answers(rt: HostRuntime) -> Result<(), Fail> {
    let lines: [(usize, &[u8]); 3] = [
        (0, b"= 0\n"),
        (12, b"= 12\n"),
        (18_446_744_073_709_551_615, b"= 18446744073709551615\n"),
    ];
    for (count, want) in lines {
        let mut out = Watched::new(Vec::new(rt.alloc()));
        assert!(rt; write_count(count, &mut out).is_ok());
        assert_eq!(rt; out.into_inner().as_slice(), want);
    }
    Ok(())
}

#[test]
fn no_write_follows_a_failed_one(rt: HostRuntime) -> Result<(), Fail> {
    let text = b"\x1e12\t!number\n";
    for room in 0..=text.len() {
        for fails in [false, true] {
            let mut out = Watched::new(with_room(rt.alloc(), room, fails));
            let result = write_refusal(12, LineFault::Number, Framing::Sequence, &mut out);
            assert_eq!(rt; result.is_err(), room < text.len());
            assert_eq!(rt; out.failed(), room < text.len());
            assert_eq!(rt; out.calls(), (room as u64 + 1).min(12));
            assert_eq!(rt; out.after(), 0);
            let held = out.into_inner().held;
            assert!(rt; room <= text.len());
            assert_eq!(rt; held.as_slice(), &text[..room]);
        }
    }
    Ok(())
}

#[test]
fn names_are_printed(rt: HostRuntime) -> Result<(), Fail> {
    let names: [(&[u8], &[u8]); 9] = [
        (b"", b"['']"),
        (b"a", b"['a']"),
        (b"'", b"['\\'']"),
        (b"'\\\\\\t\\u0001", b"['\\'\\\\\\t\\u0001']"),
        (b"\\u0027\\u005c\\/\\\"", b"['\\'\\\\/\"']"),
        (
            b"\\b\\n\\f\\r\\u000b\\u001F\\u007f",
            b"['\\b\\n\\f\\r\\u000b\\u001f\x7f']",
        ),
        (b"\xE2\x82\xAC", b"['\xE2\x82\xAC']"),
        (
            b"\\u20AC\\uD834\\udd1e",
            b"['\xE2\x82\xAC\xF0\x9D\x84\x9E']",
        ),
        (b"\xF0\x9D\x84\x9E'", b"['\xF0\x9D\x84\x9E\\'']"),
    ];
    for (body, want) in names {
        let path = path_of_member(rt.alloc(), body).ok().ok_or("no tape")?;
        assert!(rt; path.starts_with(b"$"));
        assert_eq!(rt; &path[1..], want);
    }
    Ok(())
}

#[test]
fn indexes_are_printed(rt: HostRuntime) -> Result<(), Fail> {
    let steps: [(i64, &[u8]); 4] = [
        (0, b"[0]"),
        (-1, b"[-1]"),
        (10, b"[10]"),
        (4_294_967_295, b"[4294967295]"),
    ];
    for (index, want) in steps {
        let mut out = Vec::new(rt.alloc());
        QueryPart::Index(index).push_to(&mut out)?;
        assert_eq!(rt; out.as_slice(), want);
    }
    Ok(())
}
