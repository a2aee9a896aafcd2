//! Tapes and faults of lines by hand, and walks over tapes.

ghost use Rattle.std.specs.Prelude.{IfOk};
ghost use Rattle.jp_nodes.specs.Tapes.{IsTapeOf};

mod cursors;
mod limits;
mod names;

use crate::{BuildFault, Builder, Cursor, Kind, Tape, build, packed_words};
use jp_masks::line_marks;
use jp_model::{Framing, LineFault, Span, is_blank};
use std::alloc::{AllocError, Global};

/// Why a test stops: a line is refused, or memory.
#[derive(Debug, Drop)]
enum Fail {
    Fault(BuildFault),
    Memory,
}

impl From<BuildFault> for Fail {
    fn from(fault: BuildFault) -> Fail {
        Fail::Fault(fault)
    }
}

impl From<AllocError> for Fail {
    fn from(_error: AllocError) -> Fail {
        Fail::Memory
    }
}

/// The tape of a line. What `build` does not take, a blank line or one of 4 GiB and more, is told as refused memory.
fn read(alloc: Global, line: &[u8], framing: Framing) -> Result<Tape, BuildFault>
    ensures { IfOk result (λ tape. IsTapeOf tape line.now) }
{
    if is_blank(line) || line.len() > 0xffff_ffff {
        return Err(BuildFault::Memory);
    }
    let is_utf8 = std::str::from_utf8(line).is_ok();
    let Ok(marks) = line_marks(alloc, line) else {
        return Err(BuildFault::Memory);
    };
    build(alloc, line, &marks, is_utf8, framing)
}

/// What a tape has of a node.
#[derive(Clone, Copy, Debug, PartialEq, Eq)]
struct Seen {
    kind: Kind,
    span: Span,
    name: Option<Span>,
    index: u32,
    after: u32,
}

/// What a tape has of each of its nodes.
fn nodes_of(alloc: Global, root: Cursor<'_>) -> Result<Vec<Seen>, AllocError> {
    let mut nodes = Vec::new(alloc);
    for place in 0..root.after() {
        let node = root.go_to(place);
        nodes.push(Seen {
            kind: node.kind(),
            span: node.span(),
            name: node.name_span(),
            index: node.index(),
            after: node.after(),
        })?;
    }
    Ok(nodes)
}

/// What the builder that read one line has of the next, whose tape comes after that of the first.
fn nodes_behind(alloc: Global, before: &[u8], line: &[u8]) -> Result<Vec<Seen>, Fail> {
    if is_blank(before)
        || before.len() > 0xffff_ffff
        || is_blank(line)
        || line.len() > 0xffff_ffff
    {
        return Err(Fail::Memory);
    }
    let marks_before = line_marks(alloc, before)?;
    let marks = line_marks(alloc, line)?;
    let is_utf8 = std::str::from_utf8(before).is_ok();
    let mut builder = Builder::new(alloc);
    let mut tapes = Vec::new(alloc);
    let _nodes = builder.append(before, &marks_before, is_utf8, Framing::Lines, &mut tapes);
    let start = tapes.len();
    let is_utf8 = std::str::from_utf8(line).is_ok();
    let nodes = builder.append(line, &marks, is_utf8, Framing::Lines, &mut tapes)?;
    let words = packed_words(&tapes, start, nodes, line);
    Ok(nodes_of(alloc, Cursor::of_words(words, line))?)
}

/// The words of the tape of a line, as they are in memory.
fn words_of(alloc: Global, line: &[u8]) -> Result<Vec<u64>, Fail> {
    if is_blank(line) || line.len() > 0xffff_ffff {
        return Err(Fail::Memory);
    }
    let marks = line_marks(alloc, line)?;
    let is_utf8 = std::str::from_utf8(line).is_ok();
    let mut tapes = Vec::new(alloc);
    let _nodes = Builder::new(alloc).append(line, &marks, is_utf8, Framing::Lines, &mut tapes)?;
    Ok(tapes)
}

/// The three words of a node in one, as a short line has them.
fn in_one(head: u64, span: u64, label: u64) -> u64 {
    head.wrapping_add(span.wrapping_mul(1 << 10))
        .wrapping_add(label.wrapping_mul(1 << 20))
}

/// The fault of a line, or `None` where it has a tape or memory is refused.
fn fault(alloc: Global, line: &[u8], framing: Framing) -> Option<LineFault> {
    match read(alloc, line, framing) {
        Err(BuildFault::Line(fault)) => Some(fault),
        Err(BuildFault::Memory) => None,
        Ok(_) => None,
    }
}

/// Whether a line of a collection has a tape.
fn has_tape(alloc: Global, line: &[u8]) -> bool {
    read(alloc, line, Framing::Lines).is_ok()
}

/// Whether a line of a collection is refused with this fault.
fn is_refused(alloc: Global, line: &[u8], wanted: LineFault) -> bool {
    fault(alloc, line, Framing::Lines) == Some(wanted)
}

#[test]
fn nodes_stand_in_order(rt: HostRuntime) -> Result<(), Fail> {
    let words = words_of(rt.alloc(), b"{\"a\":[1,true]}")?;
    let nodes = [
        in_one((5 + 3) * 4294967296 + 1, 14, 0),
        in_one(
            (5 + 2) * 4294967296,
            5 * 4294967296 + 13,
            2 * 4294967296 + 3,
        ),
        in_one(3 * 4294967296 + 2, 6 * 4294967296 + 7, 0),
        in_one(2 * 4294967296 + 2, 8 * 4294967296 + 12, 1),
    ];
    assert!(rt; words.as_slice() == nodes.as_slice());
    Ok(())
}

#[test]
fn the_line_before_is_forgotten(rt: HostRuntime) -> Result<(), Fail> {
    let alloc = rt.alloc();
    for before in [
        "[{\"a\":[1,{\"b\":",
        "[\"\\ud800\",1e9999999999999999,{\"a\":1,\"a\":2}]",
    ] {
        for line in ["{\"a\":{\"b\":1}}", "0"] {
            let alone = read(alloc, line.as_bytes(), Framing::Lines)?;
            let alone = nodes_of(alloc, Cursor::root(&alone, line.as_bytes()))?;
            let behind = nodes_behind(alloc, before.as_bytes(), line.as_bytes())?;
            assert!(rt; behind == alone);
        }
    }
    Ok(())
}

#[test]
fn texts_are_read(rt: HostRuntime) {
    let alloc = rt.alloc();
    assert!(rt; has_tape(alloc, b" null "));
    assert!(rt; has_tape(alloc, b"-0.5e+10"));
    assert!(rt;
        has_tape(
            alloc,
            b"[1e0000000000000000001, {}, [], \"\\ud834\\udd1e\\u0041\"]"
        )
    );
    assert!(rt; has_tape(alloc, "{\"é\" : \"𝄞\", \"\" : false}".as_bytes()));
}

#[test]
fn faults_are_told(rt: HostRuntime) {
    let alloc = rt.alloc();
    assert!(rt; is_refused(alloc, b"[1,]", LineFault::Grammar));
    assert!(rt; is_refused(alloc, b"01", LineFault::Grammar));
    assert!(rt; is_refused(alloc, b"\"a", LineFault::Grammar));
    assert!(rt; is_refused(alloc, b"\"\\x\"", LineFault::Grammar));
    assert!(rt; is_refused(alloc, b"{\"a\" 1}", LineFault::Grammar));
    assert!(rt; is_refused(alloc, b"[1]]", LineFault::Grammar));
    assert!(rt; is_refused(alloc, b"\"\xff\"", LineFault::Utf8));
    assert!(rt; is_refused(alloc, b"\"\\udc00\"", LineFault::Surrogate));
    assert!(rt; is_refused(alloc, b"{\"\\ud800\":1}", LineFault::Surrogate));
    assert!(rt; is_refused(alloc, b"[1e1000000000000000]", LineFault::Number));
    assert!(rt;
        is_refused(
            alloc,
            b"[{\"a\":1,\"b\":2,\"\\u0061\":3}]",
            LineFault::Duplicate
        )
    );
    assert!(rt;
        is_refused(
            alloc,
            b"[\"\\ud800\", 1e1000000000000000, {\"a\":1,\"a\":2}]",
            LineFault::Surrogate
        )
    );
    assert!(rt;
        is_refused(
            alloc,
            b"[\"\\ud800\", {\"a\":1,\"a\":2}",
            LineFault::Grammar
        )
    );
}

#[test]
fn numbers_are_read_to_their_ends(rt: HostRuntime) {
    let alloc = rt.alloc();
    assert!(rt; has_tape(alloc, b"[0,-0,10,-1.5,0.25,-0.0, 1.5e3,1E-2]"));
    for line in [
        "-", "[-]", "1.", "[1.]", "-.5", ".5", "1.5.2", "1.5e", "-01.5", "--1", "1-", "1.5x",
    ] {
        assert!(rt; is_refused(alloc, line.as_bytes(), LineFault::Grammar));
    }
}

#[test]
fn equal_names_of_two_objects_are_no_fault(rt: HostRuntime) {
    assert!(rt; has_tape(rt.alloc(), b"{\"a\":{\"a\":1},\"b\":[{\"a\":2},{\"a\":3}]}"));
}

#[test]
fn ends_of_texts_are_seen(rt: HostRuntime) {
    let alloc = rt.alloc();
    assert!(rt; fault(alloc, b"12", Framing::Sequence) == Some(LineFault::Truncated));
    assert!(rt; fault(alloc, b"true", Framing::Sequence) == Some(LineFault::Truncated));
    assert!(rt; read(alloc, b"12\n", Framing::Sequence).is_ok());
    assert!(rt; read(alloc, b"[12]", Framing::Sequence).is_ok());
    assert!(rt; read(alloc, b"\"a\"", Framing::Sequence).is_ok());
    assert!(rt; read(alloc, b"12", Framing::Lines).is_ok());
}

/// A JSON text none of whose shorter beginnings is one.
const WHOLE: [u8; 29] = *b"{\"a\":[{\"b\":1},{\"b\":2}],\"b\":3}";

#[test]
fn cut_texts_are_refused(rt: HostRuntime) {
    let line = WHOLE;
    assert!(rt; has_tape(rt.alloc(), &line));
    for end in 1..29 {
        assert!(rt; is_refused(rt.alloc(), &line[..end], LineFault::Grammar));
    }
}

#[test]
fn tokens_that_touch_are_refused(rt: HostRuntime) {
    let alloc = rt.alloc();
    assert!(rt; is_refused(alloc, b"[\\\"a\"]", LineFault::Grammar));
    assert!(rt; is_refused(alloc, b"[1\\\"]", LineFault::Grammar));
    assert!(rt; is_refused(alloc, b"[12x]", LineFault::Grammar));
    assert!(rt; is_refused(alloc, b"[01]", LineFault::Grammar));
    assert!(rt; is_refused(alloc, b"\"a\"b", LineFault::Grammar));
    assert!(rt; is_refused(alloc, b"[1 2]", LineFault::Grammar));
    assert!(rt; is_refused(alloc, b"[true\"a\"]", LineFault::Grammar));
    assert!(rt; has_tape(alloc, b" [ 1 , \"a\" , { } , [ ] , null ] "));
}

/// An array of a string of 59 letters and `slashes` backslashes, which ends with `end`.
fn slashed(alloc: Global, slashes: usize, end: &[u8]) -> Result<Vec<u8>, AllocError> {
    let mut line = Vec::from_slice(alloc, b"[\"")?;
    for _ in 0..59 {
        line.push(b'x')?;
    }
    for _ in 0..slashes {
        line.push(b'\\')?;
    }
    line.extend_from_slice(end)?;
    Ok(line)
}

#[test]
fn backslashes_are_counted(rt: HostRuntime) -> Result<(), Fail> {
    let alloc = rt.alloc();
    assert!(rt; has_tape(alloc, &slashed(alloc, 4, b"\"]")?));
    assert!(rt; has_tape(alloc, &slashed(alloc, 5, b"\"\"]")?));
    assert!(rt; is_refused(alloc, &slashed(alloc, 5, b"\"]")?, LineFault::Grammar));
    assert!(rt; is_refused(alloc, &slashed(alloc, 4, b"\"\"]")?, LineFault::Grammar));
    Ok(())
}
