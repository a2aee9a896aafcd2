//! Lines that end inside a string or a character, in any pieces.

ghost use Rattle.std.specs.Prelude.{◌+◌, ◌^◌, ◌<◌, ◌++◌, length, IfOk};
ghost use Rattle.jp_masks.specs.Scanned.{AreAllOf};

use crate::{Marks, Scanner, laws, line_marks};
use jp_model::{Framing, Span};
use std::alloc::{AllocError, Global};
use std::process::Abort;
use std::test::Fail;

mod cuts;

/// 21 lines that a string is left open in, and a last one: 64 bytes.
const SHORT_LINES: &[u8] =
    b"\"x\n\"x\n\"x\n\"x\n\"x\n\"x\n\"x\n\"x\n\"x\n\"x\n\"x\n\"x\n\"x\n\"x\n\"x\n\"x\n\"x\n\"x\n\"x\n\"x\n\"x\n1";

/// The marks of a collection that comes in two pieces.
fn scan(alloc: Global, framing: Framing, front: &[u8], back: &[u8]) -> Result<Marks, AllocError>
    requires { length front.now + length back.now < 2 ^ 32 }
    ensures { IfOk result (λ marks. AreAllOf framing (front.now ++ back.now) marks) }
{
    let mut marks = Marks::new(alloc);
    let mut scanner = Scanner::new(framing);
    scanner.feed(front, &mut marks)?;
    scanner.feed(back, &mut marks)?;
    scanner.finish(&mut marks)?;
    Ok(marks)
}

/// The lines are these, each from where to where and with its marks.
fn has_lines(rt: &impl Abort, marks: &Marks, lines: &[(u32, u32, &[u32])]) {
    assert_eq!(rt; marks.line_count(), lines.len());
    for (k, (start, end, positions)) in lines.iter().enumerate() {
        let line = marks.line(k);
        let span = Span {
            start: *start,
            end: *end,
        };
        assert_eq!(rt; line.span, span);
        assert_eq!(rt; line.positions, *positions);
    }
}

#[test]
fn lines_end_at_line_feeds(rt: HostRuntime) -> Result<(), Fail> {
    let front = b"\"x\\\n{\"a\":";
    let marks = scan(rt.alloc(), Framing::Lines, front, b" 12}\n\n\"y")?;
    let lines: [(u32, u32, &[u32]); 4] = [
        (0, 3, &[0]),
        (4, 13, &[0, 1, 3, 4, 6, 8]),
        (14, 14, &[]),
        (15, 17, &[0]),
    ];
    has_lines(&rt, &marks, &lines);
    laws::lines_are_those_of_the_text();
    Ok(())
}

#[test]
fn texts_begin_at_separators(rt: HostRuntime) -> Result<(), Fail> {
    let front = b"\n\x1E\"ab";
    let marks = scan(rt.alloc(), Framing::Sequence, front, b"c\x1E\x1E[\n1]")?;
    has_lines(&rt, &marks, &[(2, 6, &[0]), (8, 12, &[0, 2, 3])]);
    Ok(())
}

#[test]
fn each_line_has_its_own_verdict(rt: HostRuntime) -> Result<(), Fail> {
    let marks = scan(rt.alloc(), Framing::Lines, b"\"\xC3\n\"y\"", b"\n")?;
    assert_eq!(&rt; marks.line_count(), 2);
    assert!(&rt; !marks.line_is_utf8(b"\"\xC3\n\"y\"\n", 0));
    assert!(&rt; marks.line_is_utf8(b"\"\xC3\n\"y\"\n", 1));
    Ok(())
}

#[test]
fn whole_blocks_are_told_at_once(rt: HostRuntime) -> Result<(), Fail> {
    let mut marks = Marks::new(rt.alloc());
    let mut scanner = Scanner::new(Framing::Lines);
    scanner.feed(SHORT_LINES, &mut marks)?;
    assert_eq!(&rt; marks.line_count(), 21);
    scanner.finish(&mut marks)?;
    assert_eq!(&rt; marks.line_count(), 22);
    Ok(())
}

#[test]
fn cleared_marks_are_used_again(rt: HostRuntime) -> Result<(), Fail> {
    let mut marks = scan(rt.alloc(), Framing::Lines, b"[1]\n\"\xC3\n", b"2")?;
    assert_eq!(&rt; marks.line_count(), 3);
    marks.clear();
    assert_eq!(&rt; marks.line_count(), 0);
    let mut scanner = Scanner::new(Framing::Lines);
    scanner.feed(b"{}\n\"y\"", &mut marks)?;
    scanner.finish(&mut marks)?;
    has_lines(&rt, &marks, &[(0, 2, &[0, 1]), (3, 6, &[0, 2])]);
    Ok(())
}

#[test]
fn marks_of_one_line(rt: HostRuntime) -> Result<(), Fail> {
    let marks = line_marks(rt.alloc(), b"{\"a\\\"\": [tru, 1]}\n 2")?;
    assert_eq!(&rt;
        marks.as_slice(),
        [0, 1, 5, 6, 8, 9, 12, 14, 15, 16, 19].as_slice()
    );
    Ok(())
}
