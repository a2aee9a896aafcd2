//! Pieces that are cut anywhere give the lines and marks of each line alone.

ghost use Rattle.std.specs.Prelude.{◌<◌, ◌^◌, length};

use super::scan;
use crate::{LineMarks, Marks, Scanner, line_marks};
use jp_model::{Framing, Lines, Span};
use std::alloc::{AllocError, Global};
use std::process::Abort;
use std::test::Fail;

/// An array of one string, of letters and then backslashes; `tail` ends both.
fn text_of(
    alloc: Global,
    letters: usize,
    backslashes: usize,
    tail: &[u8],
) -> Result<Vec<u8>, AllocError> {
    let mut text = Vec::from_slice(alloc, b"[\"")?;
    for _ in 0..letters {
        text.push(b'x')?;
    }
    for _ in 0..backslashes {
        text.push(b'\\')?;
    }
    text.extend_from_slice(tail)?;
    Ok(text)
}

/// Marks of a short line.
fn has_marks(
    rt: &impl Abort,
    alloc: Global,
    line: &[u8],
    positions: &[u32],
) -> Result<(), AllocError> {
    assert!(rt; line.len() < 1000);
    let marks = line_marks(alloc, line)?;
    assert_eq!(rt; marks.as_slice(), positions);
    Ok(())
}

#[test]
fn marks_of_lines(rt: HostRuntime) -> Result<(), Fail> {
    let alloc = rt.alloc();
    has_marks(&rt, alloc, b"{\"a\":1}", &[0, 1, 3, 4, 5, 6])?;
    has_marks(&rt, alloc, b"[\\\"a\"]", &[0, 1, 4])?;
    has_marks(&rt, alloc, b"\"a\"b", &[0, 2, 3])?;
    has_marks(&rt, alloc, b"", &[])?;
    has_marks(&rt, alloc, b" 12 x", &[1, 4])?;
    Ok(())
}

#[test]
fn backslashes_reach_over_blocks(rt: HostRuntime) -> Result<(), Fail> {
    let alloc = rt.alloc();
    let even = text_of(alloc, 59, 4, b"\"]")?;
    has_marks(&rt, alloc, &even, &[0, 1, 65, 66])?;
    let odd = text_of(alloc, 59, 5, b"\"]")?;
    has_marks(&rt, alloc, &odd, &[0, 1])?;
    let closed = text_of(alloc, 59, 5, b"\"\"]")?;
    has_marks(&rt, alloc, &closed, &[0, 1, 67, 68])?;
    Ok(())
}

/// A line that was found is where it should be, and has the marks that it has alone.
fn is_as_alone(
    rt: &impl Abort,
    alloc: Global,
    found: LineMarks<'_>,
    span: Span,
    line: &[u8],
) -> Result<(), AllocError>
    requires { length line.now < 2 ^ 32 }
{
    assert_eq!(rt; found.span, span);
    let alone = line_marks(alloc, line)?;
    assert_eq!(rt; found.positions, alone.as_slice());
    Ok(())
}

/// The lines are where those of the text are, and each has the marks that it has alone.
fn are_of_each_line(
    rt: &impl Abort,
    alloc: Global,
    text: &[u8],
    marks: &Marks,
) -> Result<(), AllocError> {
    let mut count = 0;
    let mut start = 0u32;
    for line in Lines::new(text) {
        assert!(rt; count < marks.line_count());
        assert!(rt; line.len() < 1000 && start < 1000);
        let end = start + line.len() as u32;
        is_as_alone(rt, alloc, marks.line(count), Span { start, end }, line)?;
        count += 1;
        start = end + 1;
    }
    assert_eq!(rt; count, marks.line_count());
    Ok(())
}

/// The texts are where those of the sequence are, each after its separator, and each has the marks that it has alone. An
/// empty one is not a text, nor is what comes before the first separator.
fn are_of_each_text(
    rt: &impl Abort,
    alloc: Global,
    sequence: &[u8],
    marks: &Marks,
) -> Result<(), AllocError> {
    let mut count = 0;
    let mut start = 0u32;
    for text in sequence.split(|byte| *byte == 0x1E) {
        assert!(rt; text.len() < 1000 && start < 1000);
        let end = start + text.len() as u32;
        if start > 0 && !text.is_empty() {
            assert!(rt; count < marks.line_count());
            is_as_alone(rt, alloc, marks.line(count), Span { start, end }, text)?;
            count += 1;
        }
        start = end + 1;
    }
    assert_eq!(rt; count, marks.line_count());
    Ok(())
}

/// The lines of a collection, or the texts of a sequence, are found.
fn are_found(
    rt: &impl Abort,
    alloc: Global,
    framing: Framing,
    text: &[u8],
    marks: &Marks,
) -> Result<(), AllocError> {
    match framing {
        Framing::Lines => are_of_each_line(rt, alloc, text, marks),
        Framing::Sequence => are_of_each_text(rt, alloc, text, marks),
    }
}

/// The text in two pieces, with each position as the cut.
fn each_cut(
    rt: &impl Abort,
    alloc: Global,
    framing: Framing,
    text: &[u8],
) -> Result<(), AllocError> {
    assert!(rt; text.len() < 1000);
    for cut in 0..=text.len() {
        let (front, back) = text.split_at(cut);
        let marks = scan(alloc, framing, front, back)?;
        are_found(rt, alloc, framing, text, &marks)?;
    }
    Ok(())
}

/// The marks of a text that comes in pieces of one length.
fn scan_pieces(
    alloc: Global,
    framing: Framing,
    text: &[u8],
    size: usize,
) -> Result<Marks, AllocError>
    requires { length text.now < 1000 }
{
    let mut marks = Marks::new(alloc);
    let mut scanner = Scanner::new(framing);
    let mut rest = text;
    for _ in 0..text.len() {
        let (piece, later) = rest.split_at(size.min(rest.len()));
        scanner.feed(piece, &mut marks)?;
        rest = later;
    }
    scanner.finish(&mut marks)?;
    Ok(marks)
}

/// The text in pieces of one length: of few bytes, and of about a block.
fn each_size(
    rt: &impl Abort,
    alloc: Global,
    framing: Framing,
    text: &[u8],
) -> Result<(), AllocError> {
    assert!(rt; text.len() < 1000);
    for size in [1, 2, 3, 63, 64, 65] {
        let marks = scan_pieces(alloc, framing, text, size)?;
        are_found(rt, alloc, framing, text, &marks)?;
    }
    Ok(())
}

#[test]
fn strings_are_cut_anywhere(rt: HostRuntime) -> Result<(), Fail> {
    let alloc = rt.alloc();
    for inner in 60..65usize {
        for backslashes in 0..61 {
            let letters = inner.saturating_sub(backslashes);
            let text = text_of(alloc, letters, backslashes, b"\"]")?;
            each_cut(&rt, alloc, Framing::Lines, &text)?;
            each_size(&rt, alloc, Framing::Lines, &text)?;
        }
    }
    Ok(())
}

/// Lines that end inside a string, after a backslash or inside a character, at the end of a block and elsewhere.
fn collections(alloc: Global) -> Result<Vec<Vec<u8>>, AllocError> {
    let mut all = Vec::new(alloc);
    all.push(Vec::from_slice(alloc, b"\"abc\n\"def\"\n[\"x")?)?;
    all.push(Vec::from_slice(alloc, b"\"\xC3\n\"y\"")?)?;
    all.push(Vec::from_slice(
        alloc,
        b"\"xxxxxxxxxxxxxxxxxxxxxxxxxxxxxxxxxxxxxxxxxxxxxxxxxxxxxxxxxxxxxx\n\"y\"",
    )?)?;
    all.push(Vec::from_slice(
        alloc,
        b"\"xxxxxxxxxxxxxxxxxxxxxxxxxxxxxxxxxxxxxxxxxxxxxxxxxxxxxxxxxxxxx\\\n\"y\"",
    )?)?;
    Ok(all)
}

#[test]
fn collections_are_cut_anywhere(rt: HostRuntime) -> Result<(), Fail> {
    let alloc = rt.alloc();
    for text in collections(alloc)? {
        each_cut(&rt, alloc, Framing::Lines, &text)?;
        each_size(&rt, alloc, Framing::Lines, &text)?;
    }
    each_cut(&rt, alloc, Framing::Lines, super::SHORT_LINES)?;
    each_size(&rt, alloc, Framing::Lines, super::SHORT_LINES)?;
    Ok(())
}

/// The collections above as sequences: each line feed is a separator there, which cuts a string, an escape or a character as
/// the line feed does. In front of the first separator is a line feed, or nothing, and a second one follows each.
fn sequences(alloc: Global) -> Result<Vec<Vec<u8>>, AllocError> {
    let mut all = Vec::new(alloc);
    for front in [b"".as_slice(), b"\n"] {
        for text in collections(alloc)? {
            let mut sequence = Vec::from_slice(alloc, front)?;
            sequence.push(0x1E)?;
            for byte in &text {
                if *byte == b'\n' {
                    sequence.extend_from_slice(b"\x1E\x1E\n")?;
                } else {
                    sequence.push(*byte)?;
                }
            }
            all.push(sequence)?;
        }
    }
    all.push(Vec::from_slice(alloc, b"")?)?;
    all.push(Vec::from_slice(alloc, b" \n")?)?;
    all.push(Vec::from_slice(alloc, b"\x1E")?)?;
    Ok(all)
}

#[test]
fn sequences_are_cut_anywhere(rt: HostRuntime) -> Result<(), Fail> {
    let alloc = rt.alloc();
    for text in sequences(alloc)? {
        each_cut(&rt, alloc, Framing::Sequence, &text)?;
        each_size(&rt, alloc, Framing::Sequence, &text)?;
    }
    Ok(())
}
