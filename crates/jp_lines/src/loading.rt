//! The lines of the bytes that were read.

ghost use Rattle.std.specs.Prelude.{ℕ, List, ◌≡◌, ◌+◌, ◌<◌, ◌≤◌, ◌^◌, ◌++◌, All, take, drop, map, length, slice_get, Some, IfOk, OnOk};
ghost use Rattle.jp_model.specs.Lines.{lines, without_byte_order_mark as without_mark};
ghost use Rattle.jp_model.specs.Json.Places.{bytes_between};
ghost use Rattle.jp_masks.specs.Found.{found, lines_in};
ghost use Rattle.jp_masks.specs.Scanned.{AreAllOf};
ghost use Rattle.jp_lines.specs.Stored.{IsRead, stored_text};

use crate::framing::separator;
use crate::line::Line;
use crate::reading::judge;
use jp_masks::{Marks, Scanner, laws};
use jp_model::{Framing, Span, without_byte_order_mark};
use jp_tape::{Builder, tapes_are_kept};
use memchr::memchr;
use std::alloc::{AllocError, Global};

/// How many bytes of a collection are scanned at once, where no line goes on after them.
const PIECE: usize = 1 << 16;

/// Where the lines begin: after a byte order mark at the front, or at the first byte (RFC 8259, section 8.1).
fn lines_start(bytes: &[u8]) -> usize
    ensures within { result ≤ length bytes.now }
    ensures rest { drop result bytes.now ≡ without_mark bytes.now }
{
    bytes.len() - without_byte_order_mark(bytes).len()
}

/// How many bytes at the front are scanned at once: a piece, and what is left of its last line. A cut follows a line
/// feed, or in front of a record separator.
fn front_length(framing: Framing, text: &[u8]) -> usize
    ensures within { result ≤ length text.now }
    ensures some { 0 < length text.now → 0 < result }
    ensures parted { lines_in framing text.now ≡ lines_in framing (take result text.now) ++ lines_in framing (drop result text.now) }
{
    let least = PIECE.min(text.len());
    match memchr(separator(framing), &text[least..]) {
        Some(position) => match framing {
            Framing::Lines => least + position + 1,
            Framing::Sequence => least + position,
        },
        None => text.len(),
    }
}

/// Finds the marks of all lines of a text, in the memory of marks that are forgotten.
fn scan(framing: Framing, text: &[u8], marks: &mut Marks) -> Result<(), AllocError>
    requires { length text.now < 2 ^ 32 }
    ensures all { OnOk result (AreAllOf framing text.now marks.new) }
    ensures count { OnOk result (length (found marks.new) ≡ length (lines_in framing text.now)) }
{
    laws::lines_are_those_of_the_text();
    marks.clear();
    let mut scanner = Scanner::new(framing);
    scanner.feed(text, marks)?;
    scanner.finish(marks)?;
    Ok(())
}

/// The line that is at an index, from 0, of a piece of the bytes. Its tape is appended to those of other lines. The builder
/// lends its memory.
fn read_line(
    builder: &mut Builder,
    framing: Framing,
    bytes: &[u8],
    piece: Span,
    marks: &Marks,
    index: usize,
    tapes: &mut Vec<u64>,
) -> Result<Line, AllocError>
    requires order { piece.start ≤ piece.end }
    requires last { piece.end ≤ length bytes.now }
    requires room { length bytes.now < 2 ^ 32 }
    requires all { AreAllOf framing (bytes_between bytes.now piece.start piece.end) marks.now }
    requires within { index < length (found marks.now) }
    ensures text { IfOk result (λ line. slice_get (lines_in framing (bytes_between bytes.now piece.start piece.end)) index ≡ Some (stored_text bytes.now line)) }
    ensures read { IfOk result (λ line. IsRead framing bytes.now tapes.new.items line) }
    ensures more { (words : List ℕ) × (tapes.new.items ≡ tapes.old.items ++ words) }
{
    laws::lines_are_those_of_the_text();
    let text = &bytes[piece.start as usize..piece.end as usize];
    let line = marks.line(index);
    let is_utf8 = marks.line_is_utf8(text, index);
    let own = &text[line.span.start as usize..line.span.end as usize];
    let tape = tapes.len();
    let judged = judge(builder, framing, own, line.positions, is_utf8, tapes)?;
    let span = Span {
        start: piece.start + line.span.start,
        end: piece.start + line.span.end,
    };
    Ok(Line::Loaded {
        status: judged.status,
        nodes: judged.nodes,
        span,
        tape,
    })
}

/// Appends the lines of a piece of the bytes, each read, to others, and their tapes to those of others. The builder and `marks`
/// lend their memory.
pub(crate) fn read_piece(
    builder: &mut Builder,
    framing: Framing,
    bytes: &[u8],
    piece: Span,
    marks: &mut Marks,
    lines: &mut Vec<Line>,
    tapes: &mut Vec<u64>,
) -> Result<(), AllocError>
    requires order { piece.start ≤ piece.end }
    requires last { piece.end ≤ length bytes.now }
    requires room { length bytes.now < 2 ^ 32 }
    ensures came { OnOk result (map (stored_text bytes.now) lines.new.items ≡ map (stored_text bytes.now) lines.old.items ++ lines_in framing (bytes_between bytes.now piece.start piece.end)) }
    ensures read { All (IsRead framing bytes.now tapes.old.items) lines.old.items → OnOk result (All (IsRead framing bytes.now tapes.new.items) lines.new.items) }
{
    scan(
        framing,
        &bytes[piece.start as usize..piece.end as usize],
        marks,
    )?;
    tapes_are_kept();
    let count = marks.line_count();
    lines.reserve(count)?;
    for index in 0..count {
        let line = read_line(builder, framing, bytes, piece, marks, index, tapes)?;
        lines.push_reserved(line);
    }
    Ok(())
}

/// The lines of a collection, each read, and their tapes. Each byte is scanned once, piece by piece into the same memory.
///
/// # Errors
///
/// Memory ran out.
pub fn read_lines(
    alloc: Global,
    framing: Framing,
    bytes: &[u8],
) -> Result<(Vec<Line>, Vec<u64>), AllocError>
    requires { length bytes.now < 2 ^ 32 }
    ensures came { IfOk result (λ read. map (stored_text bytes.now) read.0.items ≡ lines framing bytes.now) }
    ensures read { IfOk result (λ read. All (IsRead framing bytes.now read.1.items) read.0.items) }
{
    let mut start = lines_start(bytes);
    let mut builder = Builder::new(alloc);
    let mut marks = Marks::new(alloc);
    let mut all = Vec::new(alloc);
    let mut tapes = Vec::new(alloc);
    while start < bytes.len() {
        let end = start + front_length(framing, &bytes[start..]);
        let piece = Span {
            start: start as u32,
            end: end as u32,
        };
        read_piece(
            &mut builder,
            framing,
            bytes,
            piece,
            &mut marks,
            &mut all,
            &mut tapes,
        )?;
        start = end;
    }
    Ok((all, tapes))
}
