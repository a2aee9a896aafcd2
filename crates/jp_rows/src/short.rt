//! Short rows. They are put together before they are written, since a write costs more than the few bytes of a step.
//!
//! A path is known from its last step to its first, so a row is put together from its end.

ghost use Rattle.std.specs.Prelude.{◌≡◌, ◌≤◌, ◌-◌, ◌++◌, [], length, drop, decimal, encode_utf8_all, pos, IfSome};
ghost use Rattle.jp_model.specs.Json.Places.{bytes_between};
ghost use Rattle.jp_model.specs.Steps.{name_step, index_step};
ghost use Rattle.jp_model.specs.Meaning.Nodes.{step_to};
ghost use Rattle.jp_model.specs.Meaning.Paths.{step_text, path_text};
ghost use Rattle.jp_model.specs.Rows.{row_start as row_start_of, tab, node_text};
ghost use Rattle.jp_strings.specs.Points.{IsText, points_of};
ghost use Rattle.jp_nodes.specs.Cursors.{line_of, name_of, index_of, node_of};

use crate::names::needs_no_escape;
use crate::rows::row_start;
use jp_model::{Framing, Span};
use jp_nodes::Cursor;
use std::marker::Model;

/// The most bytes of a short row.
const MOST: usize = 128;

/// The bytes that one store puts.
const BLOCK: usize = 16;

/// The longest number of 32 bits.
const DIGITS: usize = 10;

/// The last bytes of a row. More are put before them.
#[derive(Drop)]
pub(crate) struct RowEnd {
    bytes: [u8; MOST],
    start: usize,
    ghost within: { start ≤ 128 },
}

impl Model for RowEnd {
    ghost use Rattle.std.specs.Prelude.{ℕ, List, drop};

    ghost Value = { List ℕ };

    ghost view = { λ r. drop r.start r.bytes };
}

impl RowEnd {
    /// No bytes.
    #[inline(always)]
    pub(crate) fn new() -> RowEnd
        ensures { result ≡ [] }
    {
        RowEnd {
            bytes: [0; MOST],
            start: MOST,
        }
    }

    /// The bytes.
    #[inline(always)]
    pub(crate) fn as_slice(&self) -> &[u8]
        ensures { result.now ≡ self.now }
    {
        &self.bytes[self.start..]
    }

    /// Puts a text, if there is room.
    #[inline(always)]
    fn put(&mut self, text: &[u8]) -> Option<()>
        ensures { IfSome result (λ _. self.new ≡ text.now ++ self.old) }
    {
        if self.start < text.len() {
            return None;
        }
        let start = self.start - text.len();
        self.bytes[start..self.start].copy_from_slice(text);
        self.start = start;
        Some(())
    }

    /// Puts the last bytes of a block, if the whole block has room: that is one store. What is put next covers the others.
    #[inline(always)]
    fn put_last(&mut self, block: &[u8], count: usize) -> Option<()>
        requires block { length block.now ≡ 16 }
        requires count { count ≤ 16 }
        ensures { IfSome result (λ _. self.new ≡ drop (16 - count) block.now ++ self.old) }
    {
        self.put(block)?;
        self.start += BLOCK - count;
        Some(())
    }

    /// Puts a part of a line, if there is room.
    ///
    /// Most parts are short, and follow some bytes of their line: with those they are one block.
    #[inline(always)]
    fn put_part(&mut self, line: &[u8], part: Span) -> Option<()>
        requires order { part.start ≤ part.end }
        requires within { part.end ≤ length line.now }
        ensures { IfSome result (λ _. self.new ≡ bytes_between line.now part.start part.end ++ self.old) }
    {
        let (start, stop) = (part.start as usize, part.end as usize);
        if stop - start <= BLOCK && stop >= BLOCK {
            self.put_last(&line[stop - BLOCK..stop], stop - start)
        } else {
            self.put(&line[start..stop])
        }
    }

    /// Puts a number, if there is room for any.
    #[inline(always)]
    fn put_number(&mut self, number: u32) -> Option<()>
        ensures { IfSome result (λ _. self.new ≡ decimal number ++ self.old) }
    {
        if self.start < DIGITS {
            return None;
        }
        self.start = itoa::write_digits(u64::from(number), &mut self.bytes, self.start);
        Some(())
    }

    /// Puts the step to the member of a name, if no scalar of it is escaped.
    #[inline(always)]
    fn put_name_step(&mut self, line: &[u8], name: Span) -> Option<()>
        requires order { name.start ≤ name.end }
        requires within { name.end ≤ length line.now }
        requires text { IsText (bytes_between line.now name.start name.end) }
        ensures { IfSome result (λ _. self.new ≡ encode_utf8_all (step_text (name_step (points_of (bytes_between line.now name.start name.end)))) ++ self.old) }
    {
        if !needs_no_escape(&line[name.start as usize..name.end as usize]) {
            return None;
        }
        self.put(b"']")?;
        self.put_part(line, name)?;
        self.put(b"['")
    }

    /// Puts the step to the element of an index.
    #[inline(always)]
    fn put_index_step(&mut self, index: u32) -> Option<()>
        ensures { IfSome result (λ _. self.new ≡ encode_utf8_all (step_text (index_step (pos index))) ++ self.old) }
    {
        self.put(b"]")?;
        self.put_number(index)?;
        self.put(b"[")
    }

    /// Puts the step to a child: its name, where it has one, or its index.
    #[inline(always)]
    fn put_step(&mut self, child: Cursor<'_>) -> Option<()>
        ensures { IfSome result (λ _. self.new ≡ encode_utf8_all (step_text (step_to (index_of child.entry) (name_of child.entry))) ++ self.old) }
    {
        match child.name_span() {
            Some(name) => self.put_name_step(child.line(), name),
            None => self.put_index_step(child.index()),
        }
    }

    /// Puts the normalized path of a node (RFC 9535, section 2.7).
    ///
    /// It visits the node and its ancestors, at most 512: a line that nests deeper has no tape.
    #[inline(always)]
    fn put_path(&mut self, cursor: Cursor<'_>) -> Option<()>
        ensures { IfSome result (λ _. self.new ≡ path_text (node_of cursor.entry).location ++ self.old) }
    {
        let mut node = cursor;
        while let Some(parent) = node.parent() {
            self.put_step(node)?;
            node = parent;
        }
        self.put(b"$")
    }

    /// Puts what a row begins with (RFC 7464, section 2.2). In lines that is nothing.
    #[inline(always)]
    fn put_start(&mut self, framing: Framing) -> Option<()>
        ensures { IfSome result (λ _. self.new ≡ row_start_of framing ++ self.old) }
    {
        match framing {
            Framing::Lines => Some(()),
            Framing::Sequence => self.put(row_start(framing)),
        }
    }

    /// Puts what comes before the bytes of a node in its row.
    #[inline(always)]
    pub(crate) fn put_head(&mut self, line: u32, cursor: Cursor<'_>, framing: Framing) -> Option<()>
        ensures { IfSome result (λ _. self.new ≡ (row_start_of framing ++ decimal line ++ tab ++ path_text (node_of cursor.entry).location ++ tab) ++ self.old) }
    {
        self.put(b"\t")?;
        self.put_path(cursor)?;
        self.put(b"\t")?;
        self.put_number(line)?;
        self.put_start(framing)
    }

    /// Puts the row of a node.
    #[inline(always)]
    pub(crate) fn put_node(&mut self, line: u32, cursor: Cursor<'_>, framing: Framing) -> Option<()>
        ensures { IfSome result (λ _. self.new ≡ node_text framing line (line_of cursor.entry) (node_of cursor.entry) ++ self.old) }
    {
        self.put(b"\n")?;
        self.put_part(cursor.line(), cursor.span())?;
        self.put_head(line, cursor, framing)
    }
}
