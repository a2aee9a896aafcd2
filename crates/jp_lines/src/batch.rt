//! The lines of a piece of a stream, each read, in room that is lent from piece to piece.

ghost use Rattle.std.specs.Prelude.{◌≡◌, ◌<◌, ◌^◌, [], All, IfOk, Some, length, map, slice_get};
ghost use Rattle.jp_masks.specs.Found.{lines_in};
ghost use Rattle.jp_model.specs.declared.Framing.TheVariants as framings;
ghost use Rattle.jp_lines.specs.Batches.{IsBatch, IsBatchLine, IsSpanOf, text_at, texts_of};

use crate::Status;
use crate::line::Line;
use crate::loading::read_piece;
use crate::text::{tape_of, text_of};
use crate::texts::read_texts;
use crate::view::LineView;
use jp_masks::Marks;
use jp_model::{Framing, LineFault, Span};
use jp_tape::Builder;
use std::alloc::{AllocError, Global};

/// What lends its room from piece to piece.
#[derive(Drop)]
pub struct BatchRoom {
    builder: Builder,
    marks: Marks,
    positions: Vec<u32>,
    lines: Vec<Line>,
    tapes: Vec<u64>,
}

impl BatchRoom {
    /// With no room yet.
    pub fn new(alloc: Global) -> BatchRoom {
        BatchRoom {
            builder: Builder::new(alloc),
            marks: Marks::new(alloc),
            positions: Vec::new(alloc),
            lines: Vec::new(alloc),
            tapes: Vec::new(alloc),
        }
    }

    /// Forgets the lines that were read.
    fn forget(&mut self)
        ensures lines { self.new.lines.items ≡ [] }
        ensures tapes { self.new.tapes.items ≡ [] }
    {
        self.lines.clear();
        self.tapes.clear();
    }

    /// Reads the lines of a piece: its last byte ends a line, or no other byte follows it. A byte order mark in front is not
    /// dropped.
    ///
    /// If memory is refused, the answer is `AllocError`, and the room can be lent again.
    pub fn read<'r>(
        &'r mut self,
        framing: Framing,
        bytes: &'r [u8],
    ) -> Result<Batch<'r>, AllocError>
        requires { length bytes.now < 2 ^ 32 }
        ensures lines { IfOk result (λ batch. texts_of batch ≡ lines_in framing bytes.now) }
        ensures read { IfOk result (λ batch. IsBatch batch × (batch.framing ≡ framing)) }
    {
        self.forget();
        let piece = Span {
            start: 0,
            end: bytes.len() as u32,
        };
        read_piece(
            &mut self.builder,
            framing,
            bytes,
            piece,
            &mut self.marks,
            &mut self.lines,
            &mut self.tapes,
        )?;
        Ok(Batch {
            framing,
            bytes,
            lines: &self.lines,
            tapes: &self.tapes,
        })
    }

    /// Reads the texts at some spans of the bytes, each by itself as a line of these bytes is read: a line feed is white space in
    /// it (RFC 8259, section 2), and ends nothing.
    ///
    /// If memory is refused, the answer is `AllocError`, and the room can be lent again.
    pub fn read_texts<'r>(
        &'r mut self,
        bytes: &'r [u8],
        spans: &[Span],
    ) -> Result<Batch<'r>, AllocError>
        requires within { All (IsSpanOf bytes.now) spans.now }
        requires room { length bytes.now < 2 ^ 32 }
        ensures texts { IfOk result (λ batch. texts_of batch ≡ map (text_at bytes.now) spans.now) }
        ensures read { IfOk result (λ batch. IsBatch batch × (batch.framing ≡ framings.Lines)) }
    {
        self.forget();
        read_texts(
            &mut self.builder,
            bytes,
            spans,
            &mut self.positions,
            &mut self.lines,
            &mut self.tapes,
        )?;
        Ok(Batch {
            framing: Framing::Lines,
            bytes,
            lines: &self.lines,
            tapes: &self.tapes,
        })
    }
}

/// The lines of a piece of a stream, each read. It is given by a `BatchRoom` alone.
#[derive(Clone, Copy)]
pub struct Batch<'r> {
    framing: Framing,
    bytes: &'r [u8],
    lines: &'r [Line],
    tapes: &'r [u64],
}

/// A line of a batch.
#[derive(Clone, Copy)]
pub struct BatchLine<'r> {
    /// Its bytes, without the one that ends it.
    pub text: &'r [u8],
    pub state: LineState<'r>,
}

/// What a line is, and its tree where it has one.
#[derive(Clone, Copy)]
pub enum LineState<'r> {
    /// White space alone, or nothing.
    Blank,
    /// No text that is taken.
    Refused(LineFault),
    /// A text, which has a tree.
    Tree(LineView<'r>),
}

impl<'r> Batch<'r> {
    /// How many lines there are.
    pub fn line_count(self) -> usize
        ensures { result ≡ length (texts_of self.entry) }
    {
        self.lines.len()
    }

    /// The line at an index, from 0.
    pub fn line(self, index: usize) -> BatchLine<'r>
        requires read { IsBatch self }
        requires within { index < length (texts_of self) }
        ensures text { slice_get (texts_of self.entry) index ≡ Some result.text.now }
        ensures line { IsBatchLine self.entry.framing result }
    {
        let line = &self.lines[index];
        let text = text_of(self.bytes, line);
        let state = match line.status() {
            Status::Blank => LineState::Blank,
            Status::Refused(fault) => LineState::Refused(fault),
            Status::Tree => LineState::Tree(LineView::new(tape_of(self.tapes, line, text), text)),
        };
        BatchLine { text, state }
    }
}
