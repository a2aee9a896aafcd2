//! The lines, texts or elements that end in what came of a stream, answered.

ghost use Rattle.std.specs.Prelude.{◌≡◌, ◌<◌, ◌≤◌, ◌^◌, All, OnOk, false, length, map, take};
ghost use Rattle.jp_cut.specs.Holding.{IsHeld};
ghost use Rattle.jp_masks.specs.Found.{lines_in};
ghost use Rattle.jp_grep.specs.Cuts.{text_of};
ghost use Rattle.jp_grep.specs.Faults.{is_input_fault, is_read_fault};
ghost use Rattle.jp_grep.specs.Finding.{noted_items, span_of};
ghost use Rattle.jp_grep.specs.Items.{line_item};
ghost use Rattle.jp_grep.specs.Searching.{Advances, Answers, Ends, IsUnderWay};
ghost use Rattle.jp_grep.specs.Sizes.{TellsOfNumbers};
ghost use Rattle.jp_grep.specs.Stands.{HasStood};
ghost use Rattle.jp_grep.specs.Telling.{AreOpen, TellsOfSearch};
ghost use Rattle.jp_grep.specs.declared.source.Source.TheVariants as sources;

use crate::answer::Answerer;
use crate::cutting::Cutting;
use crate::fault::SearchFault;
use crate::items::ReadItems;
use crate::progress::Progress;
use crate::stream::{Stream, find_end};
use jp_cut::PieceAt;
use jp_lines::BatchRoom;
use jp_model::{Span, Watched};
use jp_sink::Sink;
use std::alloc::{AllocError, Global};
use std::io::Write;

/// What lends its room from answer to answer, and how far they have come.
#[derive(Drop)]
pub(crate) struct Answering {
    room: BatchRoom,
    spans: Vec<Span>,
    pub(crate) progress: Progress,
}

/// Lists where pieces are held, in place of what was listed before.
fn list_spans(pieces: &[PieceAt], spans: &mut Vec<Span>) -> Result<(), AllocError>
    requires { All (λ piece. (piece.start < 2 ^ 32) × (piece.end < 2 ^ 32)) pieces.now }
    ensures { OnOk result (spans.new.items ≡ map span_of pieces.now) }
{
    spans.clear();
    for piece in pieces {
        spans.push(Span {
            start: piece.start as u32,
            end: piece.end as u32,
        })?;
    }
    Ok(())
}

impl Answering {
    /// With nothing answered yet.
    pub(crate) fn new(alloc: Global) -> Answering
        ensures number { result.progress.number ≡ 1 }
        ensures selected { result.progress.counts.selected ≡ 0 }
        ensures refused { result.progress.counts.refused ≡ 0 }
        ensures given_up { result.progress.counts.given_up ≡ 0 }
        ensures trailed { result.progress.trailed ≡ 0 }
    {
        Answering {
            room: BatchRoom::new(alloc),
            spans: Vec::new(alloc),
            progress: Progress::new(),
        }
    }

    /// Answers the lines of the bytes that are held up to an end of a line, or up to the end of the stream.
    fn answer_until<S: Sink, E: Write>(
        &mut self,
        answerer: Answerer<'_>,
        stream: &Stream,
        end: usize,
        sink: &mut S,
        messages: &mut Watched<E>,
    ) -> Result<(), SearchFault>
        requires end { end ≤ length stream.now.held.items }
        requires few { length stream.now.held.items < 2 ^ 32 }
        requires under_way { IsUnderWay answerer.form.now self.old.progress }
        requires open { AreOpen (S.state sink.old) messages.old }
        ensures answers { Answers S.stands S.stopped E.contents answerer.entry.question.now answerer.entry.form.now self.old.progress self.new.progress sink.old sink.new messages.old messages.new result
            (map (line_item stream.now.framing) (lines_in stream.now.framing (text_of stream.now.is_first (take end stream.now.held.items)))) }
        ensures size { TellsOfNumbers result self.old.progress (map (line_item stream.now.framing) (lines_in stream.now.framing (text_of stream.now.is_first (take end stream.now.held.items)))) }
        ensures tells { TellsOfSearch is_input_fault result (S.state sink.old) (S.state sink.new) messages.old messages.new }
    {
        let text = stream.text_until(end);
        let Ok(batch) = self.room.read(stream.framing, text) else {
            return Err(SearchFault::Memory);
        };
        let lines = ReadItems::of_lines(batch);
        answerer.answer_items(lines, &mut self.progress, sink, messages)
    }

    /// Holds the bytes that came, and answers the lines that end among them, unless the stream is refused by its first bytes.
    pub(crate) fn answer_lines<S: Sink, E: Write>(
        &mut self,
        answerer: Answerer<'_>,
        stream: &mut Stream,
        bytes: &[u8],
        sink: &mut S,
        messages: &mut Watched<E>,
    ) -> Result<(), SearchFault>
        requires stands { HasStood answerer.form.now.units (sources.Lines stream.old) }
        requires under_way { IsUnderWay answerer.form.now self.old.progress }
        requires open { AreOpen (S.state sink.old) messages.old }
        ensures advances { Advances S.stands S.stopped E.contents answerer.entry.question.now answerer.entry.form.now (sources.Lines stream.old) (sources.Lines stream.new) self.old.progress self.new.progress sink.old sink.new messages.old messages.new result bytes.now }
        ensures tells { TellsOfSearch is_read_fault result (S.state sink.old) (S.state sink.new) messages.old messages.new }
    {
        let from = stream.held.len();
        let end = find_end(stream.framing, bytes);
        stream.hold(bytes)?;
        stream.check_front(from)?;
        match end {
            None => Ok(()),
            Some(end) => {
                self.answer_until(answerer, stream, from + end, sink, messages)?;
                stream.let_go(from + end);
                Ok(())
            }
        }
    }

    /// Answers the lines that the end of the stream leaves, unless it is not framed.
    pub(crate) fn answer_last_lines<S: Sink, E: Write>(
        &mut self,
        answerer: Answerer<'_>,
        stream: &Stream,
        sink: &mut S,
        messages: &mut Watched<E>,
    ) -> Result<(), SearchFault>
        requires stands { HasStood answerer.form.now.units (sources.Lines stream.now) }
        requires under_way { IsUnderWay answerer.form.now self.old.progress }
        requires open { AreOpen (S.state sink.old) messages.old }
        ensures ends { Ends S.stands S.stopped E.contents answerer.entry.question.now answerer.entry.form.now (sources.Lines stream.now) self.old.progress self.new.progress sink.old sink.new messages.old messages.new result }
        ensures tells { TellsOfSearch is_read_fault result (S.state sink.old) (S.state sink.new) messages.old messages.new }
    {
        stream.check_end()?;
        self.answer_until(answerer, stream, stream.held.len(), sink, messages)
    }

    /// Answers the pieces that are noted.
    fn answer_noted<S: Sink, E: Write>(
        &mut self,
        answerer: Answerer<'_>,
        cutting: &Cutting,
        sink: &mut S,
        messages: &mut Watched<E>,
    ) -> Result<(), SearchFault>
        requires held { All (IsHeld cutting.now.cutter) cutting.now.pieces.items }
        requires under_way { IsUnderWay answerer.form.now self.old.progress }
        requires open { AreOpen (S.state sink.old) messages.old }
        ensures answers { Answers S.stands S.stopped E.contents answerer.entry.question.now answerer.entry.form.now self.old.progress self.new.progress sink.old sink.new messages.old messages.new result
            (noted_items cutting.now) }
        ensures size { TellsOfNumbers result self.old.progress (noted_items cutting.now) }
        ensures tells { TellsOfSearch is_input_fault result (S.state sink.old) (S.state sink.new) messages.old messages.new }
    {
        if list_spans(&cutting.pieces, &mut self.spans).is_err() {
            return Err(SearchFault::Memory);
        }
        let Ok(batch) = self.room.read_texts(cutting.cutter.held(), &self.spans) else {
            return Err(SearchFault::Memory);
        };
        let items = ReadItems::of_pieces(batch, &cutting.pieces);
        answerer.answer_items(items, &mut self.progress, sink, messages)
    }

    /// Takes in the bytes that came, and answers the pieces that end among them, unless the stream is refused by its first bytes.
    pub(crate) fn answer_pieces<S: Sink, E: Write>(
        &mut self,
        answerer: Answerer<'_>,
        cutting: &mut Cutting,
        bytes: &[u8],
        sink: &mut S,
        messages: &mut Watched<E>,
    ) -> Result<(), SearchFault>
        requires stands { HasStood answerer.form.now.units (sources.Pieces cutting.old) }
        requires under_way { IsUnderWay answerer.form.now self.old.progress }
        requires open { AreOpen (S.state sink.old) messages.old }
        ensures advances { Advances S.stands S.stopped E.contents answerer.entry.question.now answerer.entry.form.now (sources.Pieces cutting.old) (sources.Pieces cutting.new) self.old.progress self.new.progress sink.old sink.new messages.old messages.new result bytes.now }
        ensures tells { TellsOfSearch is_read_fault result (S.state sink.old) (S.state sink.new) messages.old messages.new }
    {
        cutting.take_in(bytes)?;
        if cutting.is_first {
            return Ok(());
        }
        cutting.find_ended()?;
        self.answer_noted(answerer, cutting, sink, messages)
    }

    /// Answers the pieces that the end of the stream leaves.
    pub(crate) fn answer_last_pieces<S: Sink, E: Write>(
        &mut self,
        answerer: Answerer<'_>,
        cutting: &mut Cutting,
        sink: &mut S,
        messages: &mut Watched<E>,
    ) -> Result<(), SearchFault>
        requires stands { HasStood answerer.form.now.units (sources.Pieces cutting.old) }
        requires under_way { IsUnderWay answerer.form.now self.old.progress }
        requires open { AreOpen (S.state sink.old) messages.old }
        ensures ends { Ends S.stands S.stopped E.contents answerer.entry.question.now answerer.entry.form.now (sources.Pieces cutting.old) self.old.progress self.new.progress sink.old sink.new messages.old messages.new result }
        ensures tells { TellsOfSearch is_read_fault result (S.state sink.old) (S.state sink.new) messages.old messages.new }
    {
        cutting.find_last()?;
        self.answer_noted(answerer, cutting, sink, messages)
    }
}
