//! A search: the lines, texts or elements of a stream, each answered as it comes.

ghost use Rattle.std.specs.Prelude.{◌≡◌, ◌&&◌, ◌||◌, not, [], List, false, MatchResult, OnOk};
ghost use Rattle.jp_devices.specs.Devices.{Came, GaveUpTo, Received};
ghost use Rattle.jp_grep.specs.Faults.{IsToldOf, is_read_fault, is_report_fault, is_write_fault};
ghost use Rattle.jp_grep.specs.Inputs.{ReadOn};
ghost use Rattle.jp_grep.specs.Items.{Item};
ghost use Rattle.jp_grep.specs.Outcomes.{CameOfStream};
ghost use Rattle.jp_grep.specs.Searching.{Advances, Ends, IsUnderWay};
ghost use Rattle.jp_grep.specs.Stands.{HasStood};
ghost use Rattle.jp_grep.specs.Telling.{AreOpen, IsKept, Puts, TellsOfBoth, TellsOfSearch};
ghost use Rattle.jp_grep.specs.Watching.{SearchStopped, Searched, SearchedLines};

use crate::answer::Answerer;
use crate::answering::Answering;
use crate::fault::SearchFault;
use crate::found::Found;
use crate::input::Input;
use crate::question::Question;
use crate::source::Source;
use crate::telling::{flush_sink, tell_summary};
use crate::told::tell_more;
use jp_devices::flush_written;
use jp_form::Form;
use jp_model::Watched;
use jp_sink::Sink;
use std::alloc::Global;
use std::io::{Read, Write};

/// The bytes that one read asks for.
const PIECE: usize = 65_536;

/// Has the rows and the messages handed on, so that whoever waits for them has them before more is read.
fn flush_all<S: Sink, E: Write>(sink: &mut S, messages: &mut Watched<E>) -> Result<(), SearchFault>
    requires open { AreOpen (S.state sink.old) messages.old }
    ensures rows { Puts S.stands S.stopped sink.old sink.new result [] }
    ensures messages { Received E.contents messages.old messages.new [] }
    ensures flushed { OnOk result (((S.state sink.new).unflushed ≡ false) × (messages.new.unflushed ≡ false)) }
    ensures tells { TellsOfBoth result (S.state sink.old) (S.state sink.new) messages.old messages.new }
{
    flush_sink(sink)?;
    if flush_written(messages).is_err() {
        return Err(SearchFault::Report);
    }
    Ok(())
}

/// What goes through a stream.
#[derive(Drop)]
struct Searcher {
    source: Source,
    answering: Answering,
}

impl Searcher {
    /// Takes in the bytes that came, and answers what ends among them, unless the stream is refused by its first bytes.
    fn answer_read<S: Sink, E: Write>(
        &mut self,
        answerer: Answerer<'_>,
        bytes: &[u8],
        sink: &mut S,
        messages: &mut Watched<E>,
    ) -> Result<(), SearchFault>
        requires stands { HasStood answerer.form.now.units self.old.source }
        requires under_way { IsUnderWay answerer.form.now self.old.answering.progress }
        requires open { AreOpen (S.state sink.old) messages.old }
        ensures advances { Advances S.stands S.stopped E.contents answerer.entry.question.now answerer.entry.form.now self.old.source self.new.source self.old.answering.progress self.new.answering.progress sink.old sink.new messages.old messages.new result bytes.now }
        ensures tells { TellsOfSearch is_read_fault result (S.state sink.old) (S.state sink.new) messages.old messages.new }
    {
        let answering = &mut self.answering;
        match &mut self.source {
            Source::Lines(stream) => answering.answer_lines(
                answerer, stream, bytes, sink, messages,
            ),
            Source::Pieces(cutting) => {
                answering.answer_pieces(answerer, cutting, bytes, sink, messages)
            }
        }
    }

    /// Answers what the end of the stream leaves, unless the stream is refused as a whole.
    fn answer_rest<S: Sink, E: Write>(
        &mut self,
        answerer: Answerer<'_>,
        sink: &mut S,
        messages: &mut Watched<E>,
    ) -> Result<(), SearchFault>
        requires stands { HasStood answerer.form.now.units self.old.source }
        requires under_way { IsUnderWay answerer.form.now self.old.answering.progress }
        requires open { AreOpen (S.state sink.old) messages.old }
        ensures ends { Ends S.stands S.stopped E.contents answerer.entry.question.now answerer.entry.form.now self.old.source self.old.answering.progress self.new.answering.progress sink.old sink.new messages.old messages.new result }
        ensures tells { TellsOfSearch is_read_fault result (S.state sink.old) (S.state sink.new) messages.old messages.new }
    {
        let answering = &mut self.answering;
        match &mut self.source {
            Source::Lines(stream) => answering.answer_last_lines(answerer, stream, sink, messages),
            Source::Pieces(cutting) => {
                answering.answer_last_pieces(answerer, cutting, sink, messages)
            }
        }
    }
}

/// Answers the lines of a stream, piece by piece, up to its end, to the last line that is wanted and those that are passed after it,
/// or to the first one that there is no memory or no number for.
fn search_lines<R: Read, S: Sink, E: Write>(
    answerer: Answerer<'_>,
    input: &mut Input<R>,
    sink: &mut S,
    messages: &mut Watched<E>,
) -> Result<Found, SearchFault>
    requires reads { input.old.reader.failed ≡ false }
    requires unended { input.old.reader.ended ≡ false }
    requires writes { (S.state sink.old).failed ≡ false }
    requires reports { messages.old.failed ≡ false }
    ensures output { (came : Came) × (outcomes : List Item) × GaveUpTo R.remaining input.old.reader input.new.reader came
        × CameOfStream answerer.entry.form.now came outcomes × ReadOn answerer.entry.question.now answerer.entry.form.now input.old input.new came.bytes outcomes × MatchResult result
        (λ found. SearchedLines S.stands S.stopped E.contents answerer.entry.question.now answerer.entry.form.now sink.old sink.new messages.old messages.new came outcomes found)
        (λ fault. SearchStopped S.stands S.stopped E.contents answerer.entry.question.now answerer.entry.form.now sink.old sink.new messages.old messages.new fault came outcomes) }
    ensures read_fault { IsToldOf is_read_fault result (input.new.reader.failed && not messages.new.failed) }
    ensures write_fault { IsToldOf is_write_fault result (S.state sink.new).failed }
    ensures report_fault { IsToldOf is_report_fault result messages.new.failed }
    ensures after { input.new.reader.after ≡ input.old.reader.after }
    ensures kept { IsKept (S.state sink.old) (S.state sink.new) }
    ensures messages_after { messages.new.after ≡ messages.old.after }
    ensures early { input.new.reader.early ≡ input.old.reader.early }
{
    sink.gap();
    let mut searcher = Searcher {
        source: Source::new(answerer.alloc, answerer.form.units),
        answering: Answering::new(answerer.alloc),
    };
    let mut buffer = [0; PIECE];
    for _read in 0..u64::MAX {
        let progress = searcher.answering.progress;
        if progress.is_done(*answerer.form) {
            return Ok(progress.found());
        }
        flush_all(sink, messages)?;
        let Ok(count) = input.read_after(sink, &mut buffer) else {
            tell_more(answerer.form, progress.counts.refused, messages)?;
            return Err(SearchFault::Read);
        };
        if count == 0 {
            if let Err(fault) = searcher.answer_rest(answerer, sink, messages) {
                return searcher.answering.progress.stop(fault);
            }
            return Ok(searcher.answering.progress.found());
        }
        if let Err(fault) = searcher.answer_read(answerer, &buffer[..count], sink, messages) {
            return searcher.answering.progress.stop(fault);
        }
    }
    searcher.answering.progress.stop(SearchFault::Size)
}

/// Searches a stream: reads it piece by piece, and answers each line as it comes. A row is written for each selected line, and
/// a message for each of the first ten refused ones; after these how many more there are, and after the rows what the form
/// asks for. A byte order mark at the front is dropped.
///
/// A line for whose answer memory is refused is given up: a message tells so after the first of its rows, and the next line is
/// answered. Where there is no memory for the lines that came, or one is longer than 4,294,967,294 bytes, the rest of the stream
/// is passed over, from the first line on that is not answered: `Found::unread` tells it.
///
/// Before each read both writers are flushed where they took bytes since, and each line that ended is answered. No read follows
/// one that answered 0, one that failed, the last line that is wanted and those that are passed after it, or bytes that refuse the
/// stream as a whole, and no write follows one that failed or took no byte.
///
/// # Errors
///
/// `Read` if a read failed: each line that ended before is answered, and told is how many more are refused. `Foreign` if the
/// stream begins with the mark of another format, and `Framing` if bytes other than white space come before the first separator
/// of a sequence: nothing is written then. `Write` and `Report` if a row or a message was not written: then a beginning of the
/// answer was.
pub fn search<R: Read, S: Sink, E: Write>(
    alloc: Global,
    question: &Question,
    form: &Form<'_>,
    input: &mut Input<R>,
    sink: &mut S,
    messages: &mut Watched<E>,
) -> Result<Found, SearchFault>
    requires reads { input.old.reader.failed ≡ false }
    requires unended { input.old.reader.ended ≡ false }
    requires writes { (S.state sink.old).failed ≡ false }
    requires reports { messages.old.failed ≡ false }
    // The reader gave some bytes, the first of their lines were answered or given up, and no read followed where no more were
    // wanted. At Ok these are all lines up to the last one that is wanted, or those in front of the one that `unread` tells; else
    // what `SearchStopped` says.
    ensures output { (came : Came) × (outcomes : List Item) × GaveUpTo R.remaining input.old.reader input.new.reader came
        × CameOfStream form.now came outcomes × ReadOn question.now form.now input.old input.new came.bytes outcomes × MatchResult result
        (λ found. Searched S.stands S.stopped E.contents question.now form.now sink.old sink.new messages.old messages.new came outcomes found)
        (λ fault. SearchStopped S.stands S.stopped E.contents question.now form.now sink.old sink.new messages.old messages.new fault came outcomes) }
    // Each device's fault is answered exactly where that device failed, and that of a message in place of that of a read.
    ensures read_fault { IsToldOf is_read_fault result (input.new.reader.failed && not messages.new.failed) }
    ensures write_fault { IsToldOf is_write_fault result (S.state sink.new).failed }
    ensures report_fault { IsToldOf is_report_fault result messages.new.failed }
    // No call follows one that failed, and no read one that answered 0.
    ensures after { input.new.reader.after ≡ input.old.reader.after }
    ensures kept { IsKept (S.state sink.old) (S.state sink.new) }
    ensures messages_after { messages.new.after ≡ messages.old.after }
    // No read comes while rows are unflushed.
    ensures early { input.new.reader.early ≡ input.old.reader.early }
{
    let answerer = Answerer {
        alloc,
        question,
        form,
    };
    let found = search_lines(answerer, input, sink, messages)?;
    tell_more(form, found.counts.refused, messages)?;
    tell_summary(form, found.counts.selected, found.is_whole(), sink)?;
    Ok(found)
}
