//! A run: the files in turn, a sink, and the buffered writer of messages, whose buffer is written out at the end.

ghost use Rattle.std.specs.Prelude.{◌≡◌, ◌&&◌, ◌||◌, [], false, true, not, is_err, map, IfOk, List, MatchResult};
ghost use Rattle.jp_devices.specs.Devices.{Came, GaveUpTo};
ghost use Rattle.jp_devices.specs.Buffered.{Took, filled, untold};
ghost use Rattle.jp_grep.specs.Ends.{NotesSearch, status_of};
ghost use Rattle.jp_grep.specs.Inputs.{ReadOn};
ghost use Rattle.jp_grep.specs.Items.{Item};
ghost use Rattle.jp_grep.specs.Outcomes.{CameOfStream};
ghost use Rattle.jp_grep.specs.Faults.{IsToldOf, is_input_fault, is_read_fault, is_report_fault, is_write_fault};
ghost use Rattle.jp_grep.specs.Tables.{header_text};
ghost use Rattle.jp_grep.specs.Telling.{HandsOn, IsKept, PutsEnd};
ghost use Rattle.jp_grep.specs.Watching.{SearchStopped, Searched};

use crate::fault::SearchFault;
use crate::found::Found;
use crate::header::tell_header;
use crate::input::Input;
use crate::question::Question;
use crate::searching::search;
use jp_devices::{flush_written, write_out};
use jp_form::Form;
use jp_model::Watched;
use jp_sink::Sink;
use std::alloc::{AllocError, Global};
use std::io::{BufWriter, Read, Write};

/// The exit status where a line was selected.
const SELECTED: u8 = 0;

/// The exit status where none was.
const NOT_SELECTED: u8 = 1;

/// The exit status where something was refused or failed.
const FAULT: u8 = 2;

/// A run over files: what they are asked, the sink that is told of them, the writer of the messages with a buffer of 8192 bytes,
/// and what came of the files so far.
#[derive(Drop)]
pub struct Run<'q, S: Sink + Drop, E: Write + Drop> {
    alloc: Global,
    question: &'q Question,
    pub(crate) quiet: bool,
    pub(crate) sink: S,
    pub(crate) messages: Watched<BufWriter<Watched<E>>>,
    /// A line was selected.
    pub(crate) selected: bool,
    /// Something was refused or failed.
    pub(crate) failed: bool,
}

/// How a run ended.
#[derive(Drop)]
pub struct Finished<S, E> {
    /// The exit status.
    pub status: u8,
    /// The sink, as its last call left it.
    pub sink: S,
    /// The writer of the messages, as its last call left it.
    pub messages: Watched<E>,
}

/// Has a sink hand on what it holds, unless it failed.
fn hand_on<S: Sink>(sink: &mut S)
    ensures { HandsOn S.stands S.stopped sink.old sink.new (S.state sink.old) (S.state sink.new) }
{
    if !sink.has_failed() {
        let _ = sink.flush();
    }
}

impl<'q, S: Sink + Drop, E: Write + Drop> Run<'q, S, E> {
    /// A run in which no file was searched yet; under `-q` it is a quiet one, which a selected line decides.
    ///
    /// # Errors
    ///
    /// There is no memory for the buffer.
    pub fn new(
        alloc: Global,
        question: &'q Question,
        quiet: bool,
        sink: S,
        messages: Watched<E>,
    ) -> Result<Run<'q, S, E>, AllocError>
        ensures sink { IfOk result (λ run. run.sink ≡ sink) }
        ensures messages { IfOk result (λ run. (filled run.messages.device ≡ messages) × (run.messages.failed ≡ false)) }
        ensures question { IfOk result (λ run. run.question.now ≡ question.now) }
        ensures notes { IfOk result (λ run. (run.quiet ≡ quiet) × (run.selected ≡ false) × (run.failed ≡ false)) }
    {
        let Ok(messages) = BufWriter::new(alloc, messages) else {
            return Err(AllocError);
        };
        Ok(Run {
            alloc,
            question,
            quiet,
            sink,
            messages: Watched::new(messages),
            selected: false,
            failed: false,
        })
    }

    /// Whether the sink and the writer of messages can still be told.
    pub fn is_open(&self) -> bool
        ensures { result ≡ (not (S.state self.now.sink).failed && not self.now.messages.failed) }
    {
        !self.sink.has_failed() && !self.messages.failed()
    }

    /// Whether a line was selected so far.
    pub fn has_selected(&self) -> bool
        ensures { result ≡ self.now.selected }
    {
        self.selected
    }

    /// Whether no further file matters, since a selected line ends the run under `-q`.
    pub fn is_decided(&self) -> bool
        ensures { result ≡ (self.now.quiet && self.now.selected) }
    {
        self.quiet && self.selected
    }

    /// Tells what stands above the rows of all files, where they are those of a table: the names of the columns.
    ///
    /// # Errors
    ///
    /// `Write` if the sink failed. `Memory` if memory ran out: then nothing was told.
    pub fn tell_header(&mut self, form: &Form<'_>, names: &[&str]) -> Result<(), SearchFault>
        requires writes { (S.state self.old.sink).failed ≡ false }
        ensures header { PutsEnd S.stands S.stopped self.old.sink self.new.sink result (header_text form.now.shown form.now (map (λ name. name.now) names.now)) }
        ensures write_fault { IsToldOf is_write_fault result (S.state self.new.sink).failed }
        ensures report_fault { IsToldOf is_report_fault result false }
        ensures inner { IsToldOf is_input_fault result false }
        ensures kept { IsKept (S.state self.old.sink) (S.state self.new.sink) }
        ensures noted { (self.new.selected ≡ self.old.selected) × (self.new.failed ≡ (self.old.failed || is_err result)) }
        ensures same { (self.new.messages ≡ self.old.messages) × (self.new.question ≡ self.old.question) × (self.new.quiet ≡ self.old.quiet) }
    {
        let told = tell_header(self.alloc, form, names, &mut self.sink);
        self.failed |= told.is_err();
        told
    }

    /// Searches a stream, as `search` does. What is said of the writer of messages is said of the one behind the buffer, as it is
    /// once it took what the buffer holds.
    ///
    /// # Errors
    ///
    /// Those of `search`.
    pub fn search<R: Read>(
        &mut self,
        form: &Form<'_>,
        input: &mut Input<R>,
    ) -> Result<Found, SearchFault>
        requires reads { input.old.reader.failed ≡ false }
        requires unended { input.old.reader.ended ≡ false }
        requires writes { (S.state self.old.sink).failed ≡ false }
        requires reports { self.old.messages.failed ≡ false }
        ensures output { (came : Came) × (outcomes : List Item) × GaveUpTo R.remaining input.old.reader input.new.reader came
            × CameOfStream form.now came outcomes × ReadOn self.old.question.now form.now input.old input.new came.bytes outcomes × MatchResult result
            (λ found. Searched S.stands S.stopped untold self.old.question.now form.now self.old.sink self.new.sink
            (filled self.old.messages.device) (filled self.new.messages.device) came outcomes found)
            (λ fault. SearchStopped S.stands S.stopped untold self.old.question.now form.now self.old.sink self.new.sink
            (filled self.old.messages.device) (filled self.new.messages.device) fault came outcomes) }
        ensures read_fault { IsToldOf is_read_fault result (input.new.reader.failed && not self.new.messages.failed) }
        ensures write_fault { IsToldOf is_write_fault result (S.state self.new.sink).failed }
        ensures report_fault { IsToldOf is_report_fault result self.new.messages.failed }
        ensures after { input.new.reader.after ≡ input.old.reader.after }
        ensures kept { IsKept (S.state self.old.sink) (S.state self.new.sink) }
        ensures messages_after { self.new.messages.after ≡ self.old.messages.after }
        ensures early { input.new.reader.early ≡ input.old.reader.early }
        ensures notes { NotesSearch form.now.silent result self.old.selected self.old.failed self.new.selected self.new.failed }
        ensures same { (self.new.question ≡ self.old.question) × (self.new.quiet ≡ self.old.quiet) }
    {
        let found = search(
            self.alloc,
            self.question,
            form,
            input,
            &mut self.sink,
            &mut self.messages,
        );
        match found {
            Ok(found) => {
                self.selected |= found.counts.selected > 0;
                self.failed |= (!form.silent && found.counts.refused > 0) || !found.is_whole();
            }
            Err(_) => self.failed = true,
        }
        found
    }

    /// Notes that something was refused or failed. The caller says so after the rows and the messages so far, which are handed on.
    pub fn refuse(&mut self)
        ensures sink { HandsOn S.stands S.stopped self.old.sink self.new.sink (S.state self.old.sink) (S.state self.new.sink) }
        ensures messages { (filled self.new.messages.device).taken ≡ (filled self.old.messages.device).taken }
        ensures flushed { self.new.messages.failed ≡ false → self.new.messages.unflushed ≡ false }
        ensures after { self.new.messages.after ≡ self.old.messages.after }
        ensures noted { self.new.failed ≡ true }
        ensures same { (self.new.question ≡ self.old.question) × (self.new.quiet ≡ self.old.quiet) × (self.new.selected ≡ self.old.selected) }
    {
        self.failed = true;
        self.hand_on();
    }

    /// Has the rows and the messages so far handed on, so that the caller can tell something after them.
    pub fn hand_on(&mut self)
        ensures sink { HandsOn S.stands S.stopped self.old.sink self.new.sink (S.state self.old.sink) (S.state self.new.sink) }
        ensures messages { (filled self.new.messages.device).taken ≡ (filled self.old.messages.device).taken }
        ensures flushed { self.new.messages.failed ≡ false → self.new.messages.unflushed ≡ false }
        ensures after { self.new.messages.after ≡ self.old.messages.after }
        ensures same { (self.new.question ≡ self.old.question) × (self.new.quiet ≡ self.old.quiet)
            × (self.new.selected ≡ self.old.selected) × (self.new.failed ≡ self.old.failed) }
    {
        hand_on(&mut self.sink);
        if !self.messages.failed() {
            let _ = flush_written(&mut self.messages);
        }
    }

    /// Ends the run: the sink hands on what it holds, what the buffer of messages holds is written, and their writer is flushed. A
    /// sink or a writer that failed a call is not called again. What fails here is told by the status, as all that was refused or
    /// failed before.
    pub fn finish(self) -> Finished<S, E>
        ensures sink { HandsOn S.stands S.stopped self.entry.sink result.sink (S.state self.entry.sink) (S.state result.sink) }
        ensures messages { Took result.messages (filled self.entry.messages.device) }
        ensures flushed { result.messages.failed ≡ false → result.messages.unflushed ≡ false }
        ensures status { result.status ≡ status_of self.entry.quiet self.entry.selected (self.entry.failed || (S.state result.sink).failed || result.messages.failed) }
    {
        let mut sink = self.sink;
        hand_on(&mut sink);
        let messages = write_out(self.messages.into_inner());
        let failed = self.failed || sink.has_failed() || messages.failed();
        let status = match (self.selected, failed) {
            (true, false) => SELECTED,
            (true, true) if self.quiet => SELECTED,
            (false, false) => NOT_SELECTED,
            _ => FAULT,
        };
        Finished {
            status,
            sink,
            messages,
        }
    }
}
