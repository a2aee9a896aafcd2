//! The answer of lines: rows of those that are selected, messages on those that are refused.

ghost use Rattle.std.specs.Prelude.{Some, ◌≡◌, ◌+◌, ◌<◌, ◌≤◌, ◌^◌, ◌∷◌, [], false, true, length, map, IfOk, OnOk, if◌then◌else◌};
ghost use Rattle.jp_devices.specs.Devices.{Writes};
ghost use Rattle.jp_model.specs.Json.Status.{parsed, refused};
ghost use Rattle.jp_model.specs.Meaning.Nodes.{root_node};
ghost use Rattle.jp_nodes.specs.Cursors.{node_of};
ghost use Rattle.jp_children.specs.Found.{AreOf};
ghost use Rattle.jp_lines.specs.Views.{text_of_view, tree_of_view};
ghost use Rattle.jp_sink.specs.Events.{row_event};
ghost use Rattle.jp_grep.specs.Items.{judged};
ghost use Rattle.jp_grep.specs.Faults.{is_input_fault};
ghost use Rattle.jp_grep.specs.Matching.{each_of, nodes_asked, wants_refused};
ghost use Rattle.jp_grep.specs.ReadItems.{AreRead, IsReadItem, item_of, items_of, status_by};
ghost use Rattle.jp_grep.specs.Rows.{events_around, message_where, refused_events, row_around, text_around};
ghost use Rattle.jp_grep.specs.Searching.{Answers, AnswersEach, AnswersItem, AnswersStatus, IsUnderWay, PutsFirst, PutsSelected};
ghost use Rattle.jp_grep.specs.Sizes.{TellsOfNumbers};
ghost use Rattle.jp_grep.specs.Telling.{AreOpen, Puts, TellsOfBoth, TellsOfSearch, TellsOfSink, gap_where};

use crate::asked::AskedNode;
use crate::fault::SearchFault;
use crate::items::{ReadItem, ReadItems};
use crate::progress::{Progress, Verdict};
use crate::question::Question;
use crate::room::{NodeRoom, Room};
use crate::rows::{add_front, add_refused};
use crate::telling::{flush_sink, tell_other, tell_row};
use crate::told::{tell_given_up, tell_refused, wants_refused};
use jp_eval::Frame;
use jp_form::{Form, Shown};
use jp_lines::{LineState, LineView};
use jp_model::{LineFault, Watched};
use jp_nodes::Cursor;
use jp_sink::Sink;
use std::alloc::{AllocError, Global};
use std::io::Write;

/// What a line, a text or an element counts as: where no more nodes are wanted it is not judged, and counts as a blank one.
fn judged<'r>(most: u64, state: LineState<'r>) -> LineState<'r>
    ensures { status_by result ≡ judged (Some most) (status_by state.entry) }
{
    if most == 0 { LineState::Blank } else { state }
}

/// What answers lines.
#[derive(Clone, Copy)]
pub(crate) struct Answerer<'q> {
    pub(crate) alloc: Global,
    pub(crate) question: &'q Question,
    pub(crate) form: &'q Form<'q>,
}

impl<'q> Answerer<'q> {
    /// The nodes of a line that are asked one by one: those that a query selects, which the frame has then, or else its root.
    #[inline(always)]
    fn nodes_asked<'r: 'f, 'f>(
        self,
        root: &'f [Cursor<'r>],
        line: LineView<'r>,
        frame: &'f mut Frame<'r>,
    ) -> Result<&'f [Cursor<'r>], AllocError>
        requires root { map node_of root.now ≡ root_node (tree_of_view line) ∷ [] }
        requires of { AreOf (text_of_view line) root.now }
        ensures nodes { IfOk result (λ nodes. map node_of nodes.now ≡ nodes_asked (each_of self.entry.question.now) (tree_of_view line.entry)) }
        ensures lines { IfOk result (λ nodes. AreOf (text_of_view line.entry) nodes.now) }
    {
        match &self.question.each {
            None => Ok(root),
            Some(query) => {
                query.run_in(self.alloc, line.root(), line.root(), frame)?;
                Ok(frame.found())
            }
        }
    }

    /// Answers a line that has a value: the nodes of it that are asked, up to the last that is wanted.
    fn answer_value<'r, S: Sink>(
        self,
        number: u64,
        most: u64,
        line: LineView<'r>,
        text: &'r [u8],
        room: &mut Room<'r>,
        sink: &mut S,
    ) -> Result<Verdict, SearchFault>
        requires text { text_of_view line ≡ text.now }
        requires working { (S.state sink.old).failed ≡ false }
        ensures answers { PutsSelected S.stands S.stopped self.entry.question.now self.entry.form.now number text.now most sink.old sink.new result (parsed (tree_of_view line.entry)) }
        ensures fits { IfOk result (λ verdict. verdict.selected ≤ most) }
        ensures tells { TellsOfSink result (S.state sink.old) (S.state sink.new) }
    {
        let root = [line.root()];
        let Ok(nodes) = self.nodes_asked(&root, line, &mut room.asked) else {
            return Ok(Verdict::of_given_up());
        };
        let room = &mut room.node;
        if room.answers.begin(self.alloc, self.question).is_err() {
            return Ok(Verdict::of_given_up());
        }
        let mut selected = 0;
        for node in nodes {
            if selected == most {
                break;
            }
            let asked = AskedNode { line, node: *node };
            match self.answer_node(number, &asked, text, room, sink)? {
                Some(is_selected) => selected += u64::from(is_selected),
                None => return Ok(Verdict::of_given_up()),
            }
        }
        Ok(Verdict::of_value(selected))
    }

    /// Makes the row of a refused line, and tells whether it is shown.
    fn make_refused_row<'r>(
        self,
        number: u64,
        fault: LineFault,
        text: &[u8],
        room: &mut NodeRoom<'r>,
    ) -> Result<bool, AllocError>
        ensures row { IfOk result (λ is_shown. refused_events self.entry.form.now.shown self.entry.form.now number text.now fault ≡ (if is_shown then row_event true room.new.row.items ∷ [] else [])) }
    {
        let faults = match self.form.shown {
            Shown::Line { faults } => faults,
            Shown::Around => false,
            _ => return Ok(false),
        };
        room.row.clear();
        add_refused(self.form, faults, number, fault, text, &mut room.row)?;
        Ok(true)
    }

    /// Answers a refused line: tells its row, where refused lines are wanted.
    fn answer_refused<'r, S: Sink>(
        self,
        number: u64,
        most: u64,
        fault: LineFault,
        text: &[u8],
        room: &mut NodeRoom<'r>,
        sink: &mut S,
    ) -> Result<Verdict, SearchFault>
        requires some { 0 < most }
        requires working { (S.state sink.old).failed ≡ false }
        ensures answers { PutsSelected S.stands S.stopped self.entry.question.now self.entry.form.now number text.now most sink.old sink.new result (refused fault) }
        ensures fits { IfOk result (λ verdict. verdict.selected ≤ most) }
        ensures tells { TellsOfSink result (S.state sink.old) (S.state sink.new) }
    {
        if !self.question.wanted.wants_refused() {
            return Ok(Verdict::of_refused(false));
        }
        let Ok(is_shown) = self.make_refused_row(number, fault, text, room) else {
            return Ok(Verdict::of_given_up());
        };
        if is_shown {
            tell_row(&room.row, sink)?;
        }
        Ok(Verdict::of_refused(true))
    }

    /// Tells what is selected of a line, a text or an element that is judged.
    fn put_selected<'r, S: Sink>(
        self,
        number: u64,
        most: u64,
        item: ReadItem<'r>,
        room: &mut Room<'r>,
        sink: &mut S,
    ) -> Result<Verdict, SearchFault>
        requires item { IsReadItem item }
        requires some { 0 < most }
        requires working { (S.state sink.old).failed ≡ false }
        ensures answers { PutsSelected S.stands S.stopped self.entry.question.now self.entry.form.now number item.entry.text.now most sink.old sink.new result (status_by item.entry.state) }
        ensures fits { IfOk result (λ verdict. verdict.selected ≤ most) }
        ensures tells { TellsOfSink result (S.state sink.old) (S.state sink.new) }
    {
        match item.state {
            LineState::Blank => Ok(Verdict::of_value(0)),
            LineState::Refused(fault) => {
                self.answer_refused(number, most, fault, item.text, &mut room.node, sink)
            }
            LineState::Tree(view) => {
                self.answer_value(number, most, view, item.text, room, sink)
            }
        }
    }

    /// Tells what is selected of a line, a text or an element. Where no more nodes are wanted it is not judged.
    fn put_wanted<'r, S: Sink>(
        self,
        number: u64,
        most: u64,
        item: ReadItem<'r>,
        room: &mut Room<'r>,
        sink: &mut S,
    ) -> Result<Verdict, SearchFault>
        requires item { IsReadItem item }
        requires working { (S.state sink.old).failed ≡ false }
        ensures answers { PutsSelected S.stands S.stopped self.entry.question.now self.entry.form.now number item.entry.text.now most sink.old sink.new result (judged (Some most) (status_by item.entry.state)) }
        ensures fits { IfOk result (λ verdict. verdict.selected ≤ most) }
        ensures tells { TellsOfSink result (S.state sink.old) (S.state sink.new) }
    {
        if most == 0 {
            return Ok(Verdict::of_value(0));
        }
        self.put_selected(number, most, item, room, sink)
    }

    /// Makes the row of a line, a text or an element around selected ones.
    fn make_row_around<'r>(
        self,
        number: u64,
        item: ReadItem<'r>,
        room: &mut NodeRoom<'r>,
    ) -> Result<(), AllocError>
        requires item { IsReadItem item }
        ensures row { OnOk result (room.new.row.items ≡ row_around self.entry.form.now number (text_around self.entry.form.now.units item.entry.text.now (status_by item.entry.state))) }
    {
        room.row.clear();
        add_front(b'-', self.form, number, &mut room.row)?;
        match item.state {
            LineState::Tree(view) => self.append_whole(view, item.text, &mut room.row)?,
            _ => room.row.extend_from_slice(item.text)?,
        }
        Ok(room.row.push(b'\n')?)
    }

    /// Tells the row of a line, a text or an element of which nothing is selected, where the rows around selected ones are shown,
    /// and tells whether there was memory for it.
    fn put_around<'r, S: Sink>(
        self,
        number: u64,
        item: ReadItem<'r>,
        room: &mut NodeRoom<'r>,
        sink: &mut S,
    ) -> Result<bool, SearchFault>
        requires item { IsReadItem item }
        requires working { (S.state sink.old).failed ≡ false }
        ensures rows { PutsFirst S.stands S.stopped sink.old sink.new result (λ whole. whole) (events_around self.entry.form.now.shown self.entry.form.now number item.entry.text.now 0 (status_by item.entry.state)) }
        ensures tells { TellsOfSink result (S.state sink.old) (S.state sink.new) }
    {
        let Shown::Around = self.form.shown else {
            return Ok(true);
        };
        if self.make_row_around(number, item, room).is_err() {
            return Ok(false);
        }
        tell_other(&room.row, sink)
    }

    /// Tells the rows of a line, a text or an element.
    fn put_item<'r, S: Sink>(
        self,
        number: u64,
        most: u64,
        item: ReadItem<'r>,
        room: &mut Room<'r>,
        sink: &mut S,
    ) -> Result<Verdict, SearchFault>
        requires item { IsReadItem item }
        requires working { (S.state sink.old).failed ≡ false }
        ensures answers { AnswersStatus S.stands S.stopped self.entry.question.now self.entry.form.now number item.entry.text.now most sink.old sink.new result (status_by item.entry.state) }
        ensures fits { IfOk result (λ verdict. verdict.selected ≤ most) }
        ensures tells { TellsOfSink result (S.state sink.old) (S.state sink.new) }
    {
        let verdict = self.put_wanted(number, most, item, room, sink)?;
        if verdict.selected > 0 || verdict.given_up {
            return Ok(verdict);
        }
        if !self.put_around(number, item, &mut room.node, sink)? {
            return Ok(Verdict::of_given_up());
        }
        Ok(verdict)
    }

    /// Tells of a line, a text or an element that was refused or given up. The rows so far are written first.
    fn tell<S: Sink, E: Write>(
        self,
        progress: Progress,
        state: LineState<'_>,
        from_line: Option<u64>,
        given_up: bool,
        sink: &mut S,
        messages: &mut Watched<E>,
    ) -> Result<(), SearchFault>
        requires open { AreOpen (S.state sink.old) messages.old }
        ensures rows { Puts S.stands S.stopped sink.old sink.new result (gap_where given_up) }
        ensures message { Writes E.contents messages.old messages.new result (message_where given_up self.entry.form.now progress.counts.refused progress.number from_line (status_by state.entry)) }
        ensures tells { TellsOfBoth result (S.state sink.old) (S.state sink.new) messages.old messages.new }
    {
        if given_up {
            sink.gap();
            flush_sink(sink)?;
            return tell_given_up(self.form, progress.number, from_line, messages);
        }
        match state {
            LineState::Refused(fault) if wants_refused(self.form, progress) => {
                flush_sink(sink)?;
                tell_refused(self.form, progress, fault, from_line, messages)
            }
            _ => Ok(()),
        }
    }

    /// Answers a line, a text or an element.
    fn answer_item<'r, S: Sink, E: Write>(
        self,
        progress: Progress,
        item: ReadItem<'r>,
        room: &mut Room<'r>,
        sink: &mut S,
        messages: &mut Watched<E>,
    ) -> Result<Verdict, SearchFault>
        requires wanted { progress.counts.selected ≤ self.form.now.most }
        requires item { IsReadItem item }
        requires open { AreOpen (S.state sink.old) messages.old }
        ensures answers { AnswersItem S.stands S.stopped E.contents self.entry.question.now self.entry.form.now progress sink.old sink.new messages.old messages.new result (item_of item.entry) }
        ensures fits { IfOk result (λ verdict. progress.counts.selected + verdict.selected ≤ self.entry.form.now.most) }
        ensures tells { TellsOfBoth result (S.state sink.old) (S.state sink.new) messages.old messages.new }
    {
        let most = self.form.most - progress.counts.selected;
        let verdict = self.put_item(progress.number, most, item, room, sink)?;
        self.tell(
            progress,
            judged(most, item.state),
            item.from_line,
            verdict.given_up,
            sink,
            messages,
        )?;
        Ok(verdict)
    }

    /// Answers lines, texts or elements in turn, up to the last one that is wanted and those that are passed after it. Of their rows
    /// the last may be held.
    fn answer_each<S: Sink, E: Write>(
        self,
        items: ReadItems<'_>,
        progress: &mut Progress,
        sink: &mut S,
        messages: &mut Watched<E>,
    ) -> Result<(), SearchFault>
        requires read { AreRead items }
        requires numbers { progress.old.number + length (items_of items) < 2 ^ 64 }
        requires under_way { IsUnderWay self.form.now progress.old }
        requires open { AreOpen (S.state sink.old) messages.old }
        ensures answers { AnswersEach S.stands S.stopped E.contents self.entry.question.now self.entry.form.now progress.old progress.new sink.old sink.new messages.old messages.new result (items_of items.entry) }
        ensures tells { TellsOfBoth result (S.state sink.old) (S.state sink.new) messages.old messages.new }
    {
        let mut room = Room::new(self.alloc);
        for index in 0..items.count() {
            if progress.is_done(*self.form) {
                return Ok(());
            }
            let item = items.item(index);
            let verdict = self.answer_item(*progress, item, &mut room, sink, messages)?;
            progress.pass(*self.form, verdict);
        }
        Ok(())
    }

    /// Answers lines, texts or elements, up to the last one that is wanted and those that are passed after it, and writes their rows.
    ///
    /// # Errors
    ///
    /// `Size` if there are more lines than a number of 64 bits counts: then nothing was written. `Write` and `Report` if a row or
    /// a message was not written.
    pub(crate) fn answer_items<S: Sink, E: Write>(
        self,
        items: ReadItems<'_>,
        progress: &mut Progress,
        sink: &mut S,
        messages: &mut Watched<E>,
    ) -> Result<(), SearchFault>
        requires read { AreRead items }
        requires under_way { IsUnderWay self.form.now progress.old }
        requires open { AreOpen (S.state sink.old) messages.old }
        ensures answers { Answers S.stands S.stopped E.contents self.entry.question.now self.entry.form.now progress.old progress.new sink.old sink.new messages.old messages.new result (items_of items.entry) }
        ensures size { TellsOfNumbers result progress.old (items_of items.entry) }
        ensures tells { TellsOfSearch is_input_fault result (S.state sink.old) (S.state sink.new) messages.old messages.new }
    {
        if !progress.has_numbers(items.count()) {
            return Err(SearchFault::Size);
        }
        self.answer_each(items, progress, sink, messages)
    }
}
