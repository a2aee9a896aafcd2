//! The answer of a node: its rows, where it is selected.

ghost use Rattle.std.specs.Prelude.{◌≡◌, ◌++◌, [], false, true, is_some, map, IfOk, IfSome, MatchOption, OnOk, ⊤, if◌then◌else◌};
ghost use Rattle.jp_nodes.specs.Cursors.{line_of, node_of};
ghost use Rattle.jp_children.specs.Found.{AreOf};
ghost use Rattle.jp_lines.specs.Views.{text_of_view, tree_of_view};
ghost use Rattle.jp_form.specs.declared.form.Shown.TheVariants as shown;
ghost use Rattle.jp_grep.specs.LineAnswers.{Knows};
ghost use Rattle.jp_grep.specs.Asked.{IsOfItsLine, asked_tree};
ghost use Rattle.jp_grep.specs.Matching.{is_selected, nodes_of, queries_of, selects, wants_nodes};
ghost use Rattle.jp_grep.specs.Rows.{line_text, row, row_at_once, selected_event, shown_line, value_event, whole};
ghost use Rattle.jp_grep.specs.Searching.{AnswersNode, PutsFirst};
ghost use Rattle.jp_grep.specs.Tables.{table_row};
ghost use Rattle.jp_grep.specs.Telling.{Puts, TellsOfSink};

use crate::answer::Answerer;
use crate::asked::AskedNode;
use crate::fault::SearchFault;
use crate::question::Wanted;
use crate::room::NodeRoom;
use crate::rows::{add_front, add_value};
use crate::spelling::{Speller, append_printed};
use crate::telling::{tell_node, tell_row};
use jp_form::{Shown, Spelling, Table, Units};
use jp_lines::LineView;
use jp_model::Framing;
use jp_nodes::Cursor;
use jp_sink::Sink;
use std::alloc::AllocError;

// How the row of a node is made.
impl<'q> Answerer<'q> {
    /// Appends a line as it is printed: its bytes, and of a text or an element those from the first of its value to the last.
    pub(crate) fn append_whole<'r>(
        self,
        line: LineView<'r>,
        text: &'r [u8],
        row: &mut Vec<u8>,
    ) -> Result<(), AllocError>
        requires { text_of_view line ≡ text.now }
        ensures { OnOk result (row.new.items ≡ row.old.items ++ whole self.entry.form.now.units text.now (tree_of_view line.entry)) }
    {
        match self.form.units {
            Units::Lines(Framing::Lines) => row.extend_from_slice(text),
            Units::Lines(Framing::Sequence) => row.extend_from_slice(line.root().source()),
            Units::Pieces(_) => append_printed(self.form.units, line.root().source(), row),
        }
    }

    /// Appends a line as its form spells it.
    fn append_line<'r>(
        self,
        line: LineView<'r>,
        text: &'r [u8],
        room: &mut NodeRoom<'r>,
    ) -> Result<(), AllocError>
        requires { text_of_view line ≡ text.now }
        ensures row { OnOk result (room.new.row.items ≡ room.old.row.items ++ line_text self.entry.form.now.spelling self.entry.form.now.units text.now (tree_of_view line.entry)) }
        ensures answers { room.new.answers ≡ room.old.answers }
    {
        let (units, row) = (self.form.units, &mut room.row);
        match self.form.spelling {
            Spelling::Source => self.append_whole(line, text, row),
            Spelling::Text => room.speller.append(Spelling::Text, units, line.root(), row),
            Spelling::Canonical => {
                room.speller
                    .append(Spelling::Canonical, units, line.root(), row)
            }
        }
    }

    /// Adds the row of a line that is selected by a node of it.
    fn add_line<'r>(
        self,
        number: u64,
        asked: &AskedNode<'r>,
        text: &'r [u8],
        room: &mut NodeRoom<'r>,
    ) -> Result<(), AllocError>
        requires node { IsOfItsLine asked.now }
        requires text { text_of_view asked.now.line ≡ text.now }
        requires knows { Knows self.question.now (text_of_view asked.now.line) room.old.answers }
        ensures row { OnOk result (room.new.row.items ≡ room.old.row.items ++ row self.entry.form.now number (shown_line self.entry.question.now self.entry.form.now text.now (asked_tree asked.now) (node_of asked.now.node))) }
        ensures knows { OnOk result (Knows self.entry.question.now (text_of_view asked.now.line) room.new.answers) }
    {
        add_front(b':', self.form, number, &mut room.row)?;
        if self.form.marked {
            self.append_marked(asked, text, room)?;
        } else {
            self.append_line(asked.line, text, room)?;
        }
        room.row.extend_from_slice(b"\n")
    }

    /// Whether the queries are asked of a node: whether the conditions hold, or, where the others are wanted, whether it does not
    /// match.
    fn wants_nodes<'r>(
        self,
        asked: &AskedNode<'r>,
        room: &mut NodeRoom<'r>,
    ) -> Result<bool, AllocError>
        requires node { IsOfItsLine asked.now }
        requires knows { Knows self.question.now (text_of_view asked.now.line) room.old.answers }
        ensures wanted { IfOk result (λ wanted. wanted ≡ wants_nodes self.entry.question.now (node_of asked.now.node) (asked_tree asked.now)) }
        ensures row { room.new.row ≡ room.old.row }
        ensures knows { OnOk result (Knows self.entry.question.now (text_of_view asked.now.line) room.new.answers) }
    {
        match self.question.wanted {
            Wanted::Matching => self.question.all_hold(self.alloc, asked, &mut room.answers),
            Wanted::Others => Ok(!self.question.matches(self.alloc, asked, &mut room.answers)?),
            Wanted::Refused => Ok(false),
        }
    }

    /// Makes the row of a node whose cells are shown, where it is selected, and tells whether it is. The queries are asked once.
    fn make_table_row<'r>(
        self,
        table: Table,
        number: u64,
        asked: &AskedNode<'r>,
        room: &mut NodeRoom<'r>,
    ) -> Result<bool, AllocError>
        requires node { IsOfItsLine asked.now }
        requires knows { Knows self.question.now (text_of_view asked.now.line) room.old.answers }
        ensures selected { IfOk result (λ selected. selected ≡ is_selected self.entry.question.now (asked_tree asked.now) (node_of asked.now.node)) }
        ensures row { OnOk result (room.new.row.items ≡ room.old.row.items ++ (if is_selected self.entry.question.now (asked_tree asked.now) (node_of asked.now.node)
            then table_row table (queries_of self.entry.question.now) self.entry.form.now number (text_of_view asked.now.line) (asked_tree asked.now) (node_of asked.now.node) else [])) }
        ensures knows { OnOk result (Knows self.entry.question.now (text_of_view asked.now.line) room.new.answers) }
    {
        if !self.wants_nodes(asked, room)? {
            return Ok(false);
        }
        let some = self.make_cells(table, number, asked, room)?;
        if !self.question.wants_found(some) {
            return Ok(false);
        }
        room.row.extend_from_slice(room.cells.bytes())?;
        Ok(true)
    }

    /// Makes the row of a selected node where nothing or its line is shown, and tells whether it is selected.
    #[inline(always)]
    fn make_line_row<'r>(
        self,
        shown: bool,
        number: u64,
        asked: &AskedNode<'r>,
        text: &'r [u8],
        room: &mut NodeRoom<'r>,
    ) -> Result<bool, AllocError>
        requires node { IsOfItsLine asked.now }
        requires text { text_of_view asked.now.line ≡ text.now }
        requires knows { Knows self.question.now (text_of_view asked.now.line) room.old.answers }
        ensures selected { IfOk result (λ selected. selected ≡ is_selected self.entry.question.now (asked_tree asked.now) (node_of asked.now.node)) }
        ensures row { OnOk result (room.new.row.items ≡ room.old.row.items ++ (if is_selected self.entry.question.now (asked_tree asked.now) (node_of asked.now.node)
            then (if shown then row self.entry.form.now number (shown_line self.entry.question.now self.entry.form.now text.now (asked_tree asked.now) (node_of asked.now.node)) else []) else [])) }
        ensures knows { OnOk result (Knows self.entry.question.now (text_of_view asked.now.line) room.new.answers) }
    {
        let matching = self.question.matches(self.alloc, asked, &mut room.answers)?;
        if !self.question.wanted.wants_value(matching) {
            return Ok(false);
        }
        if shown {
            self.add_line(number, asked, text, room)?;
        }
        Ok(true)
    }

    /// Makes the row of a node, where it is selected and has one row, and tells whether it is selected.
    #[inline(always)]
    fn make_row<'r>(
        self,
        number: u64,
        asked: &AskedNode<'r>,
        text: &'r [u8],
        room: &mut NodeRoom<'r>,
    ) -> Result<bool, AllocError>
        requires node { IsOfItsLine asked.now }
        requires text { text_of_view asked.now.line ≡ text.now }
        requires knows { Knows self.question.now (text_of_view asked.now.line) room.old.answers }
        ensures selected { IfOk result (λ selected. selected ≡ is_selected self.entry.question.now (asked_tree asked.now) (node_of asked.now.node)) }
        ensures row { OnOk result (room.new.row.items ≡ (if is_selected self.entry.question.now (asked_tree asked.now) (node_of asked.now.node)
            then row_at_once self.entry.form.now.shown self.entry.question.now self.entry.form.now number text.now (asked_tree asked.now) (node_of asked.now.node) else [])) }
        ensures knows { OnOk result (Knows self.entry.question.now (text_of_view asked.now.line) room.new.answers) }
    {
        room.row.clear();
        match self.form.shown {
            Shown::Nothing | Shown::Nodes | Shown::Values { .. } => {
                self.make_line_row(false, number, asked, text, room)
            }
            Shown::Line { .. } | Shown::Around => {
                self.make_line_row(true, number, asked, text, room)
            }
            Shown::Cells(table) => self.make_table_row(table, number, asked, room),
        }
    }
}

// How nodes are answered.
impl<'q> Answerer<'q> {
    /// Puts a row for each of some nodes of a line, and tells whether there was memory for all.
    fn put_values<'r, S: Sink>(
        self,
        paths: bool,
        number: u64,
        text: &[u8],
        nodes: &[Cursor<'r>],
        speller: &mut Speller,
        row: &mut Vec<u8>,
        sink: &mut S,
    ) -> Result<bool, SearchFault>
        requires lines { AreOf text.now nodes.now }
        requires working { (S.state sink.old).failed ≡ false }
        ensures rows { PutsFirst S.stands S.stopped sink.old sink.new result (λ whole. whole) (map (value_event self.entry.form.now paths number text.now) (map node_of nodes.now)) }
        ensures tells { TellsOfSink result (S.state sink.old) (S.state sink.new) }
    {
        for node in nodes {
            row.clear();
            if add_value(self.form, paths, number, *node, speller, row).is_err() {
                return Ok(false);
            }
            tell_row(row, sink)?;
        }
        Ok(true)
    }

    /// Puts a row for each node that the queries select, query by query, and tells whether there is one. There is no answer where
    /// memory was refused.
    fn put_nodes<'r, S: Sink>(
        self,
        paths: bool,
        number: u64,
        asked: &AskedNode<'r>,
        text: &[u8],
        room: &mut NodeRoom<'r>,
        sink: &mut S,
    ) -> Result<Option<bool>, SearchFault>
        requires node { IsOfItsLine asked.now }
        requires text { text_of_view asked.now.line ≡ text.now }
        requires working { (S.state sink.old).failed ≡ false }
        requires knows { Knows self.question.now (text_of_view asked.now.line) room.old.answers }
        ensures rows { PutsFirst S.stands S.stopped sink.old sink.new result is_some
            (map (value_event self.entry.form.now paths number text.now) (nodes_of (queries_of self.entry.question.now) (node_of asked.now.node) (asked_tree asked.now))) }
        ensures some { IfOk result (λ answer. MatchOption answer ⊤ (λ some. some ≡ selects (queries_of self.entry.question.now) (node_of asked.now.node) (asked_tree asked.now))) }
        ensures tells { TellsOfSink result (S.state sink.old) (S.state sink.new) }
        ensures knows { IfOk result (λ answer. IfSome answer (λ selected. Knows self.entry.question.now (text_of_view asked.now.line) room.new.answers)) }
    {
        let mut some = false;
        for (index, query) in self.question.queries.iter().enumerate() {
            let answer = &mut room.answers.queries[index];
            let Ok(found) = query.find(self.alloc, asked, answer) else {
                return Ok(None);
            };
            some |= found;
            let whole = self.put_values(
                paths,
                number,
                text,
                answer.frame.found(),
                &mut room.speller,
                &mut room.row,
                sink,
            )?;
            if !whole {
                return Ok(None);
            }
        }
        Ok(Some(some))
    }

    /// Answers a node where the values are shown that the queries select in it. The queries are asked once.
    #[inline(always)]
    fn answer_nodes<'r, S: Sink>(
        self,
        paths: bool,
        number: u64,
        asked: &AskedNode<'r>,
        text: &[u8],
        room: &mut NodeRoom<'r>,
        sink: &mut S,
    ) -> Result<Option<bool>, SearchFault>
        requires shown { self.form.now.shown ≡ shown.Values paths }
        requires node { IsOfItsLine asked.now }
        requires text { text_of_view asked.now.line ≡ text.now }
        requires working { (S.state sink.old).failed ≡ false }
        requires knows { Knows self.question.now (text_of_view asked.now.line) room.old.answers }
        ensures answers { AnswersNode S.stands S.stopped self.entry.question.now self.entry.form.now number text.now sink.old sink.new result (asked_tree asked.now) (node_of asked.now.node) }
        ensures tells { TellsOfSink result (S.state sink.old) (S.state sink.new) }
        ensures knows { IfOk result (λ answer. IfSome answer (λ selected. Knows self.entry.question.now (text_of_view asked.now.line) room.new.answers)) }
    {
        match self.wants_nodes(asked, room) {
            Ok(true) => {}
            Ok(false) => return Ok(Some(false)),
            Err(_) => return Ok(None),
        }
        match self.put_nodes(paths, number, asked, text, room, sink)? {
            Some(some) => Ok(Some(self.question.wants_found(some))),
            None => Ok(None),
        }
    }

    /// Tells a node that is selected: its one row, or the node itself, or nothing.
    fn tell_selected<S: Sink>(
        self,
        number: u64,
        node: Cursor<'_>,
        row: &[u8],
        sink: &mut S,
    ) -> Result<(), SearchFault>
        requires working { (S.state sink.old).failed ≡ false }
        ensures events { Puts S.stands S.stopped sink.old sink.new result (selected_event self.entry.form.now.shown number (line_of node.entry) (node_of node.entry) row.now) }
        ensures tells { TellsOfSink result (S.state sink.old) (S.state sink.new) }
    {
        match self.form.shown {
            Shown::Nothing | Shown::Values { .. } => Ok(()),
            Shown::Nodes => tell_node(number, node, sink),
            Shown::Line { .. } | Shown::Around | Shown::Cells(_) => tell_row(row, sink),
        }
    }

    /// Answers a node: tells its rows or the node itself, and whether it is selected. There is no answer where memory was refused.
    pub(crate) fn answer_node<'r, S: Sink>(
        self,
        number: u64,
        asked: &AskedNode<'r>,
        text: &'r [u8],
        room: &mut NodeRoom<'r>,
        sink: &mut S,
    ) -> Result<Option<bool>, SearchFault>
        requires node { IsOfItsLine asked.now }
        requires text { text_of_view asked.now.line ≡ text.now }
        requires working { (S.state sink.old).failed ≡ false }
        requires knows { Knows self.question.now (text_of_view asked.now.line) room.old.answers }
        ensures answers { AnswersNode S.stands S.stopped self.entry.question.now self.entry.form.now number text.now sink.old sink.new result (asked_tree asked.now) (node_of asked.now.node) }
        ensures tells { TellsOfSink result (S.state sink.old) (S.state sink.new) }
        ensures knows { IfOk result (λ answer. IfSome answer (λ selected. Knows self.entry.question.now (text_of_view asked.now.line) room.new.answers)) }
    {
        if let Shown::Values { paths } = self.form.shown {
            return self.answer_nodes(paths, number, asked, text, room, sink);
        }
        let Ok(selected) = self.make_row(number, asked, text, room) else {
            return Ok(None);
        };
        if !selected {
            return Ok(Some(false));
        }
        self.tell_selected(number, asked.node, &room.row, sink)?;
        Ok(Some(true))
    }
}
