//! Which rows are shown.

ghost use Rattle.std.specs.Prelude.{◌≡◌, ◌++◌, ◌∷◌, [], ℕ, ◌<◌, ◌≤◌, List, MatchResult, OnErr, OnOk, false, is_err, length, true};
ghost use Rattle.std.specs.VecDeque.{deque_capacity, deque_len};
ghost use Rattle.jp_model.specs.Rows.{line_feed};
ghost use Rattle.jp_nodes.specs.Cursors.{line_of, node_of};
ghost use Rattle.jp_context.specs.Groups.{context_text};
ghost use Rattle.jp_context.specs.Steps.{KeepsRow, ShowsRow, kept_texts, show_front, will_show};
ghost use Rattle.jp_context.specs.Told.{ToldRow, next_row, rows_from};
ghost use Rattle.jp_sink.specs.Events.{Event, event_text, node_event};
ghost use Rattle.jp_sink.specs.Telling.{has_failed};
ghost use Rattle.jp_sink.specs.Texts.{WritesOn};

use crate::shown::Shown;
use crate::state::{Groups, Layout};
use jp_nodes::Cursor;
use jp_sink::{TextSink, Untold};
use std::alloc::Global;
use std::collections::VecDeque;
use std::io::Write;
use std::mem;

impl Groups {
    /// With no row yet.
    pub(crate) fn new(alloc: Global, layout: Layout) -> Groups
        ensures layout { result.layout ≡ layout }
        ensures shows { (rows : List ToldRow) → will_show result rows ≡ context_text layout.coloured layout.before layout.after rows }
    {
        Groups {
            alloc,
            layout,
            left: 0,
            shown: Shown::Nothing,
            kept: VecDeque::new(alloc),
            spare: Vec::new(alloc),
        }
    }

    /// Takes a gap: no row that came before it is context of one that comes after it.
    pub(crate) fn part(&mut self)
        ensures layout { self.new.layout ≡ self.old.layout }
        ensures shows { (events : List Event) → will_show self.old (rows_from true events) ≡ will_show self.new (rows_from false events) }
    {
        self.left = 0;
        self.shown = self.shown.parted();
        self.kept.clear();
    }

    /// Shows the rows that are kept, and what parts the row after them from what was shown.
    fn show_front<W: Write>(&mut self, text: &mut TextSink<W>) -> Result<(), Untold>
        requires working { text.old.out.failed ≡ false }
        ensures layout { self.new.layout ≡ self.old.layout }
        ensures kept { OnOk result (self.new.kept.items ≡ []) }
        ensures written { WritesOn text.old text.new result (show_front self.old.layout.coloured self.old.shown (kept_texts self.old)) }
        ensures failed { text.new.out.failed ≡ is_err result }
        ensures after { text.new.out.after ≡ text.old.out.after }
    {
        while let Some(row) = self.kept.pop_front() {
            self.shown.show(self.layout.coloured, &row, text)?;
            self.shown = Shown::Neighbour;
        }
        self.shown.part(self.layout.coloured, text)
    }

    /// Takes a row that is selected: it is shown, after those that are kept before it.
    fn select<W: Write>(&mut self, row: &[u8], text: &mut TextSink<W>) -> Result<(), Untold>
        requires working { text.old.out.failed ≡ false }
        ensures layout { self.new.layout ≡ self.old.layout }
        ensures shows { ShowsRow self.old self.new text.old text.new result (next_row true row.now) }
        ensures failed { text.new.out.failed ≡ has_failed result }
        ensures fault { OnErr result (has_failed result ≡ true) }
        ensures after { text.new.out.after ≡ text.old.out.after }
    {
        self.show_front(text)?;
        text.put(row)?;
        self.shown = Shown::Neighbour;
        self.left = self.layout.after;
        Ok(())
    }

    /// Takes a node as a row that is selected.
    pub(crate) fn take_node<W: Write>(
        &mut self,
        node: Cursor<'_>,
        text: &mut TextSink<W>,
    ) -> Result<(), Untold>
        requires working { text.old.out.failed ≡ false }
        ensures layout { self.new.layout ≡ self.old.layout }
        ensures shows { (number : ℕ) → ShowsRow self.old self.new text.old text.new result (next_row true (event_text (node_event number (line_of node.entry) (node_of node.entry)))) }
        ensures failed { text.new.out.failed ≡ has_failed result }
        ensures fault { OnErr result (has_failed result ≡ true) }
        ensures after { text.new.out.after ≡ text.old.out.after }
    {
        self.show_front(text)?;
        put_line(node.source(), text)?;
        self.shown = Shown::Neighbour;
        self.left = self.layout.after;
        Ok(())
    }

    /// Takes a row that follows one that is selected: it is shown.
    fn follow<W: Write>(&mut self, row: &[u8], text: &mut TextSink<W>) -> Result<(), Untold>
        requires left { 0 < self.old.left }
        requires working { text.old.out.failed ≡ false }
        ensures layout { self.new.layout ≡ self.old.layout }
        ensures shows { ShowsRow self.old self.new text.old text.new result (next_row false row.now) }
        ensures failed { text.new.out.failed ≡ has_failed result }
        ensures after { text.new.out.after ≡ text.old.out.after }
    {
        self.shown.show(self.layout.coloured, row, text)?;
        self.shown = Shown::Neighbour;
        self.left -= 1;
        Ok(())
    }

    /// Takes a row that may stand before one that is selected: it is kept, in the place of the first one where there are enough.
    ///
    /// # Errors
    ///
    /// `Line` if memory was refused: then what is kept is as before.
    fn keep(&mut self, row: &[u8]) -> Result<(), Untold>
        requires { self.old.left ≡ 0 }
        ensures layout { self.new.layout ≡ self.old.layout }
        ensures shows { KeepsRow self.old self.new result (next_row false row.now) }
    {
        if self.layout.before == 0 {
            self.shown = self.shown.parted();
            return Ok(());
        }
        self.spare.clear();
        if self.kept.reserve(1).is_err() || self.spare.extend_from_slice(row).is_err() {
            return Err(Untold::Line);
        }
        let spare = self.make_room();
        let row = mem::replace(&mut self.spare, spare);
        self.kept.push_back_reserved(row);
        Ok(())
    }

    /// Lets the first row that is kept go where one more would be too many, and gives the memory that it leaves.
    fn make_room(&mut self) -> Vec<u8>
        requires before { 0 < self.old.layout.before }
        requires left { self.old.left ≡ 0 }
        requires room { deque_len self.old.kept < deque_capacity self.old.kept }
        ensures layout { self.new.layout ≡ self.old.layout }
        ensures left { self.new.left ≡ 0 }
        ensures spare { self.new.spare ≡ self.old.spare }
        ensures few { length self.new.kept.items < self.new.layout.before }
        ensures room { deque_len self.new.kept < deque_capacity self.new.kept }
        ensures shows { (row : List ℕ) (more : List ToldRow) → will_show self.old (next_row false row ∷ more) ≡ will_show self.new (next_row false row ∷ more) }
    {
        if (self.kept.len() as u64) < self.layout.before {
            return Vec::new(self.alloc);
        }
        let Some(row) = self.kept.pop_front() else {
            return Vec::new(self.alloc);
        };
        self.shown = self.shown.parted();
        row
    }

    /// Takes a row, and shows what is to be shown now that it came.
    ///
    /// # Errors
    ///
    /// `Line` if memory was refused to keep a row that is not selected: then nothing was shown, and what is kept is as before.
    pub(crate) fn take<W: Write>(
        &mut self,
        is_selected: bool,
        row: &[u8],
        text: &mut TextSink<W>,
    ) -> Result<(), Untold>
        requires working { text.old.out.failed ≡ false }
        ensures layout { self.new.layout ≡ self.old.layout }
        ensures shows { ShowsRow self.old self.new text.old text.new result (next_row is_selected row.now) }
        ensures failed { text.new.out.failed ≡ has_failed result }
        ensures after { text.new.out.after ≡ text.old.out.after }
        ensures fault { is_selected ≡ true → OnErr result (has_failed result ≡ true) }
    {
        if is_selected {
            self.select(row, text)
        } else if self.left > 0 {
            self.follow(row, text)
        } else {
            self.keep(row)
        }
    }
}

/// Writes bytes and a line feed.
fn put_line<W: Write>(bytes: &[u8], text: &mut TextSink<W>) -> Result<(), Untold>
    requires working { text.old.out.failed ≡ false }
    ensures written { WritesOn text.old text.new result (bytes.now ++ line_feed) }
    ensures failed { text.new.out.failed ≡ is_err result }
    ensures after { text.new.out.after ≡ text.old.out.after }
{
    text.put(bytes)?;
    text.put(b"\n")
}
