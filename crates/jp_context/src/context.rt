//! A sink that shows of the rows that it is told those that are selected and those near them.

ghost use Rattle.std.specs.Prelude.{◌≡◌, [], List, false, true};
ghost use Rattle.jp_devices.specs.Devices.{Begins};
ghost use Rattle.jp_context.specs.Standing.{Stands, text_of_told};
ghost use Rattle.jp_sink.specs.Events.{Event};
ghost use Rattle.jp_sink.specs.Texts.{is_unflushed, written};

use crate::state::{Groups, Layout};
use jp_devices::Watched;
use jp_nodes::Cursor;
use jp_sink::{Sink, TextSink, Untold};
use std::alloc::Global;
use std::io::Write;

/// Shows of the rows that it is told those that are selected and, of their stream, as many as are wanted before and after each of
/// them. Groups of rows that do not touch are parted by two hyphens, which have a colour where they are to. A node is a row that is
/// selected.
///
/// It keeps as many rows as are wanted before one that is selected, and wants memory for nothing else.
#[derive(Drop)]
pub struct Context<W> {
    groups: Groups,
    text: TextSink<W>,
}

impl<W> Context<W> {
    /// To a writer that was not called yet. It is to show `before` rows before each selected row, and `after` rows after it, with
    /// groups of rows parted in grep's colour where it is `coloured`.
    pub fn new(alloc: Global, before: u64, after: u64, coloured: bool, out: W) -> Context<W>
        ensures layout { result.groups.layout ≡ record { before = before; after = after; coloured = coloured } }
        ensures stands { Stands result [] }
        ensures written { written result.text ≡ [] }
        ensures device { result.text.out.device ≡ out }
        ensures failed { result.text.out.failed ≡ false }
    {
        let layout = Layout {
            before,
            after,
            coloured,
        };
        Context {
            groups: Groups::new(alloc, layout),
            text: TextSink::new(alloc, out),
        }
    }
}

impl<W: Write> Context<W> {
    /// Writes what is held, and flushes the writer, which is given back. A writer that failed a call is called no more.
    ///
    /// Unless a call of it failed, it took what is to be shown of all that was told. Else it took a beginning of that.
    pub fn finish(self) -> Watched<W>
        ensures all { (told : List Event) → Stands self told → result.failed ≡ false → result.taken ≡ text_of_told self told }
        ensures begins { (told : List Event) → Stands self told → Begins result.taken (text_of_told self told) }
        ensures left { self.text.out.failed ≡ true → result ≡ self.text.out }
        ensures flushed { result.failed ≡ false → result.unflushed ≡ false }
        ensures after { result.after ≡ self.text.out.after }
    {
        self.text.finish()
    }
}

impl<W: Write> Sink for Context<W> {
    ghost use Rattle.jp_context.specs.Standing.{settings_of};

    ghost stands = { λ context told. Stands context told };

    ghost stopped = { λ context told. Begins context.text.out.taken (text_of_told context told) };

    ghost state = { λ context. record { failed = context.text.out.failed; unflushed = is_unflushed context.text; after = context.text.out.after; settings = settings_of context.groups.layout } };

    fn gap(&mut self) {
        self.groups.part();
    }

    fn row(&mut self, is_selected: bool, text: &[u8]) -> Result<(), Untold> {
        self.groups.take(is_selected, text, &mut self.text)
    }

    fn node(&mut self, _number: u64, node: Cursor<'_>) -> Result<(), Untold> {
        self.groups.take_node(node, &mut self.text)
    }

    fn flush(&mut self) -> Result<(), Untold> {
        self.text.flush()
    }

    fn is_unflushed(&self) -> bool {
        self.text.is_unflushed()
    }

    fn has_failed(&self) -> bool {
        self.text.has_failed()
    }
}
