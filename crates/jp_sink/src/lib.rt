//! Sinks: they take the rows that a search tells, or the nodes that it selects.
//!
//! Public items:
//!
//! - `Sink`: what is told
//! - `Untold`: why it did not take what it was told
//! - `TextSink`: writes the text of what it is told to a writer
//! - `HeldText`: holds it in memory
#![tactic(auto)]

ghost use Rattle.std.specs.Prelude.{◌≡◌, ◌∷◌, [], List, OnErr, OnOk, false, true};
ghost use Rattle.jp_nodes.specs.Cursors.{line_of, node_of};
ghost use Rattle.jp_sink.specs.Events.{Event, gap_event, node_event, row_event};
ghost use Rattle.jp_sink.specs.Telling.{KeepsState, SinkState, Takes, Tells, has_failed};

mod held;
mod text;

pub use held::HeldText;
use jp_nodes::Cursor;
pub use text::TextSink;

/// Why a sink did not take what it was told.
#[derive(Clone, Copy, Debug, PartialEq, Eq)]
pub enum Untold {
    /// There was no memory for it. The sink is as it was, so the line can be given up and the next one told.
    Line,
    /// The sink failed, as its writer did or as memory ran out halfway. It is told no more.
    Sink,
}

/// A sink takes the gaps, rows and nodes that a search tells, in order.
pub trait Sink {
    /// The sink stands for the events that it was told: what it makes of them is in what it holds.
    ghost stands: { Self → List Event → Type 0 };

    /// It failed: what it made is the beginning of what it would have made of this.
    ghost stopped: { Self → List Event → Type 0 };

    /// The state that callers know of: whether it failed, whether it holds something that is not handed on, and its settings.
    ghost state: { Self → SinkState };

    /// Is told that what comes next does not follow what came: a stream begins, or a line was given up.
    fn gap(&mut self)
        requires working { (state self.old).failed ≡ false }
        ensures told { Takes stands self.old self.new (gap_event ∷ []) }
        ensures state { state self.new ≡ state self.old };

    /// Takes the text of a row, or of a part of what stands above or below rows, and whether its line is selected. Only one that is
    /// not selected is refused for want of memory alone.
    fn row(&mut self, is_selected: bool, text: &[u8]) -> Result<(), Untold>
        requires working { (state self.old).failed ≡ false }
        ensures told { Tells stands stopped self.old self.new result (row_event is_selected text.now ∷ []) }
        ensures state { KeepsState result (state self.old) (state self.new) }
        ensures fault { is_selected ≡ true → OnErr result (has_failed result ≡ true) };

    /// Takes a node that is selected, of the line of this number, from 1.
    fn node(&mut self, number: u64, node: Cursor<'_>) -> Result<(), Untold>
        requires working { (state self.old).failed ≡ false }
        ensures told { Tells stands stopped self.old self.new result (node_event number (line_of node.entry) (node_of node.entry) ∷ []) }
        ensures state { KeepsState result (state self.old) (state self.new) }
        ensures fault { OnErr result (has_failed result ≡ true) };

    /// Hands on what it holds, so that whoever waits for it has it.
    fn flush(&mut self) -> Result<(), Untold>
        requires working { (state self.old).failed ≡ false }
        ensures told { Tells stands stopped self.old self.new result [] }
        ensures state { KeepsState result (state self.old) (state self.new) }
        ensures flushed { OnOk result ((state self.new).unflushed ≡ false) }
        ensures fault { OnErr result (has_failed result ≡ true) };

    /// Whether it took something that is not handed on.
    fn is_unflushed(&self) -> bool
        ensures { result ≡ (state self.now).unflushed };

    /// Whether it failed. It is told no more then.
    fn has_failed(&self) -> bool
        ensures { result ≡ (state self.now).failed };
}
