//! What the conditions and the queries of a question have answered in a line, so that what asks its root alone is asked once.

ghost use Rattle.std.specs.Prelude.{◌≡◌, ℕ, IfSome, List, OnOk, map, take};
ghost use Rattle.jp_children.specs.Found.{AreOf, node_list};
ghost use Rattle.jp_eval.specs.Found.{found_in};
ghost use Rattle.jp_nodes.specs.Cursors.{line_of, node_of};
ghost use Rattle.jp_grep.specs.LineAnswers.{HasBegun, KnowsNothing, Knows};

use crate::first_names::Members;
use crate::question::Question;
use jp_eval::Frame;
use jp_nodes::Cursor;
use std::alloc::{AllocError, Global};

/// The answers of a condition or a query in the line at hand.
#[derive(Drop)]
pub(crate) struct LineAnswer<'r> {
    /// The nodes that were found last, and what was asked of the root. It lends its room to the next line.
    pub(crate) frame: Frame<'r>,
    /// Whether it holds, or selects a node, where that is so of each node of the line.
    pub(crate) known: Option<bool>,
    /// Whether the nodes in the frame are those that the query selects from each node of the line.
    pub(crate) is_found: bool,
}

impl<'r> LineAnswer<'r> {
    /// With nothing answered.
    fn new(alloc: Global) -> LineAnswer<'r>
        ensures { KnowsNothing result }
    {
        LineAnswer {
            frame: Frame::new(alloc),
            known: None,
            is_found: false,
        }
    }

    /// The first of the nodes that were found last.
    pub(crate) fn first_found(&self) -> Option<Cursor<'r>>
        ensures nodes { node_list result ≡ take 1 (map node_of (found_in self.now.frame)) }
        ensures line { (line : List ℕ) → AreOf line (found_in self.now.frame) → IfSome result (λ c. line_of c ≡ line) }
    {
        self.frame.found().first().copied()
    }

    /// Forgets what was answered in the line before.
    fn forget(&mut self)
        ensures { KnowsNothing self.new }
    {
        self.frame.forget();
        self.known = None;
        self.is_found = false;
    }
}

/// The answers in the line at hand: of each condition, and of each query.
#[derive(Drop)]
pub(crate) struct LineAnswers<'r> {
    pub(crate) conditions: Vec<LineAnswer<'r>>,
    pub(crate) queries: Vec<LineAnswer<'r>>,
    /// The members that the queries begin with.
    pub(crate) members: Members<'r>,
}

/// Forgets what was answered in the line before, and makes room for as many answers as are wanted.
fn begin<'r>(
    alloc: Global,
    count: usize,
    answers: &mut Vec<LineAnswer<'r>>,
) -> Result<(), AllocError>
    ensures { OnOk result (HasBegun count answers.new.items) }
{
    for index in 0..answers.len() {
        answers[index].forget();
    }
    for _index in answers.len()..count {
        answers.push(LineAnswer::new(alloc))?;
    }
    Ok(())
}

impl<'r> LineAnswers<'r> {
    /// With nothing answered, and no room yet.
    pub(crate) fn new(alloc: Global) -> LineAnswers<'r> {
        LineAnswers {
            conditions: Vec::new(alloc),
            queries: Vec::new(alloc),
            members: Members::new(alloc),
        }
    }

    /// Begins a line: nothing is answered in it yet.
    ///
    /// If memory is refused, the answer is `AllocError`.
    pub(crate) fn begin(&mut self, alloc: Global, question: &Question) -> Result<(), AllocError>
        ensures { (line : List ℕ) → OnOk result (Knows question.now line self.new) }
    {
        self.members.is_root_found = false;
        begin(alloc, question.conditions.len(), &mut self.conditions)?;
        begin(alloc, question.queries.len(), &mut self.queries)
    }
}
