//! What an evaluation carries with it.

ghost use Rattle.std.specs.Prelude.{◌≡◌};
ghost use Rattle.jp_nodes.specs.Cursors.{place_of};

use crate::Result;
use crate::answers::forget_placed;
use crate::program::Slot;
use crate::sums::{LISTED, NONE, Sum, Sums};
use jp_iregexp::Pattern;
use jp_nodes::Cursor;
use jp_values::Value;
use std::alloc::{AllocError, Global};

/// What stays the same: where memory comes from, what is asked once, and the root of the line, which is `$` in each expression.
#[derive(Clone, Copy)]
pub(crate) struct Run<'p, 'a> {
    pub(crate) alloc: Global,
    pub(crate) slots: &'p [Slot],
    /// How many of them, from the first on, the part that is being answered refers to.
    pub(crate) known: usize,
    pub(crate) root: &'p Cursor<'a>,
    ghost at_root: { place_of root.now ≡ 0 },
}

/// A walk over nodes of the line, which ends where `most` nodes are found, as no more matter then.
#[derive(Clone, Copy)]
pub(crate) struct Walk<'r, 'a> {
    pub(crate) run: &'r Run<'r, 'a>,
    /// How many nodes decide. Where each matters this is `COUNTED` or `LISTED`.
    pub(crate) most: u64,
}

/// The answer to what a slot asks.
#[derive(Drop)]
pub(crate) enum Answer<'a> {
    /// Whether it holds.
    Holds(bool),
    /// The value. A number was read, so that it is read once and not at each comparison.
    Value(Value<'a>),
    /// The pattern that the value spells, where it spells one.
    Pattern(Box<Option<Pattern>>),
    /// What the steps select from nodes.
    Sums(Sums),
}

/// The nodes that were found, and what was answered of what is asked once, by the positions of the slots. It lends its room
/// from line to line.
#[derive(Drop)]
pub struct Frame<'a> {
    pub(crate) found: Vec<Cursor<'a>>,
    /// The nodes that were counted, where they are not listed.
    pub(crate) sum: Sum,
    pub(crate) answers: Vec<Option<Answer<'a>>>,
    /// Where the last node ends that the steps of a slot were taken from without a note, as a place, by the slot's position.
    pub(crate) walked: Vec<u32>,
}

impl<'a> Frame<'a> {
    ghost use Rattle.std.specs.Prelude.{◌≤◌, ◌++◌, ◌∷◌, [], ℕ, List, OnOk, Some, true, false, length, slice_get, take};
    ghost use Rattle.jp_eval.specs.Answers.{is_placed};
    ghost use Rattle.jp_eval.specs.declared.frame.Answer.{Answer};
    ghost use Rattle.jp_model.specs.Meaning.Nodes.{Node};
    ghost use Rattle.jp_nodes.specs.Cursors.{line_of, node_of};
    ghost use Rattle.jp_eval.specs.Found.{Adds, between, found_in};
    ghost use Rattle.jp_eval.specs.Remembers.{RemembersNothing};
    ghost use Rattle.jp_eval.specs.declared.program.Slot.{Slot};
    ghost use Rattle.jp_nodes.specs.declared.cursor.Cursor.{Cursor};
    ghost use Rattle.jp_eval.specs.Tallies.{IsTotal, is_listed, none_in, tally, total_of};

    /// With no node, and no room yet.
    pub fn new(alloc: Global) -> Frame<'a>
        ensures found { found_in result ≡ [] }
        ensures answers { result.answers.items ≡ [] }
        ensures remembers { RemembersNothing result }
    {
        Frame {
            found: Vec::new(alloc),
            sum: NONE,
            answers: Vec::new(alloc),
            walked: Vec::new(alloc),
        }
    }

    /// The nodes that were found, in their order.
    pub fn found(&self) -> &[Cursor<'a>]
        ensures { result.now ≡ found_in self.now }
    {
        &self.found
    }

    /// Forgets what was found and answered in the line before, and keeps the room. It remembers nothing then, which is right
    /// for whatever is asked next.
    #[inline(always)]
    pub fn forget(&mut self)
        ensures found { found_in self.new ≡ [] }
        ensures sum { (line : List ℕ) → total_of line self.new.sum ≡ none_in line }
        ensures answers { self.new.answers.items ≡ [] }
        ensures remembers { RemembersNothing self.new }
    {
        self.found.clear();
        self.sum = NONE;
        self.answers.clear();
        self.walked.clear();
    }

    /// Forgets what was found in the line so far, and keeps what was answered, but for where nodes stood in the list.
    #[inline(always)]
    pub(crate) fn forget_found(&mut self)
        ensures found { found_in self.new ≡ [] }
        ensures sum { (line : List ℕ) → total_of line self.new.sum ≡ none_in line }
        ensures answers { (position : ℕ) (answer : Answer) → slice_get self.new.answers.items position ≡ Some (Some answer) → (slice_get self.old.answers.items position ≡ Some (Some answer)) × (is_placed (Some answer) ≡ false) }
    {
        self.found.clear();
        self.sum = NONE;
        self.walked.clear();
        for position in 0..self.answers.len() {
            forget_placed(&mut self.answers[position]);
        }
    }

    /// Whether no more nodes are looked for.
    #[inline(always)]
    pub(crate) fn has(&self, most: u64) -> bool
        ensures { result ≡ true → (line : List ℕ) (others : List Node) → tally line most self.now others ≡ tally line most self.now [] }
    {
        self.sum.count >= most && most != LISTED
    }

    /// Adds a node to the list, or counts it.
    #[inline(always)]
    pub(crate) fn add(&mut self, node: Cursor<'a>, most: u64) -> Result<()>
        ensures adds { Adds (line_of node.entry) self.old.found.items self.new.found.items }
        ensures answers { self.new.answers ≡ self.old.answers }
        ensures told { OnOk result (tally (line_of node.entry) most self.new [] ≡ tally (line_of node.entry) most self.old (node_of node.entry ∷ [])) }
    {
        if most == LISTED {
            self.found.push(node)?;
            return Ok(());
        }
        let last = node.place();
        self.count(Sum { count: 1, last })
    }

    /// Counts the nodes of a sum. More than a count holds are refused as memory is.
    #[inline(always)]
    pub(crate) fn count(&mut self, sum: Sum) -> Result<()>
        ensures found { self.new.found ≡ self.old.found }
        ensures answers { self.new.answers ≡ self.old.answers }
        ensures told { OnOk result ((line : List ℕ) (most : ℕ) (selected : List Node) → is_listed most ≡ false → IsTotal line most sum selected → tally line most self.new [] ≡ tally line most self.old selected) }
    {
        if sum.count > 0 {
            let count = self.sum.count.checked_add(sum.count).ok_or(AllocError)?;
            let last = sum.last;
            self.sum = Sum { count, last };
        }
        Ok(())
    }

    /// Adds the nodes once more that stand in the list from one position to another.
    pub(crate) fn copy(&mut self, start: usize, end: usize) -> Result<()>
        requires { end ≤ length self.old.found.items }
        ensures sum { self.new.sum ≡ self.old.sum }
        ensures answers { self.new.answers ≡ self.old.answers }
        ensures some { (n : ℕ) × (self.new.found.items ≡ self.old.found.items ++ take n (between start end self.old.found.items)) }
        ensures ok { OnOk result (self.new.found.items ≡ self.old.found.items ++ between start end self.old.found.items) }
    {
        for position in start..end {
            let node = self.found[position];
            self.found.push(node)?;
        }
        Ok(())
    }
}
