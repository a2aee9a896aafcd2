//! What steps select from nodes that a second way may lead to. It is remembered for the line, so that they are not taken again.

ghost use Rattle.std.specs.Prelude.{◌≡◌, ◌∷◌, ◌⊎◌, [], ℕ, IfSome, None, Some};
ghost use Rattle.std.specs.BTreeMap.{get};
ghost use Rattle.std.specs.Ordering.{nat_cmp};
ghost use Rattle.jp_model.specs.Meaning.Selecting.{nodes};
ghost use Rattle.jp_nodes.specs.Cursors.{line_of, node_of};
ghost use Rattle.jp_eval.specs.Answers.{AreSums, table_in, tree_in};
ghost use Rattle.jp_eval.specs.Frames.{IsKept};
ghost use Rattle.jp_eval.specs.Programs.{tail_at};
ghost use Rattle.jp_eval.specs.Tallies.{IsKnown};
ghost use Rattle.jp_eval.specs.declared.sums.Known.{Known};

use crate::Result;
use crate::frame::{Answer, Frame, Run};
use jp_nodes::Cursor;
use std::alloc::{AllocError, Global};
use std::collections::BTreeMap;

/// The number of nodes that decide where each is listed, and none is counted.
pub(crate) const LISTED: u64 = u64::MAX;

/// The number of nodes that decide where each is counted.
pub(crate) const COUNTED: u64 = u64::MAX - 1;

/// How many nodes there are.
#[derive(Clone, Copy)]
pub(crate) struct Sum {
    pub(crate) count: u64,
    /// The place of the last of them.
    pub(crate) last: u32,
}

/// No node.
pub(crate) const NONE: Sum = Sum { count: 0, last: 0 };

/// The nodes that steps select from a node.
#[derive(Clone, Copy)]
pub(crate) enum Known {
    /// How many they are, or at least as many as decide.
    Counted(Sum),
    /// Those that stand in the list of nodes from one position to another.
    Listed { start: usize, end: usize },
}

/// What the steps of a slot select from nodes.
#[derive(Drop)]
pub(crate) struct Sums {
    /// How many nodes decide.
    pub(crate) most: u64,
    /// What they select, by the place of the node that they are taken from.
    pub(crate) known: BTreeMap<u32, Known>,
}

impl Sums {
    /// No node is known yet.
    fn new(alloc: Global, most: u64) -> Sums
        ensures most { result.most ≡ most }
        ensures none { (place : ℕ) → get nat_cmp result.known place ≡ None }
    {
        Sums {
            most,
            known: BTreeMap::new(alloc),
        }
    }

    /// What is known of the node at a place, where `most` nodes decide.
    fn at(&self, most: u64, place: u32) -> Option<Known>
        ensures { IfSome result (λ known. (self.now.most ≡ most) × (get nat_cmp self.now.known place ≡ Some known)) }
    {
        if self.most != most {
            return None;
        }
        self.known.get(&place).copied()
    }

    /// Notes what is known of the node at a place. If memory is refused, the answer is `AllocError`, and it is not noted.
    fn note(&mut self, place: u32, known: Known) -> Result<()>
        ensures most { self.new.most ≡ self.old.most }
        ensures known { (other : ℕ) (it : Known) → get nat_cmp self.new.known other ≡ Some it → (get nat_cmp self.old.known other ≡ Some it) ⊎ ((other ≡ place) × (it ≡ known)) }
    {
        match self.known.insert(place, known) {
            Ok(_) => Ok(()),
            Err(_) => Err(AllocError),
        }
    }
}

/// A node and its children, where no child has children, are walked at once if they are no more nodes than this number.
const FEW: u32 = 16;

/// Whether steps are taken from a node as soon as it is looked up: it has few children, and these have none.
fn is_soon_walked(node: Cursor<'_>) -> bool {
    if node.after() - node.place() > FEW {
        return false;
    }
    let mut next = node.first_child();
    while let Some(child) = next {
        if child.first_child().is_some() {
            return false;
        }
        next = child.next_sibling();
    }
    true
}

impl<'p, 'a> Run<'p, 'a> {
    /// Takes out what is known of the steps of the slot at a position, where `most` nodes decide.
    fn take_sums(self, position: usize, most: u64, frame: &mut Frame<'a>) -> Sums
        requires { IsKept self frame.old }
        ensures most { result.most ≡ most }
        ensures sums { AreSums self.entry frame.old.found.items (tail_at (table_in self.entry) position) result }
        ensures kept { IsKept self.entry frame.new }
        ensures found { frame.new.found ≡ frame.old.found }
        ensures sum { frame.new.sum ≡ frame.old.sum }
    {
        if position >= self.known || position >= frame.answers.len() {
            return Sums::new(self.alloc, most);
        }
        match frame.answers[position].take() {
            Some(Answer::Sums(sums)) => {
                if sums.most == most {
                    sums
                } else {
                    Sums::new(self.alloc, most)
                }
            }
            _ => Sums::new(self.alloc, most),
        }
    }

    /// Whether the steps of the slot at a position are taken from a node without a note: it is below none that they were taken
    /// from so, as most nodes are met once, or is soon walked again.
    pub(crate) fn takes_no_note(
        self,
        position: usize,
        node: Cursor<'a>,
        frame: &mut Frame<'a>,
    ) -> Result<bool>
        requires { IsKept self frame.old }
        ensures kept { IsKept self.entry frame.new }
        ensures found { frame.new.found ≡ frame.old.found }
        ensures sum { frame.new.sum ≡ frame.old.sum }
    {
        if position >= frame.walked.len() {
            frame.walked.resize(self.known, 0)?;
        }
        if position >= frame.walked.len() {
            return Ok(true);
        }
        if node.place() >= frame.walked[position] {
            frame.walked[position] = node.after();
            return Ok(true);
        }
        Ok(is_soon_walked(node))
    }

    /// What the steps of the slot at a position select from a node, where it is known.
    pub(crate) fn known_at(
        self,
        position: usize,
        node: Cursor<'a>,
        most: u64,
        frame: &Frame<'a>,
    ) -> Option<Known>
        requires kept { IsKept self frame.now }
        requires line { line_of node ≡ line_of self.root.now }
        ensures { IfSome result (λ known. IsKnown (line_of self.entry.root.now) frame.now.found.items most (nodes (tail_at (table_in self.entry) position) (node_of node.entry ∷ []) (tree_in self.entry)) known) }
    {
        match self.kept_at(position, frame) {
            Some(Answer::Sums(sums)) => sums.at(most, node.place()),
            _ => None,
        }
    }

    /// Notes what the steps of the slot at a position select from a node. If memory is refused, the answer is `AllocError`.
    pub(crate) fn note(
        self,
        position: usize,
        node: Cursor<'a>,
        most: u64,
        known: Known,
        frame: &mut Frame<'a>,
    ) -> Result<()>
        requires kept { IsKept self frame.old }
        requires line { line_of node ≡ line_of self.root.now }
        requires is { IsKnown (line_of self.root.now) frame.old.found.items most (nodes (tail_at (table_in self) position) (node_of node ∷ []) (tree_in self)) known }
        ensures kept { IsKept self.entry frame.new }
        ensures found { frame.new.found ≡ frame.old.found }
        ensures sum { frame.new.sum ≡ frame.old.sum }
    {
        self.prepare(frame)?;
        let mut sums = self.take_sums(position, most, frame);
        let noted = sums.note(node.place(), known);
        self.keep_at(position, Answer::Sums(sums), frame);
        noted
    }
}
