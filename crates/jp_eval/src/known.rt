//! The steps of slots are taken: once from each node that a second way may lead to.

ghost use Rattle.std.specs.Prelude.{◌≡◌, ◌∷◌, [], List, IfOk, false};
ghost use Rattle.jp_model.specs.Meaning.Nodes.{Node, children};
ghost use Rattle.jp_model.specs.Meaning.Selecting.{nodes};
ghost use Rattle.jp_nodes.specs.Cursors.{line_of, node_of};
ghost use Rattle.jp_eval.specs.Frames.{table_at, tree_at, reached, IsFrameFor, IsKept, Lends, Pushes};
ghost use Rattle.jp_eval.specs.Programs.{tail_at};
ghost use Rattle.jp_eval.specs.Tallies.{IsKnown, IsTotal, is_listed};

use crate::Result;
use crate::frame::{Frame, Walk};
use crate::program::Step;
use crate::sums::{Known, LISTED, NONE, Sum};
use jp_nodes::Cursor;

impl<'r, 'a> Walk<'r, 'a> {
    /// Adds nodes that are known: those of the list once more, or it counts them.
    fn add_known(self, known: Known, frame: &mut Frame<'a>) -> Result<()>
        requires kept { IsKept self.run.now frame.old }
        requires some { (selected : List Node) × IsKnown (line_of self.run.now.root.now) frame.old.found.items self.most selected known }
        ensures { (selected : List Node) → IsKnown (line_of self.entry.run.now.root.now) frame.old.found.items self.entry.most selected known → Pushes self.entry frame.old frame.new result selected }
    {
        match known {
            Known::Counted(sum) => frame.count(sum),
            Known::Listed { start, end } => frame.copy(start, end),
        }
    }

    /// Adds what the steps of the slot at a position select from a node. They are taken from it once, or twice where it was met
    /// first without a note.
    #[cycle(eval)]
    #[inline(never)]
    pub(crate) fn push_known(
        self,
        node: &Cursor<'a>,
        position: usize,
        frame: &mut Frame<'a>,
    ) -> Result<()>
        requires { IsFrameFor self node.now frame.old }
        ensures { Pushes self.entry frame.old frame.new result (nodes (tail_at (table_at self.entry) position) (node_of node.now ∷ []) (tree_at self.entry)) }
    {
        if node.first_child().is_none() {
            return self.push_slot(node, position, frame);
        }
        if self.run.takes_no_note(position, *node, frame)? {
            return self.push_slot(node, position, frame);
        }
        if let Some(known) = self.run.known_at(position, *node, self.most, frame) {
            return self.add_known(known, frame);
        }
        self.push_noted(node, position, frame)
    }

    /// Adds what the steps of the slot at a position select from a node.
    #[cycle(eval)]
    #[inline(always)]
    fn push_slot(self, node: &Cursor<'a>, position: usize, frame: &mut Frame<'a>) -> Result<()>
        requires { IsFrameFor self node.now frame.old }
        ensures { Pushes self.entry frame.old frame.new result (nodes (tail_at (table_at self.entry) position) (node_of node.now ∷ []) (tree_at self.entry)) }
    {
        let Some((inner, steps)) = self.run.steps_at(position) else {
            return Ok(());
        };
        // Most nodes have no children, and nothing is selected from them.
        if let Some((Step::Descendant(_), _)) = steps.split_first()
            && node.first_child().is_none()
        {
            return Ok(());
        }
        let (run, most) = (&inner, self.most);
        Walk { run, most }.push_steps(node, steps, frame)
    }

    /// Adds what the steps of the slot at a position select from a node, as `push_slot` does, and notes what they select, so
    /// that it is known where the node is met again.
    #[cycle(eval)]
    #[inline(never)]
    fn push_noted(self, node: &Cursor<'a>, position: usize, frame: &mut Frame<'a>) -> Result<()>
        requires { IsFrameFor self node.now frame.old }
        ensures { Pushes self.entry frame.old frame.new result (nodes (tail_at (table_at self.entry) position) (node_of node.now ∷ []) (tree_at self.entry)) }
    {
        let (start, outer) = (frame.found.len(), std::mem::replace(&mut frame.sum, NONE));
        self.push_parts(node, position, frame)?;
        let own = std::mem::replace(&mut frame.sum, outer);
        if self.most == LISTED {
            let end = frame.found.len();
            let known = Known::Listed { start, end };
            return self.run.note(position, *node, self.most, known, frame);
        }
        self.run
            .note(position, *node, self.most, Known::Counted(own), frame)?;
        frame.count(own)
    }

    /// Adds what the steps of the slot at a position select from a node. Where they go to all below it, what they select from
    /// its children is known or becomes so.
    #[cycle(eval)]
    #[inline(always)]
    fn push_parts(self, node: &Cursor<'a>, position: usize, frame: &mut Frame<'a>) -> Result<()>
        requires { IsFrameFor self node.now frame.old }
        ensures { Pushes self.entry frame.old frame.new result (nodes (tail_at (table_at self.entry) position) (node_of node.now ∷ []) (tree_at self.entry)) }
    {
        let Some((inner, steps)) = self.run.steps_at(position) else {
            return Ok(());
        };
        let (run, most) = (&inner, self.most);
        let walk = Walk { run, most };
        if let Some((Step::Descendant(choices), rest)) = steps.split_first() {
            walk.push_choices(node, choices, rest, frame)?;
            return self.push_below(node, position, frame);
        }
        walk.push_steps(node, steps, frame)
    }

    /// Adds what the steps of the slot at a position select from each child of a node.
    #[cycle(eval)]
    fn push_below(self, node: &Cursor<'a>, position: usize, frame: &mut Frame<'a>) -> Result<()>
        requires { IsFrameFor self node.now frame.old }
        ensures { Pushes self.entry frame.old frame.new result (nodes (tail_at (table_at self.entry) position) (children (node_of node.now)) (tree_at self.entry)) }
    {
        let mut next = node.first_child();
        while let Some(child) = next {
            if frame.has(self.most) {
                return Ok(());
            }
            self.push_known(&child, position, frame)?;
            next = child.next_sibling();
        }
        Ok(())
    }

    /// How many nodes the steps select from a node, exact where they are fewer than `most`. No list is made of them.
    #[cycle(eval)]
    #[inline(never)]
    pub(crate) fn sum(
        self,
        node: &Cursor<'a>,
        steps: &[Step],
        most: u64,
        frame: &mut Frame<'a>,
    ) -> Result<Sum>
        requires frame { IsFrameFor self node.now frame.old }
        requires most { is_listed most ≡ false }
        ensures lends { Lends self.entry frame.old frame.new result }
        ensures value { IfOk result (λ sum. IsTotal (line_of self.entry.run.now.root.now) most sum (reached self.entry.run.now steps.now (node_of node.now ∷ []))) }
    {
        let outer = std::mem::replace(&mut frame.sum, NONE);
        let run = self.run;
        Walk { run, most }.push_steps(node, steps, frame)?;
        Ok(std::mem::replace(&mut frame.sum, outer))
    }
}
