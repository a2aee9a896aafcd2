//! What slices select, and the steps from there (RFC 9535, section 2.3.4).

ghost use Rattle.std.specs.Prelude.{map};
ghost use Rattle.jp_model.specs.Meaning.Nodes.{children_where};
ghost use Rattle.jp_model.specs.Meaning.Slices.{is_index, sliced};
ghost use Rattle.jp_nodes.specs.Cursors.{line_of, node_of};
ghost use Rattle.jp_children.specs.Found.{AreOf};
ghost use Rattle.jp_eval.specs.Frames.{reached, IsFrameFor, IsKept, Pushes};
ghost use Rattle.jp_children.specs.Walks.{rises};

use crate::Result;
use crate::frame::{Frame, Walk};
use crate::program::Step;
use jp_children::{Rising, Slice, find_falling};
use jp_nodes::Cursor;

impl<'r, 'a> Walk<'r, 'a> {
    /// Adds what the steps select from each element of a slice, in the order in which it selects them.
    #[cycle(eval)]
    #[inline(never)]
    pub(crate) fn push_slice(
        self,
        node: &Cursor<'a>,
        slice: Slice,
        rest: &[Step],
        frame: &mut Frame<'a>,
    ) -> Result<()>
        requires { IsFrameFor self node.now frame.old }
        ensures { Pushes self.entry frame.old frame.new result (reached self.entry.run.now rest.now (sliced slice.first slice.last slice.step (node_of node.now))) }
    {
        if slice.step > 0 {
            return self.push_rising(node, Rising::of(*node, slice), rest, frame);
        }
        let found = find_falling(self.run.alloc, *node, slice)?;
        self.push_each(&found, rest, frame)
    }

    /// Adds what the steps select from each element of a slice with a step above 0. It goes no further than the last.
    #[cycle(eval)]
    fn push_rising(
        self,
        node: &Cursor<'a>,
        slice: Rising,
        rest: &[Step],
        frame: &mut Frame<'a>,
    ) -> Result<()>
        requires { IsFrameFor self node.now frame.old }
        ensures { Pushes self.entry frame.old frame.new result (reached self.entry.run.now rest.now (children_where (is_index (rises slice.low slice.high slice.step)) (node_of node.now))) }
    {
        let mut next = node.first_child();
        let mut index = 0;
        while let Some(child) = next {
            if frame.has(self.most) || slice.ends_before(index) {
                return Ok(());
            }
            if slice.has(child, index) {
                self.push_steps(&child, rest, frame)?;
            }
            index += 1;
            next = child.next_sibling();
        }
        Ok(())
    }

    /// Adds what the steps select from each of some nodes.
    #[cycle(eval)]
    fn push_each(self, nodes: &[Cursor<'a>], rest: &[Step], frame: &mut Frame<'a>) -> Result<()>
        requires lines { AreOf (line_of self.run.now.root.now) nodes.now }
        requires kept { IsKept self.run.now frame.old }
        ensures { Pushes self.entry frame.old frame.new result (reached self.entry.run.now rest.now (map node_of nodes.now)) }
    {
        for node in nodes {
            self.push_steps(node, rest, frame)?;
        }
        Ok(())
    }
}
