//! What the steps of a query select (RFC 9535, sections 2.1 to 2.5).
//!
//! The nodes are found node by node: for each child that the first step selects, the other steps go on from there. So no
//! list is made in between, and a search for one node stops at the first.
//!
//! Filters lie within filters, so a walk may be as deep as the query and the line are together. A node is therefore given by
//! reference: a copy of the cursor in each frame would take most of the stack. What takes much room and is rarely met, and the
//! calls that must not share a frame, say `#[inline(never)]`.

ghost use Rattle.std.specs.Prelude.{◌≡◌, [], ◌∷◌, IfSome, filter, flat_map};
ghost use Rattle.jp_model.specs.Meaning.Nodes.{children, subtree};
ghost use Rattle.jp_model.specs.Meaning.Selecting.{selected, select, truth as truth_of};
ghost use Rattle.jp_nodes.specs.Cursors.{line_of, node_of};
ghost use Rattle.jp_children.specs.Found.{node_list};
ghost use Rattle.jp_eval.specs.Frames.{table_at, tree_at, reached, IsFrameFor, IsKept, Pushes};
ghost use Rattle.jp_eval.specs.Indexing.{AreKnown};
ghost use Rattle.jp_eval.specs.Programs.{choices_view, choice_view, condition_view};

use crate::Result;
use crate::frame::{Frame, Walk};
use crate::indexing::Elements;
use crate::program::{Choice, Condition, Step};
use jp_children::Slice;
use jp_nodes::Cursor;

impl<'r, 'a> Walk<'r, 'a> {
    /// Adds what the steps select from a node, as long as fewer nodes than `most` were found. Where none is left, that is the
    /// node.
    #[cycle(eval)]
    #[inline(always)]
    pub(crate) fn push_steps(
        self,
        node: &Cursor<'a>,
        steps: &[Step],
        frame: &mut Frame<'a>,
    ) -> Result<()>
        requires { IsFrameFor self node.now frame.old }
        ensures { Pushes self.entry frame.old frame.new result (reached self.entry.run.now steps.now (node_of node.now ∷ [])) }
    {
        if let Some((step, rest)) = steps.split_first() {
            return self.push_step(node, step, rest, frame);
        }
        frame.add(*node, self.most)
    }

    /// Adds what the step selects from a node, and the steps from there. Most queries end with a name or an index.
    #[cycle(eval)]
    #[inline(never)]
    fn push_step(
        self,
        node: &Cursor<'a>,
        step: &Step,
        rest: &[Step],
        frame: &mut Frame<'a>,
    ) -> Result<()>
        requires { IsFrameFor self node.now frame.old }
        ensures { Pushes self.entry frame.old frame.new result (reached self.entry.run.now (step.now ∷ rest.now) (node_of node.now ∷ [])) }
    {
        match step {
            Step::One(key) => self.push_found(key.find(*node), rest, frame),
            Step::Child(choices) => self.push_choices(node, choices, rest, frame),
            Step::Descendant(choices) => self.push_subtree(node, choices, rest, frame),
            Step::Known(position) => self.push_known(node, *position, frame),
        }
    }

    /// Adds what the choices select from the node and from each below it, and the steps from there.
    #[cycle(eval)]
    #[inline(never)]
    fn push_subtree(
        self,
        node: &Cursor<'a>,
        choices: &[Choice],
        rest: &[Step],
        frame: &mut Frame<'a>,
    ) -> Result<()>
        requires { IsFrameFor self node.now frame.old }
        ensures { Pushes self.entry frame.old frame.new result (reached self.entry.run.now rest.now (flat_map (λ d. selected (choices_view (table_at self.entry) choices.now) d (tree_at self.entry)) (subtree (node_of node.now)))) }
    {
        for place in node.place()..node.after() {
            if frame.has(self.most) {
                return Ok(());
            }
            self.push_choices(&node.go_to(place), choices, rest, frame)?;
        }
        Ok(())
    }

    /// Adds what the choices select from a node, in their order, and the steps from there.
    #[cycle(eval)]
    #[inline(always)]
    pub(crate) fn push_choices(
        self,
        node: &Cursor<'a>,
        choices: &[Choice],
        rest: &[Step],
        frame: &mut Frame<'a>,
    ) -> Result<()>
        requires { IsFrameFor self node.now frame.old }
        ensures { Pushes self.entry frame.old frame.new result (reached self.entry.run.now rest.now (selected (choices_view (table_at self.entry) choices.now) (node_of node.now) (tree_at self.entry))) }
    {
        // Most nodes below a node have no children, and nothing is selected from them.
        if node.first_child().is_none() {
            return Ok(());
        }
        match choices {
            [choice] => self.push_choice(node, choice, rest, frame),
            _ => self.push_several(node, choices, rest, frame),
        }
    }

    /// Adds what several choices select from a node, in their order, and the steps from there.
    #[cycle(eval)]
    #[inline(never)]
    fn push_several(
        self,
        node: &Cursor<'a>,
        choices: &[Choice],
        rest: &[Step],
        frame: &mut Frame<'a>,
    ) -> Result<()>
        requires { IsFrameFor self node.now frame.old }
        ensures { Pushes self.entry frame.old frame.new result (reached self.entry.run.now rest.now (selected (choices_view (table_at self.entry) choices.now) (node_of node.now) (tree_at self.entry))) }
    {
        let mut elements = Elements::of(*node);
        for choice in choices {
            self.push_one_of(&mut elements, choice, rest, frame)?;
        }
        Ok(())
    }

    /// Adds what one of several choices selects from a node, whose elements are known so far, and the steps from there.
    #[cycle(eval)]
    #[inline(always)]
    fn push_one_of(
        self,
        elements: &mut Elements<'a>,
        choice: &Choice,
        rest: &[Step],
        frame: &mut Frame<'a>,
    ) -> Result<()>
        requires frame { IsFrameFor self elements.old.node frame.old }
        requires known { AreKnown elements.old }
        ensures pushes { Pushes self.entry frame.old frame.new result (reached self.entry.run.now rest.now (select (choice_view (table_at self.entry) choice.now) (node_of elements.old.node) (tree_at self.entry))) }
        ensures node { elements.new.node ≡ elements.old.node }
        ensures known { AreKnown elements.new }
    {
        match choice {
            Choice::One(key) => self.push_found(elements.find_by(key), rest, frame),
            _ => self.push_choice(&elements.node, choice, rest, frame),
        }
    }

    /// Adds what the choice selects from a node, and the steps from there.
    #[cycle(eval)]
    #[inline(never)]
    fn push_choice(
        self,
        node: &Cursor<'a>,
        choice: &Choice,
        rest: &[Step],
        frame: &mut Frame<'a>,
    ) -> Result<()>
        requires { IsFrameFor self node.now frame.old }
        ensures { Pushes self.entry frame.old frame.new result (reached self.entry.run.now rest.now (select (choice_view (table_at self.entry) choice.now) (node_of node.now) (tree_at self.entry))) }
    {
        match choice {
            Choice::One(key) => self.push_found(key.find(*node), rest, frame),
            Choice::Wildcard => self.push_children(node, rest, frame),
            Choice::Slice { first, last, step } => {
                let parts = Slice {
                    first: *first,
                    last: *last,
                    step: step.unwrap_or(1),
                };
                self.push_slice(node, parts, rest, frame)
            }
            Choice::Filter(condition) => self.push_where(node, condition, rest, frame),
        }
    }

    /// Adds what the steps select from a node, if there is one.
    #[cycle(eval)]
    #[inline(always)]
    fn push_found(
        self,
        found: Option<Cursor<'a>>,
        rest: &[Step],
        frame: &mut Frame<'a>,
    ) -> Result<()>
        requires line { IfSome found (λ c. line_of c ≡ line_of self.run.now.root.now) }
        requires kept { IsKept self.run.now frame.old }
        ensures { Pushes self.entry frame.old frame.new result (reached self.entry.run.now rest.now (node_list found.entry)) }
    {
        match found {
            Some(node) => self.push_steps(&node, rest, frame),
            None => Ok(()),
        }
    }

    /// Adds what the steps select from each child.
    #[cycle(eval)]
    fn push_children(self, node: &Cursor<'a>, rest: &[Step], frame: &mut Frame<'a>) -> Result<()>
        requires { IsFrameFor self node.now frame.old }
        ensures { Pushes self.entry frame.old frame.new result (reached self.entry.run.now rest.now (children (node_of node.now))) }
    {
        let mut next = node.first_child();
        while let Some(child) = next {
            if frame.has(self.most) {
                return Ok(());
            }
            self.push_steps(&child, rest, frame)?;
            next = child.next_sibling();
        }
        Ok(())
    }

    /// Adds what the steps select from each child for which the condition holds. One that asks the root alone is asked once.
    #[cycle(eval)]
    #[inline(never)]
    fn push_where(
        self,
        node: &Cursor<'a>,
        condition: &Condition,
        rest: &[Step],
        frame: &mut Frame<'a>,
    ) -> Result<()>
        requires { IsFrameFor self node.now frame.old }
        ensures { Pushes self.entry frame.old frame.new result (reached self.entry.run.now rest.now (filter (λ c. truth_of (condition_view (table_at self.entry) condition.now) c (tree_at self.entry)) (children (node_of node.now)))) }
    {
        if let Condition::Once(position) = condition {
            if self.holds_once(*position, frame)? {
                return self.push_children(node, rest, frame);
            }
            return Ok(());
        }
        self.push_tested(node, condition, rest, frame)
    }

    /// Adds what the steps select from each child for which the condition holds.
    #[cycle(eval)]
    #[inline(always)]
    fn push_tested(
        self,
        node: &Cursor<'a>,
        condition: &Condition,
        rest: &[Step],
        frame: &mut Frame<'a>,
    ) -> Result<()>
        requires { IsFrameFor self node.now frame.old }
        ensures { Pushes self.entry frame.old frame.new result (reached self.entry.run.now rest.now (filter (λ c. truth_of (condition_view (table_at self.entry) condition.now) c (tree_at self.entry)) (children (node_of node.now)))) }
    {
        self.run.prepare(frame)?;
        let mut next = node.first_child();
        while let Some(child) = next {
            if frame.has(self.most) {
                return Ok(());
            }
            if self.holds(&child, condition, frame)? {
                self.push_steps(&child, rest, frame)?;
            }
            next = child.next_sibling();
        }
        Ok(())
    }
}
