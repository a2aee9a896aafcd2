//! The values that are compared, and that functions are given (RFC 9535, sections 2.3.5.1 and 2.4).

ghost use Rattle.std.specs.Prelude.{◌≡◌, ◌∷◌, [], length, IfOk};
ghost use Rattle.jp_model.specs.Meaning.Functions.{single_value as single_value_of};
ghost use Rattle.jp_model.specs.Meaning.Selecting.{compared_value};
ghost use Rattle.jp_nodes.specs.Cursors.{node_of};
ghost use Rattle.jp_eval.specs.Answers.{IsValue};
ghost use Rattle.jp_children.specs.Found.{node_list};
ghost use Rattle.jp_eval.specs.Frames.{table_at, tree_at, reached, IsFrameFor, Lends};
ghost use Rattle.jp_eval.specs.Programs.{operand_view, sought_view, found_view};

use crate::Result;
use crate::frame::{Frame, Walk};
use crate::functions::length_of;
use crate::program::{Found, Operand, Sought, Step};
use crate::question::follow_keys;
use crate::sums::COUNTED;
use jp_nodes::Cursor;
use jp_values::Value;
use std::alloc::AllocError;

/// The value of a node, or Nothing if there is none.
#[inline(always)]
fn node_value<'a>(end: Option<Cursor<'a>>) -> Value<'a>
    ensures { IsValue result (single_value_of (node_list end.entry)) }
{
    match end {
        Some(node) => Value::Node(node),
        None => Value::Nothing,
    }
}

impl<'r, 'a> Walk<'r, 'a> {
    /// The value of an operand.
    #[cycle(eval)]
    #[inline(always)]
    pub(crate) fn value_of(
        self,
        node: &Cursor<'a>,
        operand: &'r Operand,
        frame: &mut Frame<'a>,
    ) -> Result<Value<'r>>
        requires { IsFrameFor self node.now frame.old }
        ensures lends { Lends self.entry frame.old frame.new result }
        ensures value { IfOk result (λ v. IsValue v (compared_value (operand_view (table_at self.entry) operand.now) (node_of node.now) (tree_at self.entry))) }
    {
        match operand {
            Operand::Constant(constant) => Ok(constant.value()),
            Operand::Sought(sought) => self.sought_value(node, sought, frame),
        }
    }

    /// A value that is looked for in the line.
    #[cycle(eval)]
    #[inline(always)]
    fn sought_value(
        self,
        node: &Cursor<'a>,
        sought: &Sought,
        frame: &mut Frame<'a>,
    ) -> Result<Value<'a>>
        requires { IsFrameFor self node.now frame.old }
        ensures lends { Lends self.entry frame.old frame.new result }
        ensures value { IfOk result (λ v. IsValue v (compared_value (sought_view (table_at self.entry) sought.now) (node_of node.now) (tree_at self.entry))) }
    {
        match sought {
            Sought::Found(found) => self.found_value(node, found, frame),
            Sought::Once(position) => self.value_once(*position, frame),
        }
    }

    /// A value that is found at a node.
    #[cycle(eval)]
    pub(crate) fn found_value(
        self,
        node: &Cursor<'a>,
        found: &Found,
        frame: &mut Frame<'a>,
    ) -> Result<Value<'a>>
        requires { IsFrameFor self node.now frame.old }
        ensures lends { Lends self.entry frame.old frame.new result }
        ensures value { IfOk result (λ v. IsValue v (compared_value (found_view (table_at self.entry) found.now) (node_of node.now) (tree_at self.entry))) }
    {
        match found {
            Found::Single(keys) => Ok(node_value(follow_keys(keys, *node))),
            Found::Only(steps) => self.only_value(node, steps, frame),
            Found::Value(steps) => self.only_value(node, steps, frame),
            Found::Length(operand) => Ok(length_of(self.value_of(node, operand, frame)?)),
            Found::Count(steps) => Ok(Value::Count(self.count_nodes(node, steps, frame)?)),
        }
    }

    /// The value of the only node that the steps select, where they select one. The second decides.
    #[cycle(eval)]
    fn only_value(
        self,
        node: &Cursor<'a>,
        steps: &[Step],
        frame: &mut Frame<'a>,
    ) -> Result<Value<'a>>
        requires { IsFrameFor self node.now frame.old }
        ensures lends { Lends self.entry frame.old frame.new result }
        ensures value { IfOk result (λ v. IsValue v (single_value_of (reached self.entry.run.now steps.now (node_of node.now ∷ [])))) }
    {
        let sum = self.sum(node, steps, 2, frame)?;
        if sum.count == 1 {
            Ok(Value::Node(node.go_to(sum.last)))
        } else {
            Ok(Value::Nothing)
        }
    }

    /// How many nodes the steps select. `COUNTED` of them and more are refused as memory is.
    #[cycle(eval)]
    fn count_nodes(self, node: &Cursor<'a>, steps: &[Step], frame: &mut Frame<'a>) -> Result<u64>
        requires { IsFrameFor self node.now frame.old }
        ensures lends { Lends self.entry frame.old frame.new result }
        ensures value { IfOk result (λ count. count ≡ length (reached self.entry.run.now steps.now (node_of node.now ∷ []))) }
    {
        let sum = self.sum(node, steps, COUNTED, frame)?;
        if sum.count >= COUNTED {
            return Err(AllocError);
        }
        Ok(sum.count)
    }
}
