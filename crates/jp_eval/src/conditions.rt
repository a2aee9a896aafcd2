//! Whether the condition of a filter holds of a node (RFC 9535, section 2.3.5).

ghost use Rattle.std.specs.Prelude.{◌≡◌, ◌∷◌, [], ◌==◌, not, length, IfOk};
ghost use Rattle.jp_model.specs.Meaning.Compare.{compared};
ghost use Rattle.jp_model.specs.Meaning.Functions.{in_pattern};
ghost use Rattle.jp_model.specs.Meaning.Selecting.{truth as truth_of, compared_value, given_by};
ghost use Rattle.jp_model.specs.Query.Syntax.{current, path};
ghost use Rattle.jp_syntax.specs.View.{op_view};
ghost use Rattle.jp_nodes.specs.Cursors.{node_of};
ghost use Rattle.jp_eval.specs.Expressions.{all_are};
ghost use Rattle.jp_eval.specs.Frames.{table_at, tree_at, reached, IsFrameFor, Lends};
ghost use Rattle.jp_eval.specs.Functions.{passing};
ghost use Rattle.jp_eval.specs.Keys.{keys_view};
ghost use Rattle.jp_eval.specs.Programs.{conditions_view, condition_view, test_view, operand_view, spelled_view};
ghost use Rattle.jp_eval.specs.Questions.{question_view};

use crate::Result;
use crate::frame::{Frame, Walk};
use crate::functions::{read_passes, read_pattern};
use crate::program::{Condition, Operand, Sought, Spelled, Step, Test};
use crate::question::{Key, Question, follow_keys};
use jp_nodes::Cursor;
use jp_syntax::CompareOp;
use jp_values::compare_in;

impl<'r, 'a> Walk<'r, 'a> {
    /// The answer to a question about the node that names and indexes lead to. It is called, as conditions nest as deep as a
    /// query does: its part of the stack would be taken once for each level.
    #[inline(never)]
    fn answer(self, node: &Cursor<'a>, keys: &[Key], question: &Question) -> Result<bool>
        ensures { IfOk result (λ b. b ≡ truth_of (question_view question.now (path current (keys_view keys.now))) (node_of node.now) (tree_at self.entry)) }
    {
        question.answer(self.run.alloc, follow_keys(keys, *node))
    }

    /// Whether the condition holds of a node.
    #[cycle(eval)]
    #[inline(always)]
    pub(crate) fn holds(
        self,
        node: &Cursor<'a>,
        condition: &Condition,
        frame: &mut Frame<'a>,
    ) -> Result<bool>
        requires { IsFrameFor self node.now frame.old }
        ensures lends { Lends self.entry frame.old frame.new result }
        ensures value { IfOk result (λ b. b ≡ truth_of (condition_view (table_at self.entry) condition.now) (node_of node.now) (tree_at self.entry)) }
    {
        match condition {
            Condition::Test(test) => self.passes(node, test, frame),
            Condition::Once(position) => self.holds_once(*position, frame),
        }
    }

    /// Whether the node passes the test. Most tests ask what names and indexes lead to, which costs one call.
    #[cycle(eval)]
    #[inline(always)]
    pub(crate) fn passes(
        self,
        node: &Cursor<'a>,
        test: &Test,
        frame: &mut Frame<'a>,
    ) -> Result<bool>
        requires { IsFrameFor self node.now frame.old }
        ensures lends { Lends self.entry frame.old frame.new result }
        ensures value { IfOk result (λ b. b ≡ truth_of (test_view (table_at self.entry) test.now) (node_of node.now) (tree_at self.entry)) }
    {
        match test {
            Test::Single(keys, question) => self.answer(node, keys, question),
            _ => self.passes_any(node, test, frame),
        }
    }

    /// Whether the node passes the test, whatever it asks. It stops at what decides.
    #[cycle(eval)]
    #[inline(never)]
    pub(crate) fn passes_any(
        self,
        node: &Cursor<'a>,
        test: &Test,
        frame: &mut Frame<'a>,
    ) -> Result<bool>
        requires { IsFrameFor self node.now frame.old }
        ensures lends { Lends self.entry frame.old frame.new result }
        ensures value { IfOk result (λ b. b ≡ truth_of (test_view (table_at self.entry) test.now) (node_of node.now) (tree_at self.entry)) }
    {
        match test {
            Test::Single(keys, question) => self.answer(node, keys, question),
            Test::Or(parts) => Ok(!self.are_all(node, parts, false, frame)?),
            Test::And(parts) => self.are_all(node, parts, true, frame),
            Test::Not(inner) => Ok(!self.holds(node, inner, frame)?),
            Test::Exists(steps) => self.has_node(node, steps, frame),
            Test::Compare { left, op, right } => {
                self.compare_values(node, left, *op, right, frame)
            }
            Test::Passes {
                whole,
                text,
                pattern,
            } => self.passes_pattern(node, *whole, text, pattern, frame),
        }
    }

    /// Whether each part is true, or each is false.
    #[cycle(eval)]
    fn are_all(
        self,
        node: &Cursor<'a>,
        parts: &[Condition],
        answer: bool,
        frame: &mut Frame<'a>,
    ) -> Result<bool>
        requires { IsFrameFor self node.now frame.old }
        ensures lends { Lends self.entry frame.old frame.new result }
        ensures value { IfOk result (λ b. b ≡ all_are answer (conditions_view (table_at self.entry) parts.now) (node_of node.now) (tree_at self.entry)) }
    {
        for part in parts {
            if self.holds(node, part, frame)? != answer {
                return Ok(false);
            }
        }
        Ok(true)
    }

    /// Whether the steps select a node. The first decides.
    #[cycle(eval)]
    #[inline(never)]
    fn has_node(self, node: &Cursor<'a>, steps: &[Step], frame: &mut Frame<'a>) -> Result<bool>
        requires { IsFrameFor self node.now frame.old }
        ensures lends { Lends self.entry frame.old frame.new result }
        ensures value { IfOk result (λ b. b ≡ not (length (reached self.entry.run.now steps.now (node_of node.now ∷ [])) == 0)) }
    {
        Ok(self.sum(node, steps, 1, frame)?.count > 0)
    }

    /// Whether a comparison holds of a node (RFC 9535, section 2.3.5.2.2).
    #[cycle(eval)]
    #[inline(never)]
    fn compare_values(
        self,
        node: &Cursor<'a>,
        left: &Operand,
        op: CompareOp,
        right: &Operand,
        frame: &mut Frame<'a>,
    ) -> Result<bool>
        requires { IsFrameFor self node.now frame.old }
        ensures lends { Lends self.entry frame.old frame.new result }
        ensures value { IfOk result (λ b. b ≡ compared (op_view op) (compared_value (operand_view (table_at self.entry) left.now) (node_of node.now) (tree_at self.entry)) (compared_value (operand_view (table_at self.entry) right.now) (node_of node.now) (tree_at self.entry))) }
    {
        let left = self.value_of(node, left, frame)?;
        let right = self.value_of(node, right, frame)?;
        compare_in(self.run.alloc, op, left, right)
    }

    /// Whether a text passes a pattern: all of it, or a part of it (RFC 9535, sections 2.4.6 and 2.4.7).
    #[cycle(eval)]
    #[inline(never)]
    fn passes_pattern(
        self,
        node: &Cursor<'a>,
        whole: bool,
        text: &Operand,
        pattern: &Spelled,
        frame: &mut Frame<'a>,
    ) -> Result<bool>
        requires { IsFrameFor self node.now frame.old }
        ensures lends { Lends self.entry frame.old frame.new result }
        ensures value { IfOk result (λ b. b ≡ in_pattern (passing whole) (compared_value (operand_view (table_at self.entry) text.now) (node_of node.now) (tree_at self.entry)) (given_by (spelled_view (table_at self.entry) pattern.now) (node_of node.now) (tree_at self.entry)).value) }
    {
        let text = self.value_of(node, text, frame)?;
        match pattern {
            Spelled::Literal(pattern) => { read_passes(self.run.alloc, &pattern.read, whole, text) }
            Spelled::Sought(sought) => match &**sought {
                Sought::Once(position) => self.passes_once(*position, whole, text, frame),
                Sought::Found(found) => {
                    let value = self.found_value(node, found, frame)?;
                    let read = read_pattern(self.run.alloc, value)?;
                    read_passes(self.run.alloc, &read, whole, text)
                }
            },
        }
    }
}
