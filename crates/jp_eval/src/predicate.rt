//! When an expression holds of a node (RFC 9535, section 2.3.5).

ghost use Rattle.std.specs.Prelude.{◌≡◌, true, IfOk};
ghost use Rattle.jp_model.specs.Meaning.Selecting.{truth as truth_of};
ghost use Rattle.jp_model.specs.Query.Typing.{logical_typed};
ghost use Rattle.jp_syntax.specs.Sound.{logical_has_sound_literals};
ghost use Rattle.jp_syntax.specs.View.{logical_view};
ghost use Rattle.jp_nodes.specs.Cursors.{line_of, place_of, node_of};
ghost use Rattle.jp_eval.specs.Compiled.{predicate_view};
ghost use Rattle.jp_eval.specs.Remembers.{RemembersTruths};

use crate::compile::Compiler;
use crate::frame::{Frame, Run, Walk};
use crate::program::{Condition, Slot};
use crate::sums::LISTED;
use jp_nodes::Cursor;
use jp_syntax::{Logical, Origin};
use std::alloc::{AllocError, Global};

/// A compiled logical expression (RFC 9535, section 2.3.5), with all that is the same for each node found beforehand.
#[derive(Drop)]
pub struct Predicate {
    pub(crate) slots: Vec<Slot>,
    pub(crate) condition: Condition,
}

impl Predicate {
    /// Compiles an expression that is well-typed. What was compiled means what it means.
    ///
    /// If memory is refused, the answer is `AllocError`.
    pub fn compile(alloc: Global, expression: &Logical) -> Result<Predicate, AllocError>
        requires literals { logical_has_sound_literals (logical_view expression.now) ≡ true }
        requires typed { logical_typed (logical_view expression.now) ≡ true }
        ensures { IfOk result (λ predicate. predicate_view predicate ≡ logical_view expression.now) }
    {
        let mut compiler = Compiler::new(alloc);
        let condition = compiler.compile_logical(Origin::Current, expression)?;
        let slots = compiler.slots;
        Ok(Predicate { slots, condition })
    }

    /// Whether the expression holds of a node. What the frame has answered is not asked again.
    #[inline(always)]
    fn holds<'a>(
        &self,
        alloc: Global,
        node: Cursor<'a>,
        root: Cursor<'a>,
        frame: &mut Frame<'a>,
    ) -> Result<bool, AllocError>
        requires line { line_of node ≡ line_of root }
        requires root { place_of root ≡ 0 }
        requires remembers { RemembersTruths self.now (line_of root) frame.old }
        ensures truth { IfOk result (λ answer. answer ≡ truth_of (predicate_view self.now) (node_of node.entry) (node_of root.entry).tree) }
        ensures remembers { RemembersTruths self.now (line_of root.entry) frame.new }
    {
        let run = Run {
            alloc,
            slots: &self.slots,
            known: self.slots.len(),
            root: &root,
        };
        let walk = Walk {
            run: &run,
            most: LISTED,
        };
        walk.answer_slots(frame)?;
        walk.holds(&node, &self.condition, frame)
    }

    /// Whether the expression holds of a node (RFC 9535, section 2.3.5.2): `@` is the node, and `$` is `root`, the root of the
    /// same line. It stops at the first part that decides, and at the first node of a query that is asked for one. The frame
    /// lends its room from line to line; what was found in it before is forgotten.
    ///
    /// If memory is refused, the answer is `AllocError`, and the frame can be lent again.
    pub fn holds_in<'a>(
        &self,
        alloc: Global,
        node: Cursor<'a>,
        root: Cursor<'a>,
        frame: &mut Frame<'a>,
    ) -> Result<bool, AllocError>
        requires line { line_of node ≡ line_of root }
        requires root { place_of root ≡ 0 }
        ensures truth { IfOk result (λ answer. answer ≡ truth_of (predicate_view self.now) (node_of node.entry) (node_of root.entry).tree) }
        ensures remembers { RemembersTruths self.now (line_of root.entry) frame.new }
    {
        frame.forget();
        self.holds(alloc, node, root, frame)
    }

    /// Whether the expression holds of a node, as `holds_in` tells it, in a frame that remembers the answers of the root: as a
    /// call of this predicate in the same line left it. These are not asked again.
    ///
    /// If memory is refused, the answer is `AllocError`, and the frame can be lent again.
    pub fn holds_again<'a>(
        &self,
        alloc: Global,
        node: Cursor<'a>,
        root: Cursor<'a>,
        frame: &mut Frame<'a>,
    ) -> Result<bool, AllocError>
        requires line { line_of node ≡ line_of root }
        requires root { place_of root ≡ 0 }
        requires remembers { RemembersTruths self.now (line_of root) frame.old }
        ensures truth { IfOk result (λ answer. answer ≡ truth_of (predicate_view self.now) (node_of node.entry) (node_of root.entry).tree) }
        ensures remembers { RemembersTruths self.now (line_of root.entry) frame.new }
    {
        frame.forget_found();
        self.holds(alloc, node, root, frame)
    }
}

/// Whether the expression holds of a node (RFC 9535, section 2.3.5.2): `@` is the node, and `$` is `root`, the root of the
/// same line. It stops at the first part that decides, and at the first node of a query that is asked for one. The expression
/// is compiled for this call alone; to ask many nodes, compile a `Predicate` once.
///
/// If memory is refused, the answer is `AllocError`.
pub fn truth<'a>(
    alloc: Global,
    expression: &Logical,
    node: Cursor<'a>,
    root: Cursor<'a>,
) -> Result<bool, AllocError>
    requires line { line_of node ≡ line_of root }
    requires root { place_of root ≡ 0 }
    requires literals { logical_has_sound_literals (logical_view expression.now) ≡ true }
    requires typed { logical_typed (logical_view expression.now) ≡ true }
    ensures { IfOk result (λ answer. answer ≡ truth_of (logical_view expression.now) (node_of node.entry) (node_of root.entry).tree) }
{
    let predicate = Predicate::compile(alloc, expression)?;
    let mut frame = Frame::new(alloc);
    predicate.holds_in(alloc, node, root, &mut frame)
}
