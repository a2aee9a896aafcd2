//! What the filters of a query ask is compiled.
//!
//! `from` says where the queries begin that are asked of the node: at the current node, or, in a slot, at the root. In a filter
//! what asks the root alone becomes a slot.
//!
//! Filters are nested as deep as a query allows, and the calls that compile them with them. What makes a large value stands in a
//! function of its own, outside the cycle of these calls and not inlined (`#[inline(never)]`), so that it takes no stack while
//! what is within is compiled; and a call of the cycle is not inlined where two frames joined would take more at each level.

ghost use Rattle.std.specs.Prelude.{◌≡◌, ◌&&◌, ◌++◌, ◌∷◌, [], true, IfOk, OnOk, map};
ghost use Rattle.jp_eval.specs.Expressions.{readable};
ghost use Rattle.jp_eval.specs.Programs.{Table, Means, argument_of, condition_view, test_view, operand_view, spelled_view, sought_view, found_view};
ghost use Rattle.jp_eval.specs.Roots.{argument_asks_root, argument_from, asks_from, call_asks_root, is_root, logical_asks_root, logical_from, logicals_ask_root, path_asks_root, side_asks_root, side_from};
ghost use Rattle.jp_model.specs.Query.Limits.{logical_passes, logicals_pass, comparable_passes, path_passes, call_passes, argument_passes};
ghost use Rattle.jp_model.specs.Query.Syntax.{compare, exists, negated, result as call_result, single, test as call_test};
ghost use Rattle.jp_model.specs.Query.Typing.{logical_typed, logicals_typed, comparable_typed, path_typed, call_typed, call_serves, argument_typed, logical_kind, value_kind};
ghost use Rattle.jp_syntax.specs.Sound.{is_sound};
ghost use Rattle.jp_syntax.specs.View.{op_view, literal_view, logicals_of, logicals_view, logical_view, comparable_view, path_view, call_view, argument_view, origin_view};
ghost use Rattle.jp_eval.specs.declared.program.Test.TheVariants as tests;

use crate::Result;
use crate::calls::{ValueCall, pattern_call, value_call};
use crate::compile::Compiler;
use crate::constants::{compile_keys, compile_literal, compile_pattern};
use crate::leaves::{Constant, LiteralPattern};
use crate::program::{Condition, Found, Operand, Sought, Spelled, Step, Test};
use crate::question::{Key, Question};
use crate::roots::{becomes_slot, call_asks_root, logical_asks_root, path_asks_root};
use crate::ways::Ways;
use jp_syntax::{Argument, Call, Comparable, CompareOp, Literal, Logical, Origin, Path};
use std::alloc::Global;

/// Adds a condition.
#[inline(never)]
fn push_condition(all: &mut Vec<Condition>, condition: Condition) -> Result<()>
    ensures { OnOk result (all.new.items ≡ all.old.items ++ condition ∷ []) }
{
    all.push(condition)?;
    Ok(())
}

/// The test that one of some conditions holds.
#[inline(never)]
fn or_test(alloc: Global, parts: Vec<Condition>) -> Result<Box<Test>>
    ensures { IfOk result (λ test. test.value ≡ tests.Or parts) }
{
    Ok(Box::new(alloc, Test::Or(parts))?)
}

/// The test that all of some conditions hold.
#[inline(never)]
fn and_test(alloc: Global, parts: Vec<Condition>) -> Result<Box<Test>>
    ensures { IfOk result (λ test. test.value ≡ tests.And parts) }
{
    Ok(Box::new(alloc, Test::And(parts))?)
}

/// The test that a condition does not hold.
#[inline(never)]
fn not_test(alloc: Global, inner: Condition) -> Result<Box<Test>>
    ensures { IfOk result (λ test. (table : Table) → test_view table test.value ≡ negated (condition_view table inner)) }
{
    let inner = Box::new(alloc, inner)?;
    Ok(Box::new(alloc, Test::Not(inner))?)
}

/// The test whether steps select a node.
#[inline(never)]
fn exists_test(alloc: Global, steps: Vec<Step>) -> Result<Box<Test>>
    ensures { IfOk result (λ test. test.value ≡ tests.Exists steps) }
{
    Ok(Box::new(alloc, Test::Exists(steps))?)
}

/// The test that asks a question of what keys lead to.
#[inline(never)]
fn single_test(alloc: Global, keys: Vec<Key>, question: Question) -> Result<Box<Test>>
    ensures { IfOk result (λ test. test.value ≡ tests.Single keys question) }
{
    Ok(Box::new(alloc, Test::Single(keys, question))?)
}

/// The test of a comparison.
#[inline(never)]
fn compare_test(alloc: Global, left: Operand, op: CompareOp, right: Operand) -> Result<Box<Test>>
    ensures { IfOk result (λ test. test.value ≡ tests.Compare left op right) }
{
    Ok(Box::new(alloc, Test::Compare { left, op, right })?)
}

/// The test whether all of a text, or a part of it, passes a pattern.
#[inline(never)]
fn passes_test(alloc: Global, whole: bool, text: Operand, pattern: Spelled) -> Result<Box<Test>>
    ensures { IfOk result (λ test. test.value ≡ tests.Passes whole text pattern) }
{
    Ok(Box::new(
        alloc,
        Test::Passes {
            whole,
            text,
            pattern,
        },
    )?)
}

/// A value of the query.
#[inline(never)]
fn boxed_constant(alloc: Global, literal: &Literal) -> Result<Box<Constant>>
    requires literals { is_sound (literal_view literal.now) ≡ true }
    ensures { IfOk result (λ constant. literal_view constant.value.literal ≡ literal_view literal.now) }
{
    let constant = compile_literal(alloc, literal)?;
    Ok(Box::new(alloc, constant)?)
}

/// A value of the query where a pattern is wanted.
#[inline(never)]
fn boxed_pattern(alloc: Global, literal: &Literal) -> Result<Box<LiteralPattern>>
    requires literals { is_sound (literal_view literal.now) ≡ true }
    ensures { IfOk result (λ pattern. literal_view pattern.value.constant.literal ≡ literal_view literal.now) }
{
    let pattern = compile_pattern(alloc, literal)?;
    Ok(Box::new(alloc, pattern)?)
}

/// A box for something that is looked for in the line.
#[inline(never)]
fn boxed_sought(alloc: Global, sought: Sought) -> Result<Box<Sought>>
    ensures { IfOk result (λ boxed. boxed.value ≡ sought) }
{
    Ok(Box::new(alloc, sought)?)
}

impl Compiler {
    /// The conditions of the parts of an expression, in their order.
    #[cycle(compile)]
    #[inline(never)]
    fn compile_logicals(&mut self, from: Origin, parts: &[Logical]) -> Result<Vec<Condition>>
        requires literals { logicals_pass (logicals_view parts.now) readable ≡ true }
        requires typed { logicals_typed (logicals_view parts.now) ≡ true }
        requires root { asks_from (origin_view from) (logicals_ask_root (logicals_view parts.now)) ≡ true }
        ensures { IfOk result (λ conditions. Means self.old.slots.items self.new.slots.items (λ (table : Table). logicals_of (map (λ c. logical_from (origin_view from) (condition_view table c)) conditions.items)) (logicals_view parts.now)) }
    {
        let mut compiled = Vec::with_capacity(self.alloc, parts.len())?;
        for part in parts {
            let one = self.compile_logical(from, part)?;
            push_condition(&mut compiled, one)?;
        }
        Ok(compiled)
    }

    /// The condition of an expression.
    #[cycle(compile)]
    pub(crate) fn compile_logical(
        &mut self,
        from: Origin,
        expression: &Logical,
    ) -> Result<Condition>
        requires literals { logical_passes (logical_view expression.now) readable ≡ true }
        requires typed { logical_typed (logical_view expression.now) ≡ true }
        requires root { asks_from (origin_view from) (logical_asks_root (logical_view expression.now)) ≡ true }
        ensures { IfOk result (λ condition. Means self.old.slots.items self.new.slots.items (λ (table : Table). logical_from (origin_view from) (condition_view table condition)) (logical_view expression.now)) }
    {
        if becomes_slot(from, logical_asks_root(expression)) {
            return self.compile_once(expression);
        }
        Ok(Condition::Test(self.compile_test(from, expression)?))
    }

    /// The condition of an expression that asks the root alone: a slot's.
    #[cycle(compile)]
    #[inline(never)]
    fn compile_once(&mut self, expression: &Logical) -> Result<Condition>
        requires literals { logical_passes (logical_view expression.now) readable ≡ true }
        requires typed { logical_typed (logical_view expression.now) ≡ true }
        requires root { logical_asks_root (logical_view expression.now) ≡ true }
        ensures { IfOk result (λ condition. Means self.old.slots.items self.new.slots.items (λ (table : Table). condition_view table condition) (logical_view expression.now)) }
    {
        let ways = std::mem::replace(&mut self.ways, Ways::Apart);
        let test = self.compile_test(Origin::Root, expression)?;
        self.ways = ways;
        self.add_test(test)
    }

    /// The test of an expression, that is of a slot where it asks the root alone.
    #[cycle(compile)]
    #[inline(never)]
    pub(crate) fn compile_test(&mut self, from: Origin, expression: &Logical) -> Result<Box<Test>>
        requires literals { logical_passes (logical_view expression.now) readable ≡ true }
        requires typed { logical_typed (logical_view expression.now) ≡ true }
        requires root { logical_asks_root (logical_view expression.now) ≡ is_root (origin_view from) }
        ensures { IfOk result (λ test. Means self.old.slots.items self.new.slots.items (λ (table : Table). logical_from (origin_view from) (test_view table test.value)) (logical_view expression.now)) }
    {
        match expression {
            Logical::Or(parts) => {
                let parts = self.compile_logicals(from, parts)?;
                or_test(self.alloc, parts)
            }
            Logical::And(parts) => {
                let parts = self.compile_logicals(from, parts)?;
                and_test(self.alloc, parts)
            }
            Logical::Not(inner) => {
                let inner = self.compile_logical(from, inner)?;
                not_test(self.alloc, inner)
            }
            Logical::Compare { left, op, right } => {
                self.compile_comparison(from, left, *op, right)
            }
            Logical::Exists(path) => self.compile_exists(path),
            Logical::Test(call) => self.compile_passes(from, call),
        }
    }

    /// The test of a comparison.
    #[cycle(compile)]
    #[inline(never)]
    fn compile_comparison(
        &mut self,
        from: Origin,
        left: &Comparable,
        op: CompareOp,
        right: &Comparable,
    ) -> Result<Box<Test>>
        requires left { comparable_passes (comparable_view left.now) readable ≡ true }
        requires right { comparable_passes (comparable_view right.now) readable ≡ true }
        requires left_typed { comparable_typed (comparable_view left.now) ≡ true }
        requires right_typed { comparable_typed (comparable_view right.now) ≡ true }
        requires root { (side_asks_root (comparable_view left.now) && side_asks_root (comparable_view right.now)) ≡ is_root (origin_view from) }
        ensures { IfOk result (λ test. Means self.old.slots.items self.new.slots.items (λ (table : Table). logical_from (origin_view from) (test_view table test.value)) (compare (comparable_view left.now) (op_view op) (comparable_view right.now))) }
    {
        if let Comparable::Single(path) = left
            && let Comparable::Constant(literal) = right
            && let Some(keys) = compile_keys(self.alloc, &path.segments)?
        {
            let constant = boxed_constant(self.alloc, literal)?;
            return single_test(self.alloc, keys, Question::Compares(op, constant));
        }
        let left = self.compile_side(from, left)?;
        let right = self.compile_side(from, right)?;
        compare_test(self.alloc, left, op, right)
    }

    /// The test whether a query selects a node.
    #[cycle(compile)]
    #[inline(never)]
    fn compile_exists(&mut self, path: &Path) -> Result<Box<Test>>
        requires literals { path_passes (path_view path.now) readable ≡ true }
        requires typed { path_typed (path_view path.now) ≡ true }
        ensures { IfOk result (λ test. Means self.old.slots.items self.new.slots.items (λ (table : Table). logical_from (origin_view path.now.origin) (test_view table test.value)) (exists (path_view path.now))) }
    {
        if let Some(keys) = compile_keys(self.alloc, &path.segments)? {
            return single_test(self.alloc, keys, Question::Exists);
        }
        let steps = self.compile_segments(&path.segments)?;
        exists_test(self.alloc, steps)
    }

    /// The test of a call that answers a truth.
    #[cycle(compile)]
    #[inline(never)]
    fn compile_passes(&mut self, from: Origin, call: &Call) -> Result<Box<Test>>
        requires literals { call_passes (call_view call.now) readable ≡ true }
        requires typed { (call_serves logical_kind (call_view call.now) && call_typed (call_view call.now)) ≡ true }
        requires root { call_asks_root (call_view call.now) ≡ is_root (origin_view from) }
        ensures { IfOk result (λ test. Means self.old.slots.items self.new.slots.items (λ (table : Table). logical_from (origin_view from) (test_view table test.value)) (call_test (call_view call.now))) }
    {
        let (whole, text, pattern) = pattern_call(call);
        if let Argument::Nodes(path) = text
            && let Argument::Constant(literal) = pattern
            && let Some(keys) = compile_keys(self.alloc, &path.segments)?
        {
            let pattern = boxed_pattern(self.alloc, literal)?;
            return single_test(self.alloc, keys, Question::Passes(whole, pattern));
        }
        let text = self.compile_argument(from, text)?;
        let pattern = self.compile_spelled(from, pattern)?;
        passes_test(self.alloc, whole, text, pattern)
    }

    /// The operand of a side of a comparison.
    #[cycle(compile)]
    fn compile_side(&mut self, from: Origin, side: &Comparable) -> Result<Operand>
        requires literals { comparable_passes (comparable_view side.now) readable ≡ true }
        requires typed { comparable_typed (comparable_view side.now) ≡ true }
        requires root { asks_from (origin_view from) (side_asks_root (comparable_view side.now)) ≡ true }
        ensures { IfOk result (λ operand. Means self.old.slots.items self.new.slots.items (λ (table : Table). side_from (origin_view from) (operand_view table operand)) (comparable_view side.now)) }
    {
        match side {
            Comparable::Constant(literal) => {
                Ok(Operand::Constant(boxed_constant(self.alloc, literal)?))
            }
            Comparable::Single(path) => {
                let sought = self.compile_path(from, path)?;
                Ok(Operand::Sought(boxed_sought(self.alloc, sought)?))
            }
            Comparable::Result(call) => {
                let sought = self.compile_call(from, call)?;
                Ok(Operand::Sought(boxed_sought(self.alloc, sought)?))
            }
        }
    }

    /// The operand of an argument that is a value.
    #[cycle(compile)]
    fn compile_argument(&mut self, from: Origin, argument: &Argument) -> Result<Operand>
        requires literals { argument_passes (argument_view argument.now) readable ≡ true }
        requires typed { argument_typed (argument_view argument.now) value_kind ≡ true }
        requires root { asks_from (origin_view from) (argument_asks_root (argument_view argument.now)) ≡ true }
        ensures { IfOk result (λ operand. Means self.old.slots.items self.new.slots.items (λ (table : Table). argument_from (origin_view from) (argument_of (operand_view table operand))) (argument_view argument.now)) }
    {
        match argument {
            Argument::Constant(literal) => {
                Ok(Operand::Constant(boxed_constant(self.alloc, literal)?))
            }
            Argument::Nodes(path) => {
                let sought = self.compile_path(from, path)?;
                Ok(Operand::Sought(boxed_sought(self.alloc, sought)?))
            }
            Argument::Result(call) => {
                let sought = self.compile_call(from, call)?;
                Ok(Operand::Sought(boxed_sought(self.alloc, sought)?))
            }
            Argument::Condition(_) => unreachable!(),
        }
    }

    /// What spells the pattern that an argument gives.
    #[cycle(compile)]
    fn compile_spelled(&mut self, from: Origin, argument: &Argument) -> Result<Spelled>
        requires literals { argument_passes (argument_view argument.now) readable ≡ true }
        requires typed { argument_typed (argument_view argument.now) value_kind ≡ true }
        requires root { asks_from (origin_view from) (argument_asks_root (argument_view argument.now)) ≡ true }
        ensures { IfOk result (λ spelled. Means self.old.slots.items self.new.slots.items (λ (table : Table). argument_from (origin_view from) (spelled_view table spelled)) (argument_view argument.now)) }
    {
        match argument {
            Argument::Constant(literal) => {
                Ok(Spelled::Literal(boxed_pattern(self.alloc, literal)?))
            }
            Argument::Nodes(path) => {
                let sought = self.compile_path(from, path)?;
                Ok(Spelled::Sought(boxed_sought(self.alloc, sought)?))
            }
            Argument::Result(call) => {
                let sought = self.compile_call(from, call)?;
                Ok(Spelled::Sought(boxed_sought(self.alloc, sought)?))
            }
            Argument::Condition(_) => unreachable!(),
        }
    }

    /// What is looked for by a query that is a value. One from the root becomes a slot.
    #[cycle(compile)]
    #[inline(never)]
    fn compile_path(&mut self, from: Origin, path: &Path) -> Result<Sought>
        requires literals { path_passes (path_view path.now) readable ≡ true }
        requires typed { path_typed (path_view path.now) ≡ true }
        requires root { asks_from (origin_view from) (path_asks_root (path_view path.now)) ≡ true }
        ensures { IfOk result (λ sought. Means self.old.slots.items self.new.slots.items (λ (table : Table). side_from (origin_view from) (sought_view table sought)) (single (path_view path.now))) }
    {
        if becomes_slot(from, path_asks_root(path)) {
            let ways = std::mem::replace(&mut self.ways, Ways::Apart);
            let found = self.compile_only(path)?;
            self.ways = ways;
            return self.add_value(found);
        }
        Ok(Sought::Found(self.compile_only(path)?))
    }

    /// The value of the only node that a query selects.
    #[cycle(compile)]
    fn compile_only(&mut self, path: &Path) -> Result<Found>
        requires literals { path_passes (path_view path.now) readable ≡ true }
        requires typed { path_typed (path_view path.now) ≡ true }
        ensures { IfOk result (λ found. Means self.old.slots.items self.new.slots.items (λ (table : Table). side_from (origin_view path.now.origin) (found_view table found)) (single (path_view path.now))) }
    {
        if let Some(keys) = compile_keys(self.alloc, &path.segments)? {
            return Ok(Found::Single(keys));
        }
        let steps = self.compile_segments(&path.segments)?;
        Ok(Found::Only(steps))
    }

    /// What is looked for by a call whose answer is a value. One that asks the root alone becomes a slot.
    #[cycle(compile)]
    #[inline(never)]
    fn compile_call(&mut self, from: Origin, call: &Call) -> Result<Sought>
        requires literals { call_passes (call_view call.now) readable ≡ true }
        requires typed { (call_serves value_kind (call_view call.now) && call_typed (call_view call.now)) ≡ true }
        requires root { asks_from (origin_view from) (call_asks_root (call_view call.now)) ≡ true }
        ensures { IfOk result (λ sought. Means self.old.slots.items self.new.slots.items (λ (table : Table). side_from (origin_view from) (sought_view table sought)) (call_result (call_view call.now))) }
    {
        if becomes_slot(from, call_asks_root(call)) {
            let ways = std::mem::replace(&mut self.ways, Ways::Apart);
            let found = self.compile_value(Origin::Root, call)?;
            self.ways = ways;
            return self.add_value(found);
        }
        Ok(Sought::Found(self.compile_value(from, call)?))
    }

    /// The value that a call answers.
    #[cycle(compile)]
    fn compile_value(&mut self, from: Origin, call: &Call) -> Result<Found>
        requires literals { call_passes (call_view call.now) readable ≡ true }
        requires typed { (call_serves value_kind (call_view call.now) && call_typed (call_view call.now)) ≡ true }
        requires root { call_asks_root (call_view call.now) ≡ is_root (origin_view from) }
        ensures { IfOk result (λ found. Means self.old.slots.items self.new.slots.items (λ (table : Table). side_from (origin_view from) (found_view table found)) (call_result (call_view call.now))) }
    {
        match value_call(call) {
            ValueCall::Length(argument) => {
                let operand = self.compile_argument(from, argument)?;
                Ok(Found::Length(Box::new(self.alloc, operand)?))
            }
            ValueCall::Count(path) => {
                let steps = self.compile_segments(&path.segments)?;
                Ok(Found::Count(steps))
            }
            ValueCall::Value(path) => {
                let steps = self.compile_segments(&path.segments)?;
                Ok(Found::Value(steps))
            }
        }
    }
}
