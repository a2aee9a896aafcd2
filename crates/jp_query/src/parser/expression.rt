//! Expressions, and what they are put together from.

ghost use Rattle.std.specs.Prelude.{◌≡◌, [], ◌∷◌, ◌++◌, ◌&&◌, IfOk, OnOk, chars, map, string_bytes};
ghost use Rattle.jp_model.specs.Query.Spelling.{is_alone};
ghost use Rattle.jp_model.specs.Query.Syntax.{exists, path, single, test, compare, result as result_side, call, negated};
ghost use Rattle.jp_query.specs.Connectives.{joined_by};
ghost use Rattle.jp_query.specs.Parsing.{parsed_view};
ghost use Rattle.jp_query.specs.Reading.Queries.{argument_of};
ghost use Rattle.jp_syntax.specs.View.{origin_view, segments_view, logicals_view, arguments_view, logical_view, comparable_view, op_view, argument_view, call_view};

use super::parsed::Parsed;
use jp_syntax::{Argument, Call, Comparable, CompareOp, Logical, Origin, Path, Segment};
use std::alloc::{AllocError, Global};

/// The test that a query selects a node.
fn existence(origin: Origin, segments: Vec<Segment>) -> Logical
    ensures { logical_view result ≡ exists (path (origin_view origin) (segments_view segments.items)) }
{
    Logical::Exists(Path { origin, segments })
}

/// A query as a test.
#[inline(never)]
pub(crate) fn exists_of(
    alloc: Global,
    origin: Origin,
    segments: Vec<Segment>,
) -> Result<Box<Logical>, AllocError>
    ensures { IfOk result (λ l. logical_view l.value ≡ exists (path (origin_view origin) (segments_view segments.items))) }
{
    Ok(Box::new(alloc, existence(origin, segments))?)
}

/// A comparison of two sides.
#[inline(never)]
pub(crate) fn compare_of(
    alloc: Global,
    left: Comparable,
    op: CompareOp,
    right: Comparable,
) -> Result<Box<Logical>, AllocError>
    ensures { IfOk result (λ l. logical_view l.value ≡ compare (comparable_view left) (op_view op) (comparable_view right)) }
{
    Ok(Box::new(alloc, Logical::Compare { left, op, right })?)
}

/// Adds a part.
#[inline(never)]
pub(crate) fn push_part(parts: &mut Vec<Logical>, part: Box<Logical>) -> Result<(), AllocError>
    ensures { OnOk result (map logical_view parts.new.items ≡ map logical_view parts.old.items ++ logical_view part.value ∷ []) }
{
    parts.push(Box::into_inner(part))?;
    Ok(())
}

/// A query as a side of a comparison.
pub(crate) fn single_of(origin: Origin, segments: Vec<Segment>) -> Comparable
    ensures { comparable_view result ≡ single (path (origin_view origin) (segments_view segments.items)) }
{
    Comparable::Single(Path { origin, segments })
}

/// A call of a function with these arguments.
pub(crate) fn call_of(name: String, arguments: Vec<Argument>) -> Call
    ensures { call_view result ≡ call (chars (string_bytes name)) (arguments_view arguments.items) }
{
    Call { name, arguments }
}

/// A call as a test.
#[inline(never)]
pub(crate) fn test_of(alloc: Global, call: Call) -> Result<Box<Logical>, AllocError>
    ensures { IfOk result (λ l. logical_view l.value ≡ test (call_view call)) }
{
    Ok(Box::new(alloc, Logical::Test(call))?)
}

/// A call as a side of a comparison.
pub(crate) fn side_of(call: Call) -> Comparable
    ensures { comparable_view result ≡ result_side (call_view call) }
{
    Comparable::Result(call)
}

/// An expression that is true where this one is not.
#[inline(never)]
pub(crate) fn not_of(alloc: Global, inner: Box<Logical>) -> Result<Box<Logical>, AllocError>
    ensures { IfOk result (λ l. logical_view l.value ≡ negated (logical_view inner.value)) }
{
    Ok(Box::new(alloc, Logical::Not(inner))?)
}

/// A query or a call alone is an argument as it is, and any other expression is a condition.
#[inline(never)]
pub(crate) fn argument_of(alloc: Global, expression: Parsed) -> Result<Argument, AllocError>
    ensures { IfOk result (λ a. argument_view a ≡ argument_of (parsed_view expression)) }
{
    if !expression.is_bare {
        return Ok(Argument::Condition(expression.logical));
    }
    match Box::into_inner(expression.logical) {
        Logical::Exists(path) => Ok(Argument::Nodes(path)),
        Logical::Test(call) => Ok(Argument::Result(call)),
        condition => Ok(Argument::Condition(Box::new(alloc, condition)?)),
    }
}

/// Adds an expression as an argument.
#[inline(never)]
pub(crate) fn push_expression(
    alloc: Global,
    all: &mut Vec<Argument>,
    expression: Parsed,
) -> Result<(), AllocError>
    ensures { OnOk result (map argument_view all.new.items ≡ map argument_view all.old.items ++ argument_of (parsed_view expression) ∷ []) }
{
    all.push(argument_of(alloc, expression)?)?;
    Ok(())
}

/// What stands between the parts of an expression.
#[derive(Clone, Copy)]
pub(crate) enum Connective {
    And,
    Or,
}

/// One part stands for itself, and several are put together.
#[inline(never)]
pub(crate) fn joined(
    alloc: Global,
    connective: Connective,
    first: Parsed,
    others: Vec<Logical>,
) -> Result<Parsed, AllocError>
    ensures { IfOk result (λ e. parsed_view e ≡ (first.is_bare && is_alone (logicals_view others.items), joined_by connective (logical_view first.logical.value) (logicals_view others.items))) }
{
    if others.is_empty() {
        return Ok(first);
    }
    let mut parts = others;
    parts.insert(0, Box::into_inner(first.logical))?;
    let logical = match connective {
        Connective::And => Logical::And(parts),
        Connective::Or => Logical::Or(parts),
    };
    Ok(Parsed {
        is_bare: false,
        logical: Box::new(alloc, logical)?,
    })
}
