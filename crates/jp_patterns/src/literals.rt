//! The literal patterns of a query, in the order of its text.

ghost use Rattle.std.specs.Prelude.{◌≡◌, ◌++◌, OnOk, chars, option_map};
ghost use Rattle.jp_syntax.specs.View.{argument_view, arguments_view, call_view, comparable_view, literal_view, logical_view, logicals_view, segment_view, segments_view, selector_view, selectors_view};
ghost use Rattle.jp_patterns.specs.Patterns.{argument_patterns, argument_text, arguments_patterns, call_patterns, comparable_patterns, literal_text, logical_patterns, logicals_patterns, own_pattern, second_text, segment_patterns, segments_patterns, selector_patterns, selectors_patterns, takes_pattern, texts_of};

use jp_syntax::{Argument, Call, Comparable, Literal, Logical, Segment, Selector};
use std::alloc::AllocError;

/// Adds the patterns in segments.
#[cycle(patterns)]
pub(crate) fn add_segments<'q>(
    segments: &'q [Segment],
    found: &mut Vec<&'q str>,
) -> Result<(), AllocError>
    ensures { OnOk result (texts_of found.new.items ≡ texts_of found.old.items ++ segments_patterns (segments_view segments.now)) }
{
    for segment in segments {
        add_segment(segment, found)?;
    }
    Ok(())
}

/// Adds the patterns in a segment.
#[cycle(patterns)]
fn add_segment<'q>(segment: &'q Segment, found: &mut Vec<&'q str>) -> Result<(), AllocError>
    ensures { OnOk result (texts_of found.new.items ≡ texts_of found.old.items ++ segment_patterns (segment_view segment.now)) }
{
    match segment {
        Segment::Child(selectors) => add_selectors(selectors, found),
        Segment::Descendant(selectors) => add_selectors(selectors, found),
    }
}

/// Adds the patterns in selectors.
#[cycle(patterns)]
fn add_selectors<'q>(selectors: &'q [Selector], found: &mut Vec<&'q str>) -> Result<(), AllocError>
    ensures { OnOk result (texts_of found.new.items ≡ texts_of found.old.items ++ selectors_patterns (selectors_view selectors.now)) }
{
    for selector in selectors {
        add_selector(selector, found)?;
    }
    Ok(())
}

/// Adds the patterns in a selector.
#[cycle(patterns)]
fn add_selector<'q>(selector: &'q Selector, found: &mut Vec<&'q str>) -> Result<(), AllocError>
    ensures { OnOk result (texts_of found.new.items ≡ texts_of found.old.items ++ selector_patterns (selector_view selector.now)) }
{
    match selector {
        Selector::Filter(condition) => add_logical(condition, found),
        _ => Ok(()),
    }
}

/// Adds the patterns in an expression.
#[cycle(patterns)]
pub(crate) fn add_logical<'q>(
    condition: &'q Logical,
    found: &mut Vec<&'q str>,
) -> Result<(), AllocError>
    ensures { OnOk result (texts_of found.new.items ≡ texts_of found.old.items ++ logical_patterns (logical_view condition.now)) }
{
    match condition {
        Logical::Or(parts) => add_logicals(parts, found),
        Logical::And(parts) => add_logicals(parts, found),
        Logical::Not(inner) => add_logical(inner, found),
        Logical::Compare { left, op: _, right } => {
            add_comparable(left, found)?;
            add_comparable(right, found)
        }
        Logical::Exists(path) => add_segments(&path.segments, found),
        Logical::Test(call) => add_call(call, found),
    }
}

/// Adds the patterns in the operands of `||` or `&&`.
#[cycle(patterns)]
fn add_logicals<'q>(parts: &'q [Logical], found: &mut Vec<&'q str>) -> Result<(), AllocError>
    ensures { OnOk result (texts_of found.new.items ≡ texts_of found.old.items ++ logicals_patterns (logicals_view parts.now)) }
{
    for part in parts {
        add_logical(part, found)?;
    }
    Ok(())
}

/// Adds the patterns in a side of a comparison.
#[cycle(patterns)]
fn add_comparable<'q>(side: &'q Comparable, found: &mut Vec<&'q str>) -> Result<(), AllocError>
    ensures { OnOk result (texts_of found.new.items ≡ texts_of found.old.items ++ comparable_patterns (comparable_view side.now)) }
{
    match side {
        Comparable::Constant(_) => Ok(()),
        Comparable::Single(path) => add_segments(&path.segments, found),
        Comparable::Result(call) => add_call(call, found),
    }
}

/// Whether the second argument of the function of a name is a pattern.
fn takes_pattern(name: &str) -> bool
    ensures { result ≡ takes_pattern (chars name.now) }
{
    name == "match" || name == "search"
}

/// The text of a literal, if it is a string.
fn literal_text<'q>(literal: &'q Literal) -> Option<&'q str>
    ensures { option_map (λ text. chars text.now) result ≡ literal_text (literal_view literal.now) }
{
    match literal {
        Literal::Text(text) => Some(text.as_str()),
        _ => None,
    }
}

/// The text of an argument, if it is a string that stands in the query.
fn argument_text<'q>(argument: &'q Argument) -> Option<&'q str>
    ensures { option_map (λ text. chars text.now) result ≡ argument_text (argument_view argument.now) }
{
    match argument {
        Argument::Constant(literal) => literal_text(literal),
        _ => None,
    }
}

/// The text of the second of two arguments.
fn second_text<'q>(arguments: &'q [Argument]) -> Option<&'q str>
    ensures { option_map (λ text. chars text.now) result ≡ second_text (arguments_view arguments.now) }
{
    if arguments.len() != 2 {
        return None;
    }
    argument_text(&arguments[1])
}

/// The pattern of a call, if it stands in the query.
fn own_pattern<'q>(call: &'q Call) -> Option<&'q str>
    ensures { option_map (λ text. chars text.now) result ≡ own_pattern (call_view call.now) }
{
    if takes_pattern(&call.name) {
        second_text(&call.arguments)
    } else {
        None
    }
}

/// Adds the patterns in the arguments of a call, and its own.
#[cycle(patterns)]
fn add_call<'q>(call: &'q Call, found: &mut Vec<&'q str>) -> Result<(), AllocError>
    ensures { OnOk result (texts_of found.new.items ≡ texts_of found.old.items ++ call_patterns (call_view call.now)) }
{
    add_arguments(&call.arguments, found)?;
    match own_pattern(call) {
        Some(pattern) => Ok(found.push(pattern)?),
        None => Ok(()),
    }
}

/// Adds the patterns in arguments.
#[cycle(patterns)]
fn add_arguments<'q>(arguments: &'q [Argument], found: &mut Vec<&'q str>) -> Result<(), AllocError>
    ensures { OnOk result (texts_of found.new.items ≡ texts_of found.old.items ++ arguments_patterns (arguments_view arguments.now)) }
{
    for argument in arguments {
        add_argument(argument, found)?;
    }
    Ok(())
}

/// Adds the patterns in an argument.
#[cycle(patterns)]
fn add_argument<'q>(argument: &'q Argument, found: &mut Vec<&'q str>) -> Result<(), AllocError>
    ensures { OnOk result (texts_of found.new.items ≡ texts_of found.old.items ++ argument_patterns (argument_view argument.now)) }
{
    match argument {
        Argument::Constant(_) => Ok(()),
        Argument::Nodes(path) => add_segments(&path.segments, found),
        Argument::Condition(condition) => add_logical(condition, found),
        Argument::Result(call) => add_call(call, found),
    }
}
