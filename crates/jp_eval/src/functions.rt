//! The functions of filters (RFC 9535, section 2.4).

ghost use Rattle.std.specs.Prelude.{◌≡◌, length, Some, IfOk, IsTrue, option_map};
ghost use Rattle.std.specs.Str.{chars};
ghost use Rattle.jp_model.specs.Json.Tree.{value_of};
ghost use Rattle.jp_model.specs.Meaning.Functions.{length_of as length_of_value};
ghost use Rattle.jp_nodes.specs.Cursors.{node_of};
ghost use Rattle.jp_eval.specs.Functions.{passing, pattern_in, passes_as_string, passes_where_read};
ghost use Rattle.jp_iregexp.specs.Trees.{pattern_view};
ghost use Rattle.jp_strings.specs.Points.{IsText, points_of};
ghost use Rattle.jp_values.specs.Values.{value_view, is_sound_value};

use crate::Result;
use jp_iregexp::Pattern;
use jp_nodes::{Cursor, Kind};
use jp_strings::{plain_text, scalar_count, unescape};
use jp_syntax::Literal;
use jp_values::Value;
use std::alloc::Global;

/// How many scalars a text has.
fn count_scalars(text: &str) -> u64
    ensures { result ≡ length (chars text.now) }
{
    text.chars().count() as u64
}

/// How long a node's value is: scalars of a string, elements or members (RFC 9535, section 2.4.4).
fn length_of_node<'v>(node: Cursor<'_>) -> Value<'v>
    ensures sound { IsTrue (is_sound_value result) }
    ensures value { value_view result ≡ length_of_value (Some (value_of (node_of node.entry).tree)) }
{
    if let Some(body) = node.text() {
        return Value::Count(u64::from(scalar_count(body)));
    }
    match node.kind() {
        Kind::Array | Kind::Object => Value::Count(u64::from(node.child_count())),
        _ => Value::Nothing,
    }
}

/// How long a value is (RFC 9535, section 2.4.4).
pub(crate) fn length_of<'v>(value: Value<'_>) -> Value<'v>
    ensures sound { IsTrue (is_sound_value result) }
    ensures value { value_view result ≡ length_of_value (value_view value.entry) }
{
    match value {
        Value::Node(node) => length_of_node(node),
        Value::Constant(Literal::Text(text)) => Value::Count(count_scalars(text.as_str())),
        _ => Value::Nothing,
    }
}

/// Whether a text passes a pattern: all of it, or a part of it.
#[inline(always)]
fn text_passes(alloc: Global, pattern: &Pattern, whole: bool, text: &str) -> Result<bool>
    ensures { IfOk result (λ b. b ≡ passing whole (pattern_view pattern.now) (chars text.now)) }
{
    if whole {
        pattern.matches(alloc, text)
    } else {
        pattern.occurs(alloc, text)
    }
}

/// Whether the text that a body with an escape spells passes a pattern.
#[inline(never)]
fn escaped_passes(alloc: Global, pattern: &Pattern, whole: bool, body: &[u8]) -> Result<bool>
    requires { IsText body.now }
    ensures { IfOk result (λ b. b ≡ passing whole (pattern_view pattern.now) (points_of body.now)) }
{
    text_passes(alloc, pattern, whole, unescape(alloc, body)?.as_str())
}

/// The pattern that a string spells.
pub(crate) fn read_pattern(alloc: Global, value: Value<'_>) -> Result<Option<Pattern>>
    ensures { IfOk result (λ found. option_map pattern_view found ≡ pattern_in (value_view value.entry)) }
{
    match value {
        Value::Node(node) => match node.text() {
            Some(body) => Pattern::parse(alloc, unescape(alloc, body)?.as_str()),
            None => Ok(None),
        },
        Value::Constant(Literal::Text(text)) => Pattern::parse(alloc, text.as_str()),
        _ => Ok(None),
    }
}

/// Whether the value of a node is a string that passes a pattern: all of it, or a part of it. It is copied only where it has an
/// escape.
#[inline(always)]
fn node_passes(alloc: Global, pattern: &Pattern, whole: bool, node: Cursor<'_>) -> Result<bool>
    ensures { IfOk result (λ b. b ≡ passes_as_string (passing whole) (pattern_view pattern.now) (Some (value_of (node_of node.entry).tree))) }
{
    let Some(body) = node.text() else {
        return Ok(false);
    };
    match plain_text(body) {
        Some(text) => text_passes(alloc, pattern, whole, text),
        None => escaped_passes(alloc, pattern, whole, body),
    }
}

/// Whether the value is a string that passes the pattern that was read, if there is one.
#[inline(always)]
pub(crate) fn read_passes(
    alloc: Global,
    read: &Option<Pattern>,
    whole: bool,
    value: Value<'_>,
) -> Result<bool>
    ensures { IfOk result (λ b. b ≡ passes_where_read (passing whole) (option_map pattern_view read.now) (value_view value.entry)) }
{
    let Some(pattern) = read else {
        return Ok(false);
    };
    match value {
        Value::Node(node) => node_passes(alloc, pattern, whole, node),
        Value::Constant(Literal::Text(text)) => text_passes(alloc, pattern, whole, text.as_str()),
        _ => Ok(false),
    }
}
