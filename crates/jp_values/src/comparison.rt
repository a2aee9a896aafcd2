//! Comparisons of values and of Nothing.

ghost use Rattle.std.specs.Prelude.{◌≡◌, IsTrue, IfOk};
ghost use Rattle.jp_model.specs.Json.Tree.{value_of};
ghost use Rattle.jp_model.specs.Meaning.Compare.{value_less, both_equal as both_equal_values, is_less as is_less_value, compared};
ghost use Rattle.jp_syntax.specs.View.{op_view};
ghost use Rattle.jp_nodes.specs.Cursors.{node_of};
ghost use Rattle.jp_values.specs.Values.{value_view, is_sound_value};

use crate::equality::equal;
use crate::equality_in::equal_in;
use crate::scalar::Scalar;
use crate::value::Value;
use jp_nodes::Cursor;
use jp_syntax::CompareOp;
use std::alloc::{AllocError, Global};

/// Whether the value of the first node is less: both are numbers or both strings, numbers by their exact value and
/// strings by their scalars, a proper prefix being less (RFC 9535, section 2.3.5.2.2). It allocates nothing.
pub fn less(left: Cursor<'_>, right: Cursor<'_>) -> bool
    ensures { result ≡ value_less (value_of (node_of left.entry).tree) (value_of (node_of right.entry).tree) }
{
    Scalar::of_node(left).is_less(&Scalar::of_node(right))
}

/// Whether both sides are Nothing, or equal values.
#[inline(always)]
fn both_equal(left: Value<'_>, right: Value<'_>) -> bool
    requires left { IsTrue (is_sound_value left) }
    requires right { IsTrue (is_sound_value right) }
    ensures { result ≡ both_equal_values (value_view left.entry) (value_view right.entry) }
{
    match (left, right) {
        (Value::Node(node), Value::Node(other)) => equal(node, other),
        (Value::Nothing, Value::Nothing) => true,
        _ => Scalar::of_value(left).equal(&Scalar::of_value(right)),
    }
}

/// Whether both sides are values, and the first is less.
#[inline(always)]
fn is_less(left: Value<'_>, right: Value<'_>) -> bool
    requires left { IsTrue (is_sound_value left) }
    requires right { IsTrue (is_sound_value right) }
    ensures { result ≡ is_less_value (value_view left.entry) (value_view right.entry) }
{
    Scalar::of_value(left).is_less(&Scalar::of_value(right))
}

/// Whether a comparison of two sides holds (RFC 9535, section 2.3.5.2.2).
///
/// Nothing equals Nothing alone, and is neither less nor greater than anything. `<=` is `<` or `==`. It allocates nothing.
/// A number that is written in the query is spelled as RFC 8259, section 6, has it, its exponent is not too long, and
/// it has at most 4,294,967,295 bytes.
pub fn compare(op: CompareOp, left: Value<'_>, right: Value<'_>) -> bool
    requires left { IsTrue (is_sound_value left) }
    requires right { IsTrue (is_sound_value right) }
    ensures { result ≡ compared (op_view op) (value_view left.entry) (value_view right.entry) }
{
    match op {
        CompareOp::Equal => both_equal(left, right),
        CompareOp::NotEqual => !both_equal(left, right),
        CompareOp::Less => is_less(left, right),
        CompareOp::LessEqual => is_less(left, right) || both_equal(left, right),
        CompareOp::Greater => is_less(right, left),
        CompareOp::GreaterEqual => is_less(right, left) || both_equal(left, right),
    }
}

/// Whether both sides are Nothing, or equal values. It may take memory for large objects.
#[inline(always)]
fn both_equal_in(alloc: Global, left: Value<'_>, right: Value<'_>) -> Result<bool, AllocError>
    requires left { IsTrue (is_sound_value left) }
    requires right { IsTrue (is_sound_value right) }
    ensures { IfOk result (λ b. b ≡ both_equal_values (value_view left.entry) (value_view right.entry)) }
{
    match (left, right) {
        (Value::Node(node), Value::Node(other)) => equal_in(alloc, node, other),
        _ => Ok(both_equal(left, right)),
    }
}

/// What `compare` answers. Where two large objects are compared whose members are in different orders it allocates,
/// and its time is that of a sort, not the square of their number.
pub fn compare_in(
    alloc: Global,
    op: CompareOp,
    left: Value<'_>,
    right: Value<'_>,
) -> Result<bool, AllocError>
    requires left { IsTrue (is_sound_value left) }
    requires right { IsTrue (is_sound_value right) }
    ensures { IfOk result (λ b. b ≡ compared (op_view op) (value_view left.entry) (value_view right.entry)) }
{
    match op {
        CompareOp::Equal => both_equal_in(alloc, left, right),
        CompareOp::NotEqual => Ok(!both_equal_in(alloc, left, right)?),
        CompareOp::Less => Ok(is_less(left, right)),
        CompareOp::LessEqual => Ok(is_less(left, right) || both_equal_in(alloc, left, right)?),
        CompareOp::Greater => Ok(is_less(right, left)),
        CompareOp::GreaterEqual => Ok(is_less(right, left) || both_equal_in(alloc, left, right)?),
    }
}
