//! Comparisons of a node with a number or a text of the query. Most filters make these, so no side of them is copied.

ghost use Rattle.std.specs.Prelude.{◌≡◌, chars};
ghost use Rattle.jp_decimal.specs.Decimals.{number_of};
ghost use Rattle.jp_model.specs.Json.Tree.{value_of};
ghost use Rattle.jp_syntax.specs.View.{op_view};
ghost use Rattle.jp_nodes.specs.Cursors.{node_of};
ghost use Rattle.jp_values.specs.Constants.{holds_at, holds_apart as holds_apart_at, compared_with_number, compared_with_text};

use jp_decimal::{Decimal, laws};
use jp_nodes::Cursor;
use jp_strings::{compare_text, spells};
use jp_syntax::CompareOp;
use std::cmp::Ordering;

/// Whether an operator holds where the first side is so ordered against the second.
#[inline(always)]
fn is_asked_for(op: CompareOp, order: Ordering) -> bool
    ensures { result ≡ holds_at (op_view op) order }
{
    match op {
        CompareOp::Equal => order.is_eq(),
        CompareOp::NotEqual => order.is_ne(),
        CompareOp::Less => order.is_lt(),
        CompareOp::LessEqual => order.is_le(),
        CompareOp::Greater => order.is_gt(),
        CompareOp::GreaterEqual => order.is_ge(),
    }
}

/// Whether an operator holds of two values of different kinds, which are not equal, and neither is less than the other.
#[inline(always)]
fn holds_apart(op: CompareOp) -> bool
    ensures { result ≡ holds_apart_at (op_view op) }
{
    matches!(op, CompareOp::NotEqual)
}

/// What `compare` answers of a node and a number that was read (RFC 9535, section 2.3.5.2.2). It allocates nothing.
pub fn compare_with_number(op: CompareOp, node: Cursor<'_>, number: &Decimal<'_>) -> bool
    ensures { result ≡ compared_with_number (op_view op) (value_of (node_of node.entry).tree) (number_of number.now) }
{
    laws::values_are_in_total_order();
    match node.number() {
        Some(own) => is_asked_for(op, own.compare(number)),
        None => holds_apart(op),
    }
}

/// What `compare` answers of a node and a text (RFC 9535, section 2.3.5.2.2). It allocates nothing.
pub fn compare_with_text(op: CompareOp, node: Cursor<'_>, text: &str) -> bool
    ensures { result ≡ compared_with_text (op_view op) (value_of (node_of node.entry).tree) (chars text.now) }
{
    let Some(body) = node.text() else {
        return holds_apart(op);
    };
    match op {
        CompareOp::Equal => spells(body, text),
        CompareOp::NotEqual => !spells(body, text),
        _ => is_asked_for(op, compare_text(body, text)),
    }
}
