//! Values whose source is their canonical text.

ghost use Rattle.std.specs.Prelude.{◌≡◌, ◌≢◌, ◌≤◌, IfSome, IsTrue, length, true};
ghost use Rattle.std.specs.List.{list_all, slice_index_or};
ghost use Rattle.jp_canon.specs.Canonical.{value_text};
ghost use Rattle.jp_model.specs.Characters.{is_digit as is_digit_byte};
ghost use Rattle.jp_model.specs.Json.Tree.{value_of};
ghost use Rattle.jp_nodes.specs.Cursors.{node_of};
ghost use Rattle.jp_nodes.specs.Kinds.{kind_of};
ghost use Rattle.jp_nodes.specs.declared.Kind.TheVariants as kinds;

use jp_nodes::{Cursor, Kind};
use jp_strings::is_plain;

/// A whole number with more digits has an exponent in canonical form (RFC 8785, section 3.2.2.3).
const MOST_DIGITS: usize = 21;

/// The source of a string where each character stands for itself there.
fn plain_source<'a>(string: Cursor<'a>) -> Option<&'a [u8]>
    requires { kind_of (value_of (node_of string).tree) ≡ kinds.Text }
    ensures { IfSome result (λ source. source.now ≡ value_text (value_of (node_of string.entry).tree)) }
{
    let (line, span) = (string.line(), string.span());
    if is_plain(&line[span.start as usize + 1..span.end as usize - 1]) {
        Some(string.source())
    } else {
        None
    }
}

/// Whether a byte is an ASCII digit.
fn is_digit(byte: u8) -> bool
    ensures { result ≡ is_digit_byte byte }
{
    byte >= b'0' && byte <= b'9'
}

/// Whether all bytes are digits.
fn are_digits(bytes: &[u8]) -> bool
    ensures { result ≡ list_all is_digit_byte bytes.now }
{
    bytes.iter().all(|byte| is_digit(*byte))
}

/// Whether a number is seen to be whole, above zero and written without an exponent in canonical form.
fn is_whole(source: &[u8]) -> bool
    ensures digits { IsTrue result → list_all is_digit_byte source.now ≡ true }
    ensures first { IsTrue result → slice_index_or source.now 0 0x30 ≢ 0x30 }
    ensures few { IsTrue result → length source.now ≤ 21 }
{
    match source.first() {
        None | Some(b'0') => false,
        Some(_) => source.len() <= MOST_DIGITS && are_digits(source),
    }
}

/// The source of a number above zero that is written by its digits alone.
fn whole_source<'a>(number: Cursor<'a>) -> Option<&'a [u8]>
    requires { kind_of (value_of (node_of number).tree) ≡ kinds.Number }
    ensures { IfSome result (λ source. source.now ≡ value_text (value_of (node_of number.entry).tree)) }
{
    let source = number.source();
    if is_whole(source) { Some(source) } else { None }
}

/// The source of a node, where it is seen to be the canonical text of its value.
pub(crate) fn canonical_source<'a>(node: Cursor<'a>) -> Option<&'a [u8]>
    ensures { IfSome result (λ source. source.now ≡ value_text (value_of (node_of node.entry).tree)) }
{
    match node.kind() {
        Kind::Text => plain_source(node),
        Kind::Number => whole_source(node),
        _ => None,
    }
}
