//! Parts of the text that explains a plan.

ghost use Rattle.std.specs.Prelude.{◌≡◌, ◌++◌, OnOk, decimal, encode_utf8_all, true};
ghost use Rattle.jp_model.specs.Meaning.Paths.{literal_text, op_text as op_scalars};
ghost use Rattle.jp_syntax.specs.Sound.{is_sound};
ghost use Rattle.jp_syntax.specs.View.{literal_view, op_view};

use itoa::Buffer;
use jp_rows::QueryPart;
use jp_syntax::{CompareOp, Literal};
use std::alloc::AllocError;

/// Appends a number in decimal to a text.
pub(crate) fn push_decimal(number: usize, out: &mut Vec<u8>) -> Result<(), AllocError>
    ensures { OnOk result (out.new.items ≡ out.old.items ++ encode_utf8_all (decimal number)) }
{
    let mut digits = Buffer::new();
    out.extend_from_slice(digits.format(number).as_bytes())
}

/// An operator as it is written (RFC 9535, section 2.3.5.1).
pub(crate) fn op_text(op: CompareOp) -> &'static [u8]
    ensures { result.now ≡ op_scalars (op_view op) }
{
    match op {
        CompareOp::Equal => b"==",
        CompareOp::NotEqual => b"!=",
        CompareOp::Less => b"<",
        CompareOp::LessEqual => b"<=",
        CompareOp::Greater => b">",
        CompareOp::GreaterEqual => b">=",
    }
}

/// Appends a literal to a text: a number as the query spells it, and a string between single quotes.
pub(crate) fn push_literal(literal: &Literal, out: &mut Vec<u8>) -> Result<(), AllocError>
    requires { is_sound (literal_view literal.now) ≡ true }
    ensures { OnOk result (out.new.items ≡ out.old.items ++ encode_utf8_all (literal_text (literal_view literal.now))) }
{
    match literal {
        Literal::Null => out.extend_from_slice(b"null"),
        Literal::False => out.extend_from_slice(b"false"),
        Literal::True => out.extend_from_slice(b"true"),
        Literal::Number(spelling) => out.extend_from_slice(spelling),
        Literal::Text(text) => QueryPart::Quoted(text).push_to(out),
    }
}
