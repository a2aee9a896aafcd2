//! Literals, operators, and the marks with which expressions begin (RFC 9535, section 2.3.5.1).

ghost use Rattle.std.specs.Prelude.{◌≡◌, option_map};
ghost use Rattle.jp_query.specs.Parsing.{Gives};
ghost use Rattle.jp_query.specs.Reading.Scalars.{begins};
ghost use Rattle.jp_query.specs.Reading.Literals.{is_any_quote, word_at, literal_at, operator_at, origin_at, begins_without_literal};
ghost use Rattle.jp_syntax.specs.View.{literal_view, op_view, origin_view};

use super::failure::Failure;
use super::numbers::{begins_number, number_bytes};
use super::scalars::{after, after_all, call_start};
use super::stops::at_word;
use super::strings::string;
use crate::expected::Expected;
use jp_syntax::{CompareOp, Literal, Origin};
use std::alloc::Global;

/// `true`, `false` or `null`, and what is left.
#[tactic(auto, unfolding(crate::specs::Reading::Literals::word_at))]
fn word(text: &[char]) -> Option<(Literal, &[char])>
    ensures { option_map (λ x. (literal_view x.0, x.1.now)) result ≡ word_at text.now }
{
    if let Some(rest) = after_all(text, &['t', 'r', 'u', 'e']) {
        return Some((Literal::True, rest));
    }
    if let Some(rest) = after_all(text, &['f', 'a', 'l', 's', 'e']) {
        return Some((Literal::False, rest));
    }
    let rest = after_all(text, &['n', 'u', 'l', 'l'])?;
    Some((Literal::Null, rest))
}

/// Whether a string literal begins there.
pub(crate) fn begins_string(text: &[char]) -> bool
    ensures { result ≡ begins is_any_quote text.now }
{
    after(text, '"').is_some() || after(text, '\'').is_some()
}

/// A literal, and what is left.
#[tactic(auto, unfolding(crate::specs::Reading::Literals::literal_at))]
pub(crate) fn literal(alloc: Global, text: &[char]) -> Result<(Literal, &[char]), Failure>
    ensures { Gives (λ x. (literal_view x.0, x.1.now)) result (literal_at text.now) }
{
    if begins_string(text) {
        let (spelled, rest) = string(alloc, text, Expected::Operand)?;
        return Ok((Literal::Text(spelled), rest));
    }
    if begins_number(text) {
        let (bytes, rest) = number_bytes(alloc, text)?;
        return Ok((Literal::Number(bytes), rest));
    }
    match word(text) {
        Some(found) => Ok(found),
        None => Err(Failure::Syntax(at_word(text, Expected::Operand))),
    }
}

/// An operator of a comparison, and what is left.
#[tactic(auto, unfolding(crate::specs::Reading::Literals::operator_at))]
pub(crate) fn operator(text: &[char]) -> Option<(CompareOp, &[char])>
    ensures { option_map (λ x. (op_view x.0, x.1.now)) result ≡ operator_at text.now }
{
    if let Some(rest) = after_all(text, &['=', '=']) {
        return Some((CompareOp::Equal, rest));
    }
    if let Some(rest) = after_all(text, &['!', '=']) {
        return Some((CompareOp::NotEqual, rest));
    }
    if let Some(rest) = after_all(text, &['<', '=']) {
        return Some((CompareOp::LessEqual, rest));
    }
    if let Some(rest) = after_all(text, &['>', '=']) {
        return Some((CompareOp::GreaterEqual, rest));
    }
    if let Some(rest) = after(text, '<') {
        return Some((CompareOp::Less, rest));
    }
    let rest = after(text, '>')?;
    Some((CompareOp::Greater, rest))
}

/// The mark with which a query begins, and what is left.
#[tactic(auto, unfolding(crate::specs::Reading::Literals::origin_at))]
pub(crate) fn origin(text: &[char]) -> Option<(Origin, &[char])>
    ensures { option_map (λ x. (origin_view x.0, x.1.now)) result ≡ origin_at text.now }
{
    if let Some(rest) = after(text, '@') {
        return Some((Origin::Current, rest));
    }
    let rest = after(text, '$')?;
    Some((Origin::Root, rest))
}

/// Whether an expression that is there begins with no literal.
#[tactic(auto, unfolding(crate::specs::Reading::Literals::begins_without_literal))]
pub(crate) fn begins_without_literal(text: &[char]) -> bool
    ensures { result ≡ begins_without_literal text.now }
{
    after(text, '!').is_some()
        || after(text, '(').is_some()
        || origin(text).is_some()
        || call_start(text).is_some()
}
