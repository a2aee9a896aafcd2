//! String literals (RFC 9535, section 2.3.1.1).

ghost use Rattle.std.specs.Prelude.{◌≡◌, ◌<◌, if◌then◌else◌, IsTrue, Some, None, IfSome, option_map, chars, string_bytes};
ghost use Rattle.std.specs.Char.{is_digit, digit_value};
ghost use Rattle.jp_model.specs.Characters.{four_digits, pair_value, is_surrogate, is_high_surrogate, is_low_surrogate};
ghost use Rattle.jp_query.specs.Parsing.{Gives};
ghost use Rattle.jp_query.specs.Reading.Strings.{hex4, low_half, hex_scalar, escaped_letter, escape_at, next_scalar, between_quotes, string_at};

use super::failure::{Failure, Stop};
use super::scalars::{after, push_scalar};
use super::stops::within_quotes;
use crate::expected::Expected;
use std::alloc::Global;

/// The value of a hexadecimal digit.
fn hex_value(digit: char) -> u32
    requires { IsTrue (is_digit digit 16) }
    ensures value { result ≡ digit_value digit }
    ensures small { result < 16 }
{
    match digit.to_digit(16) {
        Some(value) => value,
        None => 0,
    }
}

/// The value of four hexadecimal digits.
fn four_digits(a: char, b: char, c: char, d: char) -> Option<u32>
    ensures value { result ≡ four_digits a b c d }
    ensures small { IfSome result (λ n. n < 65536) }
{
    if a.is_digit(16) && b.is_digit(16) && c.is_digit(16) && d.is_digit(16) {
        return Some(hex_value(a) * 4096 + hex_value(b) * 256 + hex_value(c) * 16 + hex_value(d));
    }
    None
}

/// Four hexadecimal digits, with their value, and what is left.
#[tactic(auto, unfolding(crate::specs::Reading::Strings::hex4))]
fn hex4(text: &[char]) -> Option<(u32, &[char])>
    ensures value { option_map (λ x. (x.0, x.1.now)) result ≡ hex4 text.now }
    ensures small { IfSome result (λ x. x.0 < 65536) }
{
    let [a, b, c, d, rest @ ..] = text else {
        return None;
    };
    match four_digits(*a, *b, *c, *d) {
        Some(value) => Some((value, rest)),
        None => None,
    }
}

/// The scalar of a high half and a low half of a surrogate pair.
fn pair(high: u32, low: u32) -> char
    requires high { IsTrue (is_high_surrogate high) }
    requires low { IsTrue (is_low_surrogate low) }
    ensures { result ≡ pair_value high low }
{
    match char::from_u32(0x1_0000 + (high - 0xD800) * 0x400 + (low - 0xDC00)) {
        Some(scalar) => scalar,
        None => '\0',
    }
}

/// The scalar of a high half of a surrogate pair and the low half that is spelled there, and what is left.
#[tactic(auto, unfolding(crate::specs::Reading::Strings::low_half))]
fn low_half(text: &[char], high: u32) -> Option<(char, &[char])>
    requires { IsTrue (is_high_surrogate high) }
    ensures { option_map (λ x. (x.0, x.1.now)) result ≡ low_half high text.now }
{
    let rest = after(text, '\\')?;
    let rest = after(rest, 'u')?;
    let (low, rest) = hex4(rest)?;
    if low >= 0xDC00 && low < 0xE000 {
        return Some((pair(high, low), rest));
    }
    None
}

/// The scalar of this number, where it is not half of a surrogate pair.
fn unit_scalar(unit: u32) -> Option<char>
    requires { unit < 65536 }
    ensures { result ≡ (if is_surrogate unit then None else Some unit) }
{
    char::from_u32(unit)
}

/// The scalar that is spelled after `\u`, and what is left.
#[tactic(auto, unfolding(crate::specs::Reading::Strings::hex_scalar))]
fn hex_scalar(text: &[char]) -> Option<(char, &[char])>
    ensures { option_map (λ x. (x.0, x.1.now)) result ≡ hex_scalar text.now }
{
    let (unit, rest) = hex4(text)?;
    if unit >= 0xD800 && unit < 0xDC00 {
        return low_half(rest, unit);
    }
    match unit_scalar(unit) {
        Some(scalar) => Some((scalar, rest)),
        None => None,
    }
}

/// The scalar that a letter after a backslash spells.
fn escaped_letter(letter: char) -> Option<char>
    ensures { result ≡ escaped_letter letter }
{
    match letter {
        'b' => Some('\u{8}'),
        'f' => Some('\u{C}'),
        'n' => Some('\n'),
        'r' => Some('\r'),
        't' => Some('\t'),
        '/' => Some('/'),
        '\\' => Some('\\'),
        _ => None,
    }
}

/// The scalar that is spelled after a backslash, between two quotes of a kind, and what is left.
#[tactic(auto, unfolding(crate::specs::Reading::Strings::escape_at))]
pub(super) fn escape(text: &[char], quote: char) -> Option<(char, &[char])>
    ensures { option_map (λ x. (x.0, x.1.now)) result ≡ escape_at quote text.now }
{
    let [letter, rest @ ..] = text else {
        return None;
    };
    if *letter == quote {
        return Some((quote, rest));
    }
    if *letter == 'u' {
        return hex_scalar(rest);
    }
    let scalar = escaped_letter(*letter)?;
    Some((scalar, rest))
}

/// The next scalar between two quotes of a kind, and what is left; none in front of the second quote.
#[tactic(auto, unfolding(crate::specs::Reading::Strings::next_scalar))]
fn next_scalar(text: &[char], quote: char) -> Option<Option<(char, &[char])>>
    ensures { option_map (option_map (λ x. (x.0, x.1.now))) result ≡ next_scalar quote text.now }
{
    let [first, rest @ ..] = text else {
        return None;
    };
    if *first == quote {
        return Some(None);
    }
    if *first == '\\' {
        let (scalar, rest) = escape(rest, quote)?;
        return Some(Some((scalar, rest)));
    }
    if *first < ' ' {
        return None;
    }
    Some(Some((*first, rest)))
}

/// What is spelled after the first of two quotes of a kind, and what is left after the second.
#[tactic(auto, unfolding(crate::specs::Reading::Strings::between_quotes))]
fn between_quotes(alloc: Global, text: &[char], quote: char) -> Result<(String, &[char]), Failure>
    ensures { Gives (λ x. (chars (string_bytes x.0), x.1.now)) result (between_quotes quote text.now) }
{
    let mut spelled = String::new(alloc);
    let mut rest = text;
    for _ in 0..text.len() {
        let Some(next) = next_scalar(rest, quote) else {
            return Err(Failure::Syntax(within_quotes(rest, quote)));
        };
        let Some((scalar, others)) = next else {
            break;
        };
        push_scalar(&mut spelled, scalar)?;
        rest = others;
    }
    match after(rest, quote) {
        Some(rest) => Ok((spelled, rest)),
        None => Err(Failure::Syntax(Stop::at(rest, Expected::Quote))),
    }
}

/// What a string literal spells, and what is left. Where none begins, this was expected.
#[tactic(auto, unfolding(crate::specs::Reading::Strings::string_at))]
pub(crate) fn string(
    alloc: Global,
    text: &[char],
    expected: Expected,
) -> Result<(String, &[char]), Failure>
    ensures { Gives (λ x. (chars (string_bytes x.0), x.1.now)) result (string_at text.now) }
{
    if let Some(rest) = after(text, '"') {
        return between_quotes(alloc, rest, '"');
    }
    match after(text, '\'') {
        Some(rest) => between_quotes(alloc, rest, '\''),
        None => Err(Failure::Syntax(Stop::at(text, expected))),
    }
}
