//! Integers, and numbers as they are spelled.

ghost use Rattle.std.specs.Prelude.{◌≡◌, pos, option_map};
ghost use Rattle.jp_model.specs.Characters.{digits_value, is_digit};
ghost use Rattle.jp_query.specs.Integers.{clamp};
ghost use Rattle.jp_query.specs.Parsing.{Gives, is_member};
ghost use Rattle.jp_query.specs.Reading.Numbers.{is_int_first, int_at, int_digits, minus, fraction, sign, exponent_behind, exponent, number_at};
ghost use Rattle.jp_query.specs.Reading.Scalars.{begins, first_and_run};

use super::class::Class;
use super::failure::{Failure, Stop};
use super::scalars::{after, begins_with, first_and_run};
use crate::expected::Expected;
use std::alloc::Global;

/// The first integer above the exact ones (RFC 9535, section 2.1).
const ABOVE_EXACT: u64 = 9_007_199_254_740_992;

/// Whether an integer or a number begins there.
pub(crate) fn begins_number(text: &[char]) -> bool
    ensures { result ≡ begins is_int_first text.now }
{
    begins_with(text, Class::Digit) || after(text, '-').is_some()
}

/// Digits, the first one of a class, and what is left.
fn digits(text: &[char], first: Class) -> Result<(&[char], &[char]), Failure>
    ensures { Gives (λ x. (x.0.now, x.1.now)) result (first_and_run (is_member first) is_digit text.now) }
{
    match first_and_run(text, first, Class::Digit) {
        Some(found) => Ok(found),
        None => Err(Failure::Syntax(Stop::at(text, Expected::Digit))),
    }
}

/// The value of some digits, or the first integer above the exact ones where it is greater.
fn clamped(digits: &[char]) -> i64
    ensures { result ≡ clamp (pos (digits_value digits.now)) }
{
    let mut value: u64 = 0;
    for c in digits {
        let next = value * 10 + (*c as u64).saturating_sub('0' as u64);
        value = if next < ABOVE_EXACT {
            next
        } else {
            ABOVE_EXACT
        };
    }
    value as i64
}

/// An integer, brought to one step outside the exact ones where it is farther from them, and what is left (RFC 9535,
/// section 2.3.3.1).
#[tactic(auto, unfolding(crate::specs::Reading::Numbers::int_at, crate::specs::Reading::Numbers::positive))]
pub(crate) fn int(text: &[char]) -> Result<(i64, &[char]), Failure>
    ensures { Gives (λ x. (x.0, x.1.now)) result (int_at clamp text.now) }
{
    if let Some(rest) = after(text, '0') {
        return Ok((0, rest));
    }
    if let Some(rest) = after(text, '-') {
        let (digits, rest) = digits(rest, Class::PositiveDigit)?;
        return Ok((-clamped(digits), rest));
    }
    let (digits, rest) = digits(text, Class::PositiveDigit)?;
    Ok((clamped(digits), rest))
}

/// After the digits of an integer.
#[tactic(auto, unfolding(crate::specs::Reading::Numbers::int_digits, crate::specs::Reading::Numbers::positive))]
fn behind_int(text: &[char]) -> Result<&[char], Failure>
    ensures { Gives (λ r. r.now) result (option_map (λ r. r.1) (int_digits text.now)) }
{
    if let Some(rest) = after(text, '0') {
        return Ok(rest);
    }
    let (_, rest) = digits(text, Class::PositiveDigit)?;
    Ok(rest)
}

/// After a point and its digits, if there is a point.
#[tactic(auto, unfolding(crate::specs::Reading::Numbers::fraction, crate::specs::Reading::Numbers::some_digits))]
fn behind_fraction(text: &[char]) -> Result<&[char], Failure>
    ensures { Gives (λ r. r.now) result (option_map (λ r. r.1) (fraction text.now)) }
{
    let Some(rest) = after(text, '.') else {
        return Ok(text);
    };
    let (_, rest) = digits(rest, Class::Digit)?;
    Ok(rest)
}

/// After a sign, if there is one.
#[tactic(auto, unfolding(crate::specs::Reading::Numbers::sign))]
fn behind_sign(text: &[char]) -> &[char]
    ensures { result.now ≡ (sign text.now).1 }
{
    if let Some(rest) = after(text, '+') {
        return rest;
    }
    match after(text, '-') {
        Some(rest) => rest,
        None => text,
    }
}

/// After an exponent, where one begins there.
#[tactic(auto, unfolding(crate::specs::Reading::Numbers::exponent, crate::specs::Reading::Numbers::exponent_behind, crate::specs::Reading::Numbers::some_digits))]
fn behind_exponent(text: &[char]) -> Result<&[char], Failure>
    ensures { Gives (λ r. r.now) result (option_map (λ r. r.1) (exponent text.now)) }
{
    if let Some(rest) = after(text, 'e') {
        let (_, rest) = digits(behind_sign(rest), Class::Digit)?;
        return Ok(rest);
    }
    if let Some(rest) = after(text, 'E') {
        let (_, rest) = digits(behind_sign(rest), Class::Digit)?;
        return Ok(rest);
    }
    Ok(text)
}

/// After a minus, if there is one.
#[tactic(auto, unfolding(crate::specs::Reading::Numbers::minus))]
fn behind_minus(text: &[char]) -> &[char]
    ensures { result.now ≡ (minus text.now).1 }
{
    match after(text, '-') {
        Some(rest) => rest,
        None => text,
    }
}

/// After a number.
#[tactic(auto, unfolding(crate::specs::Reading::Numbers::number_at))]
fn behind_number(text: &[char]) -> Result<&[char], Failure>
    ensures { Gives (λ r. r.now) result (option_map (λ r. r.1) (number_at text.now)) }
{
    let rest = behind_int(behind_minus(text))?;
    let rest = behind_fraction(rest)?;
    behind_exponent(rest)
}

/// The spelling of a number, and what is left (RFC 9535, section 2.3.5.1).
fn number(text: &[char]) -> Result<(&[char], &[char]), Failure>
    ensures { Gives (λ x. (x.0.now, x.1.now)) result (number_at text.now) }
{
    let rest = behind_number(text)?;
    Ok(text.split_at(text.len() - rest.len()))
}

/// A number as the bytes that spell it, and what is left (RFC 9535, section 2.3.5.1).
pub(crate) fn number_bytes(alloc: Global, text: &[char]) -> Result<(Vec<u8>, &[char]), Failure>
    ensures { Gives (λ x. (x.0.items, x.1.now)) result (number_at text.now) }
{
    let (spelling, rest) = number(text)?;
    let mut bytes = Vec::with_capacity(alloc, spelling.len())?;
    for c in spelling {
        bytes.push(*c as u8)?;
    }
    Ok((bytes, rest))
}
