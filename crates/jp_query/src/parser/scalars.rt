//! Scalars and names at the front of a text.

ghost use Rattle.std.specs.Prelude.{◌≡◌, ◌++◌, [], ◌∷◌, IfOk, OnOk, option_map, chars, string_bytes};
ghost use Rattle.jp_query.specs.Parsing.{Gives, is_member};
ghost use Rattle.jp_query.specs.Reading.Scalars.{after, after_all, run, skip_blanks, begins, first_and_run, shorthand, call_start};

use super::class::Class;
use super::failure::{Failure, Stop};
use crate::expected::Expected;
use std::alloc::{AllocError, Global};

/// After a scalar, if it is at the front.
pub(crate) fn after(text: &[char], wanted: char) -> Option<&[char]>
    ensures { option_map (λ r. r.now) result ≡ after wanted text.now }
{
    match text {
        [first, rest @ ..] if *first == wanted => Some(rest),
        _ => None,
    }
}

/// After these scalars, if they are at the front.
pub(crate) fn after_all<'a>(text: &'a [char], word: &[char]) -> Option<&'a [char]>
    ensures { option_map (λ r. r.now) result ≡ after_all word.now text.now }
{
    let mut rest = text;
    for c in word {
        rest = after(rest, *c)?;
    }
    Some(rest)
}

/// Whether a scalar of the class is at the front.
pub(crate) fn begins_with(text: &[char], class: Class) -> bool
    ensures { result ≡ begins (is_member class) text.now }
{
    match text {
        [first, ..] => class.has(*first),
        [] => false,
    }
}

/// The longest run of a class in front, and what is left.
pub(crate) fn run(text: &[char], class: Class) -> (&[char], &[char])
    ensures { (result.0.now, result.1.now) ≡ run (is_member class) text.now }
{
    for (position, c) in text.iter().enumerate() {
        if !class.has(*c) {
            return text.split_at(position);
        }
    }
    text.split_at(text.len())
}

/// After blanks.
pub(crate) fn skip_blanks(text: &[char]) -> &[char]
    ensures { result.now ≡ skip_blanks text.now }
{
    run(text, Class::Blank).1
}
/// A run of a class whose first scalar is of another one, and what is left.
pub(crate) fn first_and_run(
    text: &[char],
    first: Class,
    others: Class,
) -> Option<(&[char], &[char])>
    ensures { option_map (λ x. (x.0.now, x.1.now)) result ≡ first_and_run (is_member first) (is_member others) text.now }
{
    if begins_with(text, first) {
        let (name, _) = run(&text[1..], others);
        return Some(text.split_at(name.len() + 1));
    }
    None
}

/// Adds a scalar to a text.
pub(crate) fn push_scalar(text: &mut String, scalar: char) -> Result<(), AllocError>
    ensures { OnOk result (chars (string_bytes text.new) ≡ chars (string_bytes text.old) ++ scalar ∷ []) }
{
    text.push(scalar)
}

/// The scalars as a text of their own.
pub(crate) fn to_text(alloc: Global, scalars: &[char]) -> Result<String, AllocError>
    ensures { IfOk result (λ s. chars (string_bytes s) ≡ scalars.now) }
{
    let mut text = String::with_capacity(alloc, scalars.len())?;
    for c in scalars {
        push_scalar(&mut text, *c)?;
    }
    Ok(text)
}

/// A member name without quotes (RFC 9535, section 2.5.1.1), and what is left.
#[tactic(auto, unfolding(crate::specs::Reading::Scalars::shorthand))]
pub(crate) fn shorthand(alloc: Global, text: &[char]) -> Result<(String, &[char]), Failure>
    ensures { Gives (λ x. (chars (string_bytes x.0), x.1.now)) result (shorthand text.now) }
{
    let Some((name, rest)) = first_and_run(text, Class::NameFirst, Class::NameScalar) else {
        return Err(Failure::Syntax(Stop::at(text, Expected::Name)));
    };
    Ok((to_text(alloc, name)?, rest))
}

/// The name of a function, and what follows it and its parenthesis, where a call begins (RFC 9535, section 2.4).
#[tactic(auto, unfolding(crate::specs::Reading::Scalars::call_start, crate::specs::Reading::Scalars::function_name))]
pub(crate) fn call_start(text: &[char]) -> Option<(&[char], &[char])>
    ensures { option_map (λ x. (x.0.now, x.1.now)) result ≡ call_start text.now }
{
    let (name, rest) = first_and_run(text, Class::Lower, Class::FunctionScalar)?;
    let rest = after(rest, '(')?;
    Some((name, rest))
}
