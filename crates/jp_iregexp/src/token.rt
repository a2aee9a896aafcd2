//! The tokens of a pattern's text (RFC 9485, section 3): each atom that is not a group, each quantifier, and the parentheses
//! and bars.

ghost use Rattle.std.specs.Prelude.{◌≡◌, option_map, IfOk};
ghost use Rattle.jp_model.specs.Pattern.Reading.{read_token, one_item};
ghost use Rattle.jp_iregexp.specs.Tokens.{token_of, read_longer_token};
ghost use Rattle.jp_iregexp.specs.Nodes.{item_of};

use crate::brackets::read_brackets;
use crate::class::{Class, Item};
use crate::counts::read_bounds;
use crate::escapes::is_normal;
use crate::items::read_escaped;
use std::alloc::{AllocError, Global};

/// A token.
#[derive(Drop)]
pub(crate) enum Token {
    Class(Class),
    Open,
    Close,
    Bar,
    /// A quantifier: its least number, and how many may follow, where that is bounded.
    Count(u32, Option<u32>),
}

/// The token of a class that has one item, and what follows it.
fn class_of_one(
    alloc: Global,
    item: Item,
    rest: &[char],
) -> Result<Option<(Token, &[char])>, AllocError>
    ensures { IfOk result (λ found. option_map (λ p. (token_of p.0, p.1.now)) found ≡ one_item (item_of item) rest.now) }
{
    let items = vec![in alloc; item]?;
    Ok(Some((
        Token::Class(Class::Members {
            negated: false,
            items,
        }),
        rest,
    )))
}

/// The token that begins with this scalar, which is none of the single scalars with a meaning, and what follows it.
fn read_longer(
    alloc: Global,
    first: char,
    text: &[char],
) -> Result<Option<(Token, &[char])>, AllocError>
    ensures { IfOk result (λ found. option_map (λ p. (token_of p.0, p.1.now)) found ≡ read_longer_token first text.now) }
{
    if first == '{' {
        match read_bounds(text) {
            None => Ok(None),
            Some(((least, further), rest)) => Ok(Some((Token::Count(least, further), rest))),
        }
    } else if first == '[' {
        match read_brackets(alloc, text)? {
            None => Ok(None),
            Some((class, rest)) => Ok(Some((Token::Class(class), rest))),
        }
    } else if first == '\\' {
        match read_escaped(text) {
            None => Ok(None),
            Some((item, rest)) => class_of_one(alloc, item, rest),
        }
    } else if is_normal(first) {
        class_of_one(alloc, Item::Range(first, first), text)
    } else {
        Ok(None)
    }
}

/// The token that begins with this scalar, and what follows it.
pub(crate) fn next_token(
    alloc: Global,
    first: char,
    text: &[char],
) -> Result<Option<(Token, &[char])>, AllocError>
    ensures { IfOk result (λ found. option_map (λ p. (token_of p.0, p.1.now)) found ≡ read_token first text.now) }
{
    match first {
        '(' => Ok(Some((Token::Open, text))),
        ')' => Ok(Some((Token::Close, text))),
        '|' => Ok(Some((Token::Bar, text))),
        '*' => Ok(Some((Token::Count(0, None), text))),
        '+' => Ok(Some((Token::Count(1, None), text))),
        '?' => Ok(Some((Token::Count(0, Some(1)), text))),
        '.' => Ok(Some((Token::Class(Class::Dot), text))),
        _ => read_longer(alloc, first, text),
    }
}
