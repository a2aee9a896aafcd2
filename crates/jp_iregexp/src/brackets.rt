//! Classes in brackets (RFC 9485, section 3, `charClassExpr`).

ghost use Rattle.std.specs.Prelude.{◌≡◌, ◌++◌, ℕ, suc, map, option_map, Some, IfOk};
ghost use Rattle.jp_model.specs.Pattern.Reading.{then_read, read_items, last_hyphen, read_members, read_class};
ghost use Rattle.jp_model.specs.Pattern.Spelling.{class_token};
ghost use Rattle.jp_iregexp.specs.Tokens.{first_of, after_next};
ghost use Rattle.jp_iregexp.specs.Nodes.{item_of, class_of};

use crate::class::{Class, Item};
use crate::items::read_whole_item;
use std::alloc::{AllocError, Global};

/// The item after those so far, and what follows it.
#[derive(Clone, Copy)]
pub(crate) enum Next<'a> {
    Item(Item, &'a [char]),
    /// The hyphen that comes last, with the bracket after it.
    Hyphen(&'a [char]),
    /// The bracket that closes.
    End(&'a [char]),
}

/// What the text begins with: an item, the hyphen that comes last, or the bracket that closes the class.
fn read_next(text: &[char]) -> Option<Next<'_>>
    ensures { (steps : ℕ) → read_items (suc steps) text.now ≡ after_next steps result }
{
    match text {
        [] => None,
        [first, rest @ ..] => {
            if *first == ']' {
                Some(Next::End(rest))
            } else if *first == '-' {
                read_last_hyphen(rest)
            } else {
                let (item, behind) = read_whole_item(text)?;
                Some(Next::Item(item, behind))
            }
        }
    }
}

/// The hyphen that was read in front of the text, where the bracket that closes the class comes next.
fn read_last_hyphen(text: &[char]) -> Option<Next<'_>>
    ensures { (steps : ℕ) → last_hyphen text.now ≡ after_next steps result }
{
    match text {
        [] => None,
        [first, rest @ ..] => {
            if *first == ']' {
                Some(Next::Hyphen(rest))
            } else {
                None
            }
        }
    }
}

/// The items so far with those up to the bracket that closes, fewer than `limit`, and what is after it.
fn read_more(
    mut items: Vec<Item>,
    limit: usize,
    text: &[char],
) -> Result<Option<(Vec<Item>, &[char])>, AllocError>
    ensures { IfOk result (λ found. option_map (λ p. (map item_of p.0.items, p.1.now)) found ≡ then_read (read_items limit text.now) (λ more rest. Some (map item_of items.items ++ more, rest))) }
{
    let mut left = text;
    for turn in 0..limit {
        match read_next(left) {
            None => return Ok(None),
            Some(Next::End(rest)) => return Ok(Some((items, rest))),
            Some(Next::Hyphen(rest)) => {
                items.push(Item::Range('-', '-'))?;
                return Ok(Some((items, rest)));
            }
            Some(Next::Item(item, rest)) => {
                items.push(item)?;
                left = rest;
            }
        }
    }
    Ok(None)
}

/// The item that comes first, where a hyphen stands for itself.
fn read_first(text: &[char]) -> Option<(Item, &[char])>
    ensures { option_map (λ p. (item_of p.0, p.1.now)) result ≡ first_of text.now }
{
    match text {
        [] => None,
        [first, rest @ ..] => {
            if *first == '-' {
                Some((Item::Range('-', '-'), rest))
            } else {
                read_whole_item(text)
            }
        }
    }
}

/// The class of the items up to the bracket that closes, at least one, and what is after it.
fn read_in_brackets(
    alloc: Global,
    negated: bool,
    text: &[char],
) -> Result<Option<(Class, &[char])>, AllocError>
    ensures { IfOk result (λ found. option_map (λ p. (class_token (class_of p.0), p.1.now)) found ≡ read_members negated text.now) }
{
    match read_first(text) {
        None => Ok(None),
        Some((item, rest)) => {
            let items = vec![in alloc; item]?;
            match read_more(items, text.len() - 1, rest)? {
                None => Ok(None),
                Some((items, rest)) => Ok(Some((Class::Members { negated, items }, rest))),
            }
        }
    }
}

/// The class after `[`. `^` in front negates, but `[^]` is the class of `^`.
pub(crate) fn read_brackets(
    alloc: Global,
    text: &[char],
) -> Result<Option<(Class, &[char])>, AllocError>
    ensures { IfOk result (λ found. option_map (λ p. (class_token (class_of p.0), p.1.now)) found ≡ read_class text.now) }
{
    match text {
        [first, behind @ ..] => {
            if *first != '^' {
                return read_in_brackets(alloc, false, text);
            }
            match behind {
                [bracket, rest @ ..] => {
                    if *bracket != ']' {
                        return read_in_brackets(alloc, true, behind);
                    }
                    let items = vec![in alloc; Item::Range('^', '^')]?;
                    Ok(Some((
                        Class::Members {
                            negated: false,
                            items,
                        },
                        rest,
                    )))
                }
                [] => Ok(None),
            }
        }
        [] => Ok(None),
    }
}
