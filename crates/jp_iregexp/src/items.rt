//! Items of a class: scalars, ranges and properties (RFC 9485, section 3).

ghost use Rattle.std.specs.Prelude.{◌≡◌, ◌<◌, ◌+◌, ℕ, List, length, drop, take, option_map, Some, None};
ghost use Rattle.jp_model.specs.Pattern.Reading.{then_read, up_to, read_category, read_escape, read_item, to_span, read_span};
ghost use Rattle.jp_iregexp.specs.Nodes.{item_of};

use crate::class::Item;
use crate::escapes::{escaped, is_plain_in_class};
use crate::names::find_property;

/// The position of the first scalar that is `stop`.
fn position_of(stop: char, text: &[char]) -> Option<usize>
    ensures found { (at : ℕ) → result ≡ Some at → up_to stop text.now ≡ Some (take at text.now, drop (at + 1) text.now) }
    ensures within { (at : ℕ) → result ≡ Some at → at < length text.now }
    ensures missing { result ≡ None → up_to stop text.now ≡ None }
{
    for (at, scalar) in text.iter().enumerate() {
        if *scalar == stop {
            return Some(at);
        }
    }
    None
}

/// What comes before the first scalar that is `stop`, and what follows it.
pub(crate) fn cut(stop: char, text: &[char]) -> Option<(&[char], &[char])>
    ensures { option_map (λ p. (p.0.now, p.1.now)) result ≡ up_to stop text.now }
{
    match position_of(stop, text) {
        None => None,
        Some(at) => Some((&text[..at], &text[at + 1..])),
    }
}

/// The property in the braces after `\p` or `\P`.
fn read_braces(negated: bool, text: &[char]) -> Option<(Item, &[char])>
    ensures { option_map (λ p. (item_of p.0, p.1.now)) result ≡ read_category negated text.now }
{
    match text {
        [] => None,
        [first, behind @ ..] => {
            if *first != '{' {
                return None;
            }
            let (name, rest) = cut('}', behind)?;
            let property = find_property(name)?;
            if negated {
                Some((Item::Without(property), rest))
            } else {
                Some((Item::With(property), rest))
            }
        }
    }
}

/// What follows a backslash.
pub(crate) fn read_escaped(text: &[char]) -> Option<(Item, &[char])>
    ensures { option_map (λ p. (item_of p.0, p.1.now)) result ≡ read_escape text.now }
{
    match text {
        [] => None,
        [first, rest @ ..] => {
            if *first == 'p' {
                read_braces(false, rest)
            } else if *first == 'P' {
                read_braces(true, rest)
            } else {
                let scalar = escaped(*first)?;
                Some((Item::Range(scalar, scalar), rest))
            }
        }
    }
}

/// The item of one scalar, escape or property, and what follows it.
fn read_one(text: &[char]) -> Option<(Item, &[char])>
    ensures { option_map (λ p. (item_of p.0, p.1.now)) result ≡ read_item text.now }
{
    match text {
        [] => None,
        [first, rest @ ..] => {
            if *first == '\\' {
                read_escaped(rest)
            } else if is_plain_in_class(*first) {
                Some((Item::Range(*first, *first), rest))
            } else {
                None
            }
        }
    }
}

/// The range from one scalar to another, which does not end below its start.
fn span(first: Item, last: Item) -> Option<Item>
    ensures { (rest : List ℕ) → option_map (λ item. (item_of item, rest)) result ≡ to_span (item_of first) rest (item_of last) }
{
    match (first, last) {
        (Item::Range(start, _), Item::Range(end, _)) => {
            if start <= end {
                Some(Item::Range(start, end))
            } else {
                None
            }
        }
        _ => None,
    }
}

/// The range that the item begins, or the item itself where no range follows, and what is after it.
fn read_range_end(item: Item, text: &[char]) -> Option<(Item, &[char])>
    ensures { option_map (λ p. (item_of p.0, p.1.now)) result ≡ read_span (item_of item) text.now }
{
    match text {
        [hyphen, behind @ ..] => match behind {
            [next, ..] => {
                if *hyphen != '-' || *next == ']' {
                    return Some((item, text));
                }
                let (last, rest) = read_one(behind)?;
                Some((span(item, last)?, rest))
            }
            [] => Some((item, text)),
        },
        [] => Some((item, text)),
    }
}

/// A scalar, a range or a property.
pub(crate) fn read_whole_item(text: &[char]) -> Option<(Item, &[char])>
    ensures { option_map (λ p. (item_of p.0, p.1.now)) result ≡ then_read (read_item text.now) read_span }
{
    let (item, rest) = read_one(text)?;
    read_range_end(item, rest)
}
