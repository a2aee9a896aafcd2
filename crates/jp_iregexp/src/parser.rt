//! The reading of a pattern: its tokens from left to right, each handed to the groups that are open. Nothing here calls itself,
//! whatever is in the text.

ghost use Rattle.std.specs.Prelude.{◌≡◌, option_map, option_and_then, IfOk, count_by, ◌==◌};
ghost use Rattle.jp_model.specs.Pattern.Groups.{pattern_of_tokens};
ghost use Rattle.jp_model.specs.Pattern.Reading.{tokens_of, pattern_of};
ghost use Rattle.jp_iregexp.specs.Nodes.{tree_of};

use crate::groups::Groups;
use crate::parsed::Parsed;
use crate::token::next_token;
use std::alloc::{AllocError, Global};

/// The greatest number of scalars `(` that a pattern may have.
const MOST_PARENTHESES: usize = 256;

/// How many scalars `(` the text has, wherever they are.
fn parentheses(text: &[char]) -> usize
    ensures { result ≡ count_by (λ c. c == 0x28) text.now }
{
    text.iter().filter(|scalar| **scalar == '(').count()
}

/// The pattern that the tokens of a text stand for. Each token takes a scalar, so there are no more of them.
fn read_tokens(alloc: Global, text: &[char]) -> Result<Option<Parsed>, AllocError>
    ensures { IfOk result (λ found. option_map (λ parsed. tree_of parsed.root) found ≡ option_and_then pattern_of_tokens (tokens_of text.now)) }
{
    let mut groups = Groups::new(alloc);
    let mut left = text;
    for turn in 0..text.len() {
        match left {
            [] => return groups.into_root(alloc),
            [first, behind @ ..] => match next_token(alloc, *first, behind)? {
                None => return Ok(None),
                Some((token, rest)) => match groups.add(alloc, token)? {
                    None => return Ok(None),
                    Some(more) => {
                        groups = more;
                        left = rest;
                    }
                },
            },
        }
    }
    if left.is_empty() {
        groups.into_root(alloc)
    } else {
        Ok(None)
    }
}

/// The pattern that the scalars spell, if they spell one.
pub(crate) fn read_pattern(alloc: Global, text: &[char]) -> Result<Option<Parsed>, AllocError>
    ensures { IfOk result (λ found. option_map (λ parsed. tree_of parsed.root) found ≡ pattern_of text.now) }
{
    if parentheses(text) > MOST_PARENTHESES {
        return Ok(None);
    }
    read_tokens(alloc, text)
}
