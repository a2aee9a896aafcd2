//! Patterns and the questions that are asked of them.

ghost use Rattle.std.specs.Prelude.{◌≡◌, IfOk, option_map};
ghost use Rattle.std.specs.Str.{chars};
ghost use Rattle.jp_model.specs.Pattern.Membership.{is_in, occurs_in};
ghost use Rattle.jp_model.specs.Pattern.Reading.{pattern_of};
ghost use Rattle.jp_iregexp.specs.Nodes.{tree_of};
ghost use Rattle.jp_iregexp.specs.Trees.{pattern_view};

use crate::compiled::Compiled;
use crate::parser::read_pattern;
use crate::positions::PositionSet;
use crate::tables::reach;
use std::alloc::{AllocError, Global};

/// A pattern (RFC 9485, section 3).
#[derive(Drop)]
pub struct Pattern {
    pub(crate) compiled: Compiled,
}

impl Pattern {
    /// The pattern that a text spells, or `None` where it is no pattern (RFC 9485, section 3). By the choices of the profile
    /// these are none: a range that ends below its start, `{n,m}` with `n` above `m`, a bound above 999,999,999, and more than
    /// 256 scalars `(`, wherever they are. If memory is refused, the answer is an error.
    pub fn parse(alloc: Global, text: &str) -> Result<Option<Pattern>, AllocError>
        ensures { IfOk result (λ found. option_map pattern_view found ≡ pattern_of (chars text.now)) }
    {
        let scalars = scalars_of(alloc, text)?;
        match read_pattern(alloc, scalars.as_slice())? {
            None => Ok(None),
            Some(parsed) => {
                let compiled = Compiled::new(alloc, parsed, scalars.len())?;
                Ok(Some(Pattern { compiled }))
            }
        }
    }

    /// Whether the whole text is in the pattern's set (RFC 9485, section 4). If memory is refused, the answer is an error.
    #[inline(always)]
    pub fn matches(&self, alloc: Global, text: &str) -> Result<bool, AllocError>
        ensures { IfOk result (λ answer. answer ≡ is_in (pattern_view self.now) (chars text.now)) }
    {
        if let Some(automaton) = &self.compiled.automaton {
            return Ok(automaton.accepts(text));
        }
        matches_by_tree(alloc, &self.compiled, text)
    }

    /// Whether some part of the text, the empty one included, is in the pattern's set. If memory is refused, the answer is
    /// an error.
    #[inline(always)]
    pub fn occurs(&self, alloc: Global, text: &str) -> Result<bool, AllocError>
        ensures { IfOk result (λ answer. answer ≡ occurs_in (pattern_view self.now) (chars text.now)) }
    {
        if let Some(automaton) = &self.compiled.automaton {
            return Ok(automaton.finds(text));
        }
        occurs_by_tree(alloc, &self.compiled, text)
    }
}

/// The scalars that the UTF-8 of a text encodes, in order.
fn scalars_of(alloc: Global, text: &str) -> Result<Vec<char>, AllocError>
    ensures { IfOk result (λ scalars. scalars.items ≡ chars text.now) }
{
    text.chars().collect(alloc)
}

/// Whether the whole text is in the set of a tree. Few patterns have no automaton.
#[inline(never)]
fn matches_by_tree(alloc: Global, compiled: &Compiled, text: &str) -> Result<bool, AllocError>
    ensures { IfOk result (λ answer. answer ≡ is_in (tree_of compiled.now.root) (chars text.now)) }
{
    if let Some(graph) = &compiled.graph {
        return graph.accepts(alloc, text);
    }
    let scalars = scalars_of(alloc, text)?;
    let scalars = scalars.as_slice();
    let starts = PositionSet::one(alloc, 0)?;
    let reached = reach(alloc, compiled, scalars, &starts)?;
    Ok(reached.contains(scalars.len()))
}

/// Whether some part of the text is in the set of a tree.
#[inline(never)]
fn occurs_by_tree(alloc: Global, compiled: &Compiled, text: &str) -> Result<bool, AllocError>
    ensures { IfOk result (λ answer. answer ≡ occurs_in (tree_of compiled.now.root) (chars text.now)) }
{
    if let Some(graph) = &compiled.graph {
        return graph.finds(alloc, text);
    }
    let scalars = scalars_of(alloc, text)?;
    let scalars = scalars.as_slice();
    let starts = PositionSet::all(alloc, scalars.len())?;
    let reached = reach(alloc, compiled, scalars, &starts)?;
    Ok(reached.has_any())
}
