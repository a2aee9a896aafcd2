//! Patterns that match nothing, since they are not valid.

ghost use Rattle.std.specs.Prelude.{◌≡◌, IfOk, filter};
ghost use Rattle.jp_syntax.specs.View.{logical_view, segments_view};
ghost use Rattle.jp_patterns.specs.Patterns.{is_invalid, logical_patterns, segments_patterns, texts_of};

use crate::literals::{add_logical, add_segments};
use jp_iregexp::Pattern;
use jp_syntax::{Logical, Segment};
use std::alloc::{AllocError, Global};

/// Those of some patterns that are not valid.
fn only_invalid<'q>(alloc: Global, patterns: &[&'q str]) -> Result<Vec<&'q str>, AllocError>
    ensures { IfOk result (λ found. texts_of found.items ≡ filter is_invalid (texts_of patterns.now)) }
{
    let mut found = Vec::new(alloc);
    for pattern in patterns {
        if Pattern::parse(alloc, pattern)?.is_none() {
            found.push(*pattern)?;
        }
    }
    Ok(found)
}

/// The literal patterns of `match` and `search` in the segments of a query that are not valid I-Regexps (RFC 9485), and so match
/// nothing (RFC 9535, sections 2.4.6 and 2.4.7): in the order of the query's text. If memory is refused, the answer is an error.
pub fn invalid_patterns<'q>(
    alloc: Global,
    segments: &'q [Segment],
) -> Result<Vec<&'q str>, AllocError>
    ensures { IfOk result (λ found. texts_of found.items ≡ filter is_invalid (segments_patterns (segments_view segments.now))) }
{
    let mut patterns = Vec::new(alloc);
    add_segments(segments, &mut patterns)?;
    only_invalid(alloc, &patterns)
}

/// The same of a logical expression.
pub fn invalid_patterns_of<'q>(
    alloc: Global,
    condition: &'q Logical,
) -> Result<Vec<&'q str>, AllocError>
    ensures { IfOk result (λ found. texts_of found.items ≡ filter is_invalid (logical_patterns (logical_view condition.now))) }
{
    let mut patterns = Vec::new(alloc);
    add_logical(condition, &mut patterns)?;
    only_invalid(alloc, &patterns)
}
