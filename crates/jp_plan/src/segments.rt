//! The lines that describe the segments of a query.

ghost use Rattle.std.specs.Prelude.{◌≡◌, ◌++◌, OnOk, IfOk, MatchOption, [], None, Some, chars, is_some};
ghost use Rattle.jp_model.specs.Plans.{segment_text, segments_text};
ghost use Rattle.jp_model.specs.Query.Singular.{selector_step, singular_step};
ghost use Rattle.jp_model.specs.Query.Syntax.{child_segment, descendant_segment, segment_list};
ghost use Rattle.jp_syntax.specs.View.{segment_view, segments_view, selector_view, selectors_view};
ghost use Rattle.jp_plan.specs.Paths.{alone};
ghost use Rattle.jp_plan.specs.Walks.{name_alone, option_step_text, part_text};

use crate::text::push_decimal;
use jp_rows::QueryPart;
use jp_syntax::{Segment, Selector, singular_selector};
use std::alloc::AllocError;

/// The name that a selector selects, if it selects by name.
fn selector_name(selector: &Selector) -> Option<&str>
    ensures { MatchOption result (name_alone (alone (selector_view selector.now)) ≡ None) (λ name. name_alone (alone (selector_view selector.now)) ≡ Some (chars name.now)) }
{
    match selector {
        Selector::Name(name) => Some(name),
        Selector::Wildcard | Selector::Index(_) | Selector::Slice { .. } | Selector::Filter(_) => {
            None
        }
    }
}

/// The name that the only selector selects.
fn only_name(selectors: &[Selector]) -> Option<&str>
    ensures { MatchOption result (name_alone (selectors_view selectors.now) ≡ None) (λ name. name_alone (selectors_view selectors.now) ≡ Some (chars name.now)) }
{
    if selectors.len() == 1 {
        selector_name(&selectors[0])
    } else {
        None
    }
}

/// Appends the line of a child segment that is not singular to a text.
fn push_children(selectors: &[Selector], out: &mut Vec<u8>) -> Result<(), AllocError>
    ensures { OnOk result (out.new.items ≡ out.old.items ++ segment_text (child_segment (selectors_view selectors.now))) }
{
    out.extend_from_slice(b"child ")?;
    push_decimal(selectors.len(), out)?;
    out.extend_from_slice(b"\n")
}

/// Appends the line of a descendant segment to a text.
fn push_descendants(selectors: &[Selector], out: &mut Vec<u8>) -> Result<(), AllocError>
    ensures { OnOk result (out.new.items ≡ out.old.items ++ segment_text (descendant_segment (selectors_view selectors.now))) }
{
    match only_name(selectors) {
        Some(name) => {
            out.extend_from_slice(b"descend-name ")?;
            QueryPart::Name(name).push_to(out)?;
            out.extend_from_slice(b"\n")
        }
        None => {
            out.extend_from_slice(b"descend ")?;
            push_decimal(selectors.len(), out)?;
            out.extend_from_slice(b"\n")
        }
    }
}

/// Appends the line of a segment that is not singular to a text.
fn push_segment(segment: &Segment, out: &mut Vec<u8>) -> Result<(), AllocError>
    ensures { OnOk result (out.new.items ≡ out.old.items ++ segment_text (segment_view segment.now)) }
{
    match segment {
        Segment::Child(selectors) => push_children(selectors, out),
        Segment::Descendant(selectors) => push_descendants(selectors, out),
    }
}

/// Appends the step of a selector to a text, if it has one.
fn push_step(selector: &Selector, out: &mut Vec<u8>) -> Result<(), AllocError>
    ensures { OnOk result (out.new.items ≡ out.old.items ++ option_step_text (selector_step (selector_view selector.now))) }
{
    match selector {
        Selector::Name(name) => QueryPart::Name(name).push_to(out),
        Selector::Index(index) => QueryPart::Index(*index).push_to(out),
        Selector::Wildcard | Selector::Slice { .. } | Selector::Filter(_) => Ok(()),
    }
}

/// Appends what tells one segment to a text, where a run of singular segments is open before it or not. It answers whether
/// one is open after it.
fn push_part(walks: bool, segment: &Segment, out: &mut Vec<u8>) -> Result<bool, AllocError>
    ensures walks { IfOk result (λ goes. goes ≡ is_some (singular_step (segment_view segment.now))) }
    ensures text { OnOk result (out.new.items ≡ out.old.items ++ part_text walks (segment_view segment.now)) }
{
    match singular_selector(segment) {
        Some(selector) => {
            if !walks {
                out.extend_from_slice(b"walk ")?;
            }
            push_step(selector, out)?;
            Ok(true)
        }
        None => {
            if walks {
                out.extend_from_slice(b"\n")?;
            }
            push_segment(segment, out)?;
            Ok(false)
        }
    }
}

/// Appends the lines of segments to a text: each longest run of singular ones in one line.
pub(crate) fn push_segments(segments: &[Segment], out: &mut Vec<u8>) -> Result<(), AllocError>
    ensures { OnOk result (out.new.items ≡ out.old.items ++ segments_text [] (segment_list (segments_view segments.now))) }
{
    let mut walks = false;
    for segment in segments {
        walks = push_part(walks, segment, out)?;
    }
    if walks {
        out.extend_from_slice(b"\n")?;
    }
    Ok(())
}
