//! Singular queries (RFC 9535, section 2.3.5.1).

ghost use Rattle.std.specs.Prelude.{◌≡◌, pos, is_some, option_map, map, true, None, MatchOption, IfOk};
ghost use Rattle.jp_model.specs.Query.Singular.{selector_step, singular_step, singular_steps};
ghost use Rattle.jp_model.specs.Steps.{step_equal, steps_equal};
ghost use Rattle.std.specs.Cmp.{on_per, partial_equiv_from_equiv};
ghost use Rattle.jp_syntax.specs.StepEquality.{step_equal_equiv, steps_equal_equiv};
ghost use Rattle.jp_syntax.specs.Queries.{query_view};
ghost use Rattle.jp_syntax.specs.SingularPaths.{step_view, path_steps};
ghost use Rattle.jp_syntax.specs.View.{segment_view, segments_view, selector_view};

use crate::query::Query;
use crate::tree::{Segment, Selector};
use smallvec::SmallVec;
use std::alloc::{AllocError, Global};

/// A step of a singular query, to one child (RFC 9535, section 2.3.5.1).
#[derive(Drop)]
pub enum Step {
    /// To the member of this name.
    Name(String),
    /// To the element at this index, from 0, or, below 0, counted from the end.
    Index(i64),
}

// Names are compared scalar by scalar.
impl PartialEq for Step {
    ghost eq = { λ a b. step_equal (step_view a) (step_view b) };

    ghost laws = { on_per step_view (partial_equiv_from_equiv step_equal_equiv) };

    fn eq(&self, other: &Step) -> bool {
        match (self, other) {
            (Step::Name(name), Step::Name(other)) => name.as_str() == other.as_str(),
            (Step::Index(index), Step::Index(other)) => index == other,
            _ => false,
        }
    }
}

// What stands in a path where no step has been put.
impl Default for Step {
    ghost use Rattle.jp_syntax.specs.declared.paths.Step.TheVariants.{Index};

    ghost is_default = { λ step. step ≡ Index (pos 0) };

    fn default() -> Step {
        Step::Index(0)
    }
}

/// Most singular queries have few steps: up to this number of them lie in the path itself.
const INLINE_STEPS: usize = 4;

/// The steps of a singular query, in order. Two are equal where their steps are.
#[derive(Drop)]
pub struct SingularPath {
    steps: SmallVec<Step, INLINE_STEPS>,
}

impl SingularPath {
    /// The steps, in order.
    pub fn steps(&self) -> &[Step]
        ensures { map step_view result.now ≡ path_steps self.now }
    {
        self.steps.as_slice()
    }
}

impl PartialEq for SingularPath {
    ghost eq = { λ a b. steps_equal (path_steps a) (path_steps b) };

    ghost laws = { on_per path_steps (partial_equiv_from_equiv steps_equal_equiv) };

    fn eq(&self, other: &SingularPath) -> bool {
        self.steps == other.steps
    }
}

/// The selector of a child segment that has one alone.
fn only_selector(segment: &Segment) -> Option<&Selector>
    ensures { MatchOption result (singular_step (segment_view segment.now) ≡ None) (λ s. singular_step (segment_view segment.now) ≡ selector_step (selector_view s.now)) }
{
    let Segment::Child(selectors) = segment else {
        return None;
    };
    if selectors.len() == 1 {
        Some(&selectors[0])
    } else {
        None
    }
}

/// The selector of a segment that is singular: one child segment's only selector, a name or an index (RFC 9535, section
/// 2.3.5.1).
pub fn singular_selector(segment: &Segment) -> Option<&Selector>
    ensures { MatchOption result (singular_step (segment_view segment.now) ≡ None) (λ s. (singular_step (segment_view segment.now) ≡ selector_step (selector_view s.now)) × (is_some (selector_step (selector_view s.now)) ≡ true)) }
{
    match only_selector(segment) {
        Some(selector) => match selector {
            Selector::Name(_) | Selector::Index(_) => Some(selector),
            Selector::Wildcard | Selector::Slice { .. } | Selector::Filter(_) => None,
        },
        None => None,
    }
}

/// Whether the segment is singular.
fn is_singular_segment(segment: &Segment) -> bool
    ensures { result ≡ is_some (singular_step (segment_view segment.now)) }
{
    singular_selector(segment).is_some()
}

/// Whether each segment selects one child by its name or index, so that they lead to at most one node (RFC 9535, section
/// 2.3.5.1).
pub fn is_singular(segments: &[Segment]) -> bool
    ensures { result ≡ is_some (singular_steps (segments_view segments.now)) }
{
    for segment in segments {
        if !is_singular_segment(segment) {
            return false;
        }
    }
    true
}

/// The step of a segment that is singular.
fn singular_step(segment: &Segment) -> Result<Option<Step>, AllocError>
    ensures { IfOk result (λ found. option_map step_view found ≡ singular_step (segment_view segment.now)) }
{
    let Some(selector) = only_selector(segment) else {
        return Ok(None);
    };
    Ok(match selector {
        Selector::Name(name) => Some(Step::Name(name.clone()?)),
        Selector::Index(index) => Some(Step::Index(*index)),
        Selector::Wildcard | Selector::Slice { .. } | Selector::Filter(_) => None,
    })
}

/// The steps of a query that is singular (RFC 9535, section 2.3.5.1), and `None` of any other.
///
/// # Errors
///
/// Memory ran out.
pub fn singular(alloc: Global, query: &Query) -> Result<Option<SingularPath>, AllocError>
    ensures { IfOk result (λ found. option_map path_steps found ≡ singular_steps (query_view query.now)) }
{
    let mut steps = SmallVec::new(alloc);
    for segment in query.segments() {
        let Some(step) = singular_step(segment)? else {
            return Ok(None);
        };
        steps.push(step)?;
    }
    Ok(Some(SingularPath { steps }))
}
