//! The segments of a query beside the steps of an index path.

ghost use Rattle.std.specs.Prelude.{◌≡◌, map};
ghost use Rattle.jp_model.specs.Query.Singular.{selector_step, singular_step, singular_steps};
ghost use Rattle.jp_model.specs.Plans.{leading_steps};
ghost use Rattle.jp_model.specs.Steps.{is_prefix};
ghost use Rattle.jp_syntax.specs.SingularPaths.{step_view};
ghost use Rattle.jp_syntax.specs.View.{segment_view, segments_view, selector_view};
ghost use Rattle.jp_plan.specs.Behind.{is_of_step, are_of_steps, segments_behind, rest_view};

use jp_syntax::{Segment, Selector, Step, singular_selector};

/// Whether the selector is that of this step.
fn is_selector_of(selector: &Selector, step: &Step) -> bool
    ensures { result ≡ is_of_step (step_view step.now) (selector_step (selector_view selector.now)) }
{
    match (step, selector) {
        (Step::Name(name), Selector::Name(other)) => name.as_str() == other.as_str(),
        (Step::Index(index), Selector::Index(other)) => index == other,
        (Step::Name(_), Selector::Index(_)) | (Step::Index(_), Selector::Name(_)) => false,
        (_, Selector::Wildcard | Selector::Slice { .. } | Selector::Filter(_)) => false,
    }
}

/// Whether the segment takes this step and no other.
fn takes(segment: &Segment, step: &Step) -> bool
    ensures { result ≡ is_of_step (step_view step.now) (singular_step (segment_view segment.now)) }
{
    match singular_selector(segment) {
        Some(selector) => is_selector_of(selector, step),
        None => false,
    }
}

/// The segments after the first ones, where these take the steps.
pub(crate) fn behind<'q>(steps: &[Step], segments: &'q [Segment]) -> Option<&'q [Segment]>
    ensures { rest_view result ≡ segments_behind (map step_view steps.now) (segments_view segments.now) }
{
    let mut rest = segments;
    for step in steps {
        let [segment, others @ ..] = rest else {
            return None;
        };
        if !takes(segment, step) {
            return None;
        }
        rest = others;
    }
    Some(rest)
}

/// Whether the segments begin with these steps.
pub(crate) fn begins(steps: &[Step], segments: &[Segment]) -> bool
    ensures { result ≡ is_prefix (map step_view steps.now) (leading_steps (segments_view segments.now)) }
{
    behind(steps, segments).is_some()
}

/// Whether the segments take these steps and then end.
pub(crate) fn spells(steps: &[Step], segments: &[Segment]) -> bool
    ensures { result ≡ are_of_steps (map step_view steps.now) (singular_steps (segments_view segments.now)) }
{
    match behind(steps, segments) {
        Some(rest) => rest.is_empty(),
        None => false,
    }
}
