//! Walks over the tree of a query.

ghost use Rattle.std.specs.Prelude.{◌≡◌};
ghost use Rattle.jp_model.specs.Query.Limits.{segments_pass, segment_passes, selector_passes, logical_passes, comparable_passes, path_passes, call_passes, argument_passes};
ghost use Rattle.jp_types.specs.Limits.{limit_tests};
ghost use Rattle.jp_types.specs.Walks.{passed_functions};
ghost use Rattle.jp_syntax.specs.View.{segments_view, segment_view, selector_view, logical_view, comparable_view, path_view, call_view, argument_view};

use crate::limits::{Limit, bound_passes, function_passes, integer_passes, literal_passes};
use jp_syntax::{Argument, Call, Comparable, Logical, Path, Segment, Selector};

/// A walk over a tree in the order of its text, up to the first part that does not pass.
#[derive(Drop)]
pub struct Walk {
    /// How many functions were passed.
    pub(crate) passed: usize,
}

impl Walk {
    /// A walk that has passed nothing.
    pub fn new() -> Walk
        ensures { passed_functions result ≡ 0 }
    {
        Walk { passed: 0 }
    }

    /// How many functions were passed: where one does not pass, the functions that stand before it in the text.
    pub fn passed(&self) -> usize
        ensures { result ≡ passed_functions self.now }
    {
        self.passed
    }

    /// Whether all of some segments keeps a limit.
    #[cycle(limits)]
    pub fn segments_pass(&mut self, segments: &[Segment], limit: Limit) -> bool
        ensures { result ≡ segments_pass (segments_view segments.now) (limit_tests limit) }
    {
        for segment in segments {
            if !self.segment_passes(segment, limit) {
                return false;
            }
        }
        true
    }

    /// Whether all of a segment keeps a limit.
    #[cycle(limits)]
    fn segment_passes(&mut self, segment: &Segment, limit: Limit) -> bool
        ensures { result ≡ segment_passes (segment_view segment.now) (limit_tests limit) }
    {
        let (Segment::Child(selectors) | Segment::Descendant(selectors)) = segment;
        for selector in selectors {
            if !self.selector_passes(selector, limit) {
                return false;
            }
        }
        true
    }

    /// Whether all of a selector keeps a limit.
    #[cycle(limits)]
    fn selector_passes(&mut self, selector: &Selector, limit: Limit) -> bool
        ensures { result ≡ selector_passes (selector_view selector.now) (limit_tests limit) }
    {
        match selector {
            Selector::Name(_) | Selector::Wildcard => true,
            Selector::Index(value) => integer_passes(*value, limit),
            Selector::Slice { first, last, step } => {
                bound_passes(*first, limit)
                    && bound_passes(*last, limit)
                    && bound_passes(*step, limit)
            }
            Selector::Filter(condition) => self.logical_passes(condition, limit),
        }
    }

    /// Whether all of an expression keeps a limit.
    #[cycle(limits)]
    pub fn logical_passes(&mut self, logical: &Logical, limit: Limit) -> bool
        ensures { result ≡ logical_passes (logical_view logical.now) (limit_tests limit) }
    {
        match logical {
            Logical::Or(parts) | Logical::And(parts) => {
                for part in parts {
                    if !self.logical_passes(part, limit) {
                        return false;
                    }
                }
                true
            }
            Logical::Not(inner) => self.logical_passes(inner, limit),
            Logical::Compare { left, right, .. } => {
                self.comparable_passes(left, limit) && self.comparable_passes(right, limit)
            }
            Logical::Exists(path) => self.path_passes(path, limit),
            Logical::Test(call) => self.call_passes(call, limit),
        }
    }

    /// Whether all of a side of a comparison keeps a limit.
    #[cycle(limits)]
    fn comparable_passes(&mut self, side: &Comparable, limit: Limit) -> bool
        ensures { result ≡ comparable_passes (comparable_view side.now) (limit_tests limit) }
    {
        match side {
            Comparable::Constant(literal) => literal_passes(literal, limit),
            Comparable::Single(path) => self.path_passes(path, limit),
            Comparable::Result(call) => self.call_passes(call, limit),
        }
    }

    /// Whether all of a query within a filter keeps a limit.
    #[cycle(limits)]
    fn path_passes(&mut self, path: &Path, limit: Limit) -> bool
        ensures { result ≡ path_passes (path_view path.now) (limit_tests limit) }
    {
        self.segments_pass(&path.segments, limit)
    }

    /// Whether all of a call keeps a limit.
    #[cycle(limits)]
    fn call_passes(&mut self, call: &Call, limit: Limit) -> bool
        ensures { result ≡ call_passes (call_view call.now) (limit_tests limit) }
    {
        if !function_passes(&call.name, limit) {
            return false;
        }
        self.passed = self.passed.saturating_add(1);
        for argument in &call.arguments {
            if !self.argument_passes(argument, limit) {
                return false;
            }
        }
        true
    }

    /// Whether all of an argument keeps a limit.
    #[cycle(limits)]
    fn argument_passes(&mut self, argument: &Argument, limit: Limit) -> bool
        ensures { result ≡ argument_passes (argument_view argument.now) (limit_tests limit) }
    {
        match argument {
            Argument::Constant(literal) => literal_passes(literal, limit),
            Argument::Nodes(path) => self.path_passes(path, limit),
            Argument::Condition(condition) => self.logical_passes(condition, limit),
            Argument::Result(call) => self.call_passes(call, limit),
        }
    }
}
