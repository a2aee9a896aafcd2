//! Selectors and singular segments, which contain no expression (RFC 9535, sections 2.3 and 2.3.5.1).

ghost use Rattle.std.specs.Prelude.{◌≡◌, [], ◌∷◌, ◌++◌, IfOk, OnOk, Some, map};
ghost use Rattle.jp_model.specs.Query.Syntax.{filter_selector, wildcard_selector};
ghost use Rattle.jp_query.specs.Integers.{clamp};
ghost use Rattle.jp_query.specs.Parsing.{Adds, Reads, ReadsItem, simple_selector};
ghost use Rattle.jp_query.specs.Reading.Numbers.{int_at};
ghost use Rattle.jp_query.specs.Reading.Queries.{bound_at, step_at, slice_behind, index_or_slice, singular_behind, singular_segment, next_singular, singular_at, dotted};
ghost use Rattle.jp_query.specs.Reading.Scalars.{all_of};
ghost use Rattle.jp_syntax.specs.View.{logical_view, selector_view, segment_view, segments_view};

use super::Parser;
use super::failure::Failure;
use super::numbers::{begins_number, int};
use super::scalars::{shorthand, skip_blanks};
use super::strings::string;
use crate::expected::Expected;
use jp_syntax::{Logical, Segment, Selector};
use jp_types::{Limit, integer_passes};
use std::alloc::{AllocError, Global};

/// A list of one.
pub(crate) fn one<T: Drop>(alloc: Global, item: T) -> Result<Vec<T>, AllocError>
    ensures { IfOk result (λ v. v.items ≡ item ∷ []) }
{
    let mut items = Vec::with_capacity(alloc, 1)?;
    items.push(item)?;
    Ok(items)
}

/// Adds a wildcard.
#[inline(never)]
pub(crate) fn push_wildcard(all: &mut Vec<Selector>) -> Result<(), AllocError>
    ensures { OnOk result (map selector_view all.new.items ≡ map selector_view all.old.items ++ wildcard_selector ∷ []) }
{
    all.push(Selector::Wildcard)?;
    Ok(())
}

/// Adds a filter.
#[inline(never)]
pub(crate) fn push_filter(all: &mut Vec<Selector>, filter: Box<Logical>) -> Result<(), AllocError>
    ensures { OnOk result (map selector_view all.new.items ≡ map selector_view all.old.items ++ filter_selector (logical_view filter.value) ∷ []) }
{
    all.push(Selector::Filter(filter))?;
    Ok(())
}

impl<'t> Parser<'t> {
    /// An integer, brought to one step outside the exact ones where it is farther from them (RFC 9535, section 2.3.3.1).
    fn integer(&mut self) -> Result<i64, Failure>
        ensures { Reads (λ i. i) result self.new.rest.now (int_at clamp self.old.rest.now) }
    {
        let left = self.rest.len();
        let (value, rest) = int(self.rest)?;
        self.rest = rest;
        if !integer_passes(value, Limit::Integers) {
            let _ = self.noted.integer.get_or_insert(left);
        }
        Ok(value)
    }

    /// Blanks and an integer, if there is an integer.
    #[tactic(auto, unfolding(crate::specs::Reading::Queries::bound_at))]
    fn bound(&mut self) -> Result<Option<i64>, Failure>
        ensures { Reads (λ b. b) result self.new.rest.now (bound_at clamp self.old.rest.now) }
    {
        if !begins_number(skip_blanks(self.rest)) {
            return Ok(None);
        }
        self.skip_blanks();
        Ok(Some(self.integer()?))
    }

    /// After blanks and a colon, if there is a colon, the step of a slice.
    #[tactic(auto, unfolding(crate::specs::Reading::Queries::step_at))]
    fn step(&mut self) -> Result<Option<i64>, Failure>
        ensures { Reads (λ b. b) result self.new.rest.now (step_at clamp self.old.rest.now) }
    {
        if !self.takes_next(':') {
            return Ok(None);
        }
        self.bound()
    }

    /// A slice after its first colon (RFC 9535, section 2.3.4.1).
    #[tactic(auto, unfolding(crate::specs::Reading::Queries::slice_behind))]
    fn slice(&mut self, first: Option<i64>) -> Result<Selector, Failure>
        ensures { Reads (λ s. selector_view s) result self.new.rest.now (slice_behind clamp first self.old.rest.now) }
    {
        let last = self.bound()?;
        let step = self.step()?;
        Ok(Selector::Slice { first, last, step })
    }

    /// An index, or a slice that begins with an integer.
    #[tactic(auto, unfolding(crate::specs::Reading::Queries::index_or_slice))]
    fn index_or_slice(&mut self) -> Result<Selector, Failure>
        ensures { Reads (λ s. selector_view s) result self.new.rest.now (index_or_slice clamp self.old.rest.now) }
    {
        let value = self.integer()?;
        if self.takes_next(':') {
            return self.slice(Some(value));
        }
        Ok(Selector::Index(value))
    }

    /// A selector that is neither a wildcard nor a filter (RFC 9535, section 2.3).
    fn simple_selector(&mut self) -> Result<Selector, Failure>
        ensures { Reads (λ s. selector_view s) result self.new.rest.now (simple_selector self.old.rest.now) }
    {
        if self.takes(':') {
            return self.slice(None);
        }
        if begins_number(self.rest) {
            return self.index_or_slice();
        }
        let (name, rest) = string(self.alloc, self.rest, Expected::Selector)?;
        self.rest = rest;
        Ok(Selector::Name(name))
    }

    /// Adds a selector that is neither a wildcard nor a filter (RFC 9535, section 2.3).
    #[inline(never)]
    pub(super) fn push_simple_selector(&mut self, all: &mut Vec<Selector>) -> Result<(), Failure>
        ensures { Adds (λ s. selector_view s) result all.old.items all.new.items self.new.rest.now (simple_selector self.old.rest.now) }
    {
        all.push(self.simple_selector()?)?;
        Ok(())
    }

    /// A wildcard, or a name without quotes, after a point or two (RFC 9535, section 2.5).
    #[tactic(auto, unfolding(crate::specs::Reading::Queries::dotted))]
    #[inline(never)]
    pub(super) fn dotted(&mut self) -> Result<Vec<Selector>, Failure>
        ensures { Reads (λ v. map selector_view v.items) result self.new.rest.now (dotted self.old.rest.now) }
    {
        if self.takes('*') {
            return Ok(one(self.alloc, Selector::Wildcard)?);
        }
        let (name, rest) = shorthand(self.alloc, self.rest)?;
        self.rest = rest;
        Ok(one(self.alloc, Selector::Name(name))?)
    }

    /// A name or an index and the second bracket, after the first one, with no blanks between them.
    #[tactic(auto, unfolding(crate::specs::Reading::Queries::singular_behind))]
    fn singular_behind(&mut self) -> Result<Segment, Failure>
        ensures { Reads (λ s. segment_view s) result self.new.rest.now (singular_behind clamp self.old.rest.now) }
    {
        let selector = if begins_number(self.rest) {
            Selector::Index(self.integer()?)
        } else {
            let (name, rest) = string(self.alloc, self.rest, Expected::Selector)?;
            self.rest = rest;
            Selector::Name(name)
        };
        if !self.takes(']') {
            return Err(Failure::Syntax(self.stop(Expected::Bracket)));
        }
        Ok(Segment::Child(one(self.alloc, selector)?))
    }

    /// A segment of a singular query (RFC 9535, section 2.3.5.1).
    #[tactic(auto, unfolding(crate::specs::Reading::Queries::singular_segment))]
    pub(super) fn singular_segment(&mut self) -> Result<Segment, Failure>
        ensures { Reads (λ s. segment_view s) result self.new.rest.now (singular_segment clamp self.old.rest.now) }
    {
        if self.takes('[') {
            return self.singular_behind();
        }
        if !self.takes('.') {
            return Err(Failure::Syntax(self.stop(Expected::Segment)));
        }
        let (name, rest) = shorthand(self.alloc, self.rest)?;
        self.rest = rest;
        Ok(Segment::Child(one(self.alloc, Selector::Name(name))?))
    }

    /// Blanks and a segment of a singular query, if there is one.
    #[tactic(auto, unfolding(crate::specs::Reading::Queries::next_singular))]
    fn next_singular(&mut self) -> Result<Option<Segment>, Failure>
        ensures { ReadsItem (λ s. segment_view s) result self.old.rest.now self.new.rest.now (next_singular clamp self.old.rest.now) }
    {
        let before = self.rest;
        self.skip_blanks();
        match self.singular_segment() {
            Ok(found) => Ok(Some(found)),
            Err(Failure::Syntax(_)) => {
                self.rest = before;
                Ok(None)
            }
            Err(Failure::Memory) => Err(Failure::Memory),
        }
    }

    /// The segments of a singular query as a list.
    fn singular_list(&mut self) -> Result<Vec<Segment>, Failure>
        ensures { Reads (λ v. map segment_view v.items) result self.new.rest.now (all_of (next_singular clamp) self.old.rest.now) }
    {
        let mut all = Vec::new(self.alloc);
        for _ in 0..self.rest.len() {
            let Some(one) = self.next_singular()? else {
                break;
            };
            all.push(one)?;
        }
        Ok(all)
    }

    /// The segments of a singular query (RFC 9535, section 2.3.5.1).
    #[tactic(auto, unfolding(crate::specs::Reading::Queries::singular_at))]
    pub(super) fn singular(&mut self) -> Result<Vec<Segment>, Failure>
        ensures { Reads (λ v. segments_view v.items) result self.new.rest.now (singular_at clamp self.old.rest.now) }
    {
        self.singular_list()
    }
}
