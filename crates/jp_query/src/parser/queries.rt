//! Segments and selectors, which hold expressions (RFC 9535, sections 2.3 and 2.5).
//!
//! `depth` is how deep brackets and parentheses may still nest.

ghost use Rattle.std.specs.Prelude.{map};
ghost use Rattle.jp_query.specs.Integers.{clamp};
ghost use Rattle.jp_query.specs.Parsing.{Adds, AddsAll, AddsItem, Reads, ReadsItem, selectors_at};
ghost use Rattle.jp_query.specs.Reading.Queries.{selector_at, next_selector, brackets_at, descendant_at, next_segment, segments_at, logical_at};
ghost use Rattle.jp_query.specs.Reading.Scalars.{all_of};
ghost use Rattle.jp_syntax.specs.View.{selector_view, segment_view, segments_view};

use super::Parser;
use super::failure::{Failure, discard};
use super::scalars::after;
use super::selectors::{push_filter, push_wildcard};
use crate::expected::Expected;
use jp_syntax::{Segment, Selector};

impl<'t> Parser<'t> {
    /// Adds a selector (RFC 9535, section 2.3).
    #[cycle(query)]
    #[tactic(auto, unfolding(crate::specs::Reading::Queries::selector_at))]
    #[inline(never)]
    fn push_selector(&mut self, all: &mut Vec<Selector>, depth: u32) -> Result<(), Failure>
        ensures { Adds (λ s. selector_view s) result all.old.items all.new.items self.new.rest.now (selector_at clamp (logical_at clamp depth) self.old.rest.now) }
    {
        if self.takes('*') {
            return Ok(push_wildcard(all)?);
        }
        if !self.takes('?') {
            return self.push_simple_selector(all);
        }
        self.skip_blanks();
        let filter = self.logical(depth)?.logical;
        Ok(push_filter(all, filter)?)
    }

    /// Passes blanks, a comma and blanks and adds a selector, if there is a comma, and answers whether there was one.
    #[cycle(query)]
    #[tactic(auto, unfolding(crate::specs::Reading::Queries::next_selector))]
    fn push_next_selector(&mut self, all: &mut Vec<Selector>, depth: u32) -> Result<bool, Failure>
        ensures { AddsItem (λ s. selector_view s) result all.old.items all.new.items self.old.rest.now self.new.rest.now (next_selector clamp (logical_at clamp depth) self.old.rest.now) }
    {
        if !self.takes_next(',') {
            return Ok(false);
        }
        self.skip_blanks();
        self.push_selector(all, depth)?;
        Ok(true)
    }

    /// Adds the selectors after the first one.
    #[cycle(query)]
    fn push_more_selectors(&mut self, all: &mut Vec<Selector>, depth: u32) -> Result<(), Failure>
        ensures { AddsAll (λ s. selector_view s) result all.old.items all.new.items self.new.rest.now (all_of (next_selector clamp (logical_at clamp depth)) self.old.rest.now) }
    {
        for _ in 0..self.rest.len() {
            if !self.push_next_selector(all, depth)? {
                break;
            }
        }
        Ok(())
    }

    /// Adds selectors, and passes the bracket after them (RFC 9535, section 2.5.1.1).
    #[cycle(query)]
    fn push_selectors(&mut self, all: &mut Vec<Selector>, depth: u32) -> Result<(), Failure>
        ensures { AddsAll (λ s. selector_view s) result all.old.items all.new.items self.new.rest.now (selectors_at (logical_at clamp depth) self.old.rest.now) }
    {
        self.push_selector(all, depth)?;
        self.push_more_selectors(all, depth)?;
        if !self.takes_next(']') {
            return Err(Failure::Syntax(self.stop_behind_selectors(all)));
        }
        Ok(())
    }

    /// Selectors in brackets (RFC 9535, section 2.5.1.1).
    #[cycle(query)]
    #[tactic(auto, unfolding(crate::specs::Reading::Queries::brackets_at))]
    #[inline(never)]
    fn brackets(&mut self, depth: u32) -> Result<Vec<Selector>, Failure>
        ensures { Reads (λ v. map selector_view v.items) result self.new.rest.now (brackets_at clamp (logical_at clamp depth) self.old.rest.now) }
    {
        if !self.takes('[') {
            return Err(Failure::Syntax(self.stop(Expected::Segment)));
        }
        self.skip_blanks();
        let mut selectors = Vec::with_capacity(self.alloc, 1)?;
        match self.push_selectors(&mut selectors, depth) {
            Ok(()) => Ok(selectors),
            Err(failure) => {
                discard(selectors);
                Err(failure)
            }
        }
    }

    /// The selectors of a descendant segment, after its two points (RFC 9535, section 2.5.2.1).
    #[cycle(query)]
    #[tactic(auto, unfolding(crate::specs::Reading::Queries::descendant_at))]
    fn descendants(&mut self, depth: u32) -> Result<Vec<Selector>, Failure>
        ensures { Reads (λ v. map selector_view v.items) result self.new.rest.now (descendant_at clamp (logical_at clamp depth) self.old.rest.now) }
    {
        if after(self.rest, '[').is_some() {
            return self.brackets(depth);
        }
        self.dotted()
    }

    /// Blanks and a segment, if there is a point or a bracket (RFC 9535, section 2.1.1).
    #[cycle(query)]
    #[tactic(auto, unfolding(crate::specs::Reading::Queries::next_segment))]
    fn next_segment(&mut self, depth: u32) -> Result<Option<Segment>, Failure>
        ensures { ReadsItem (λ s. segment_view s) result self.old.rest.now self.new.rest.now (next_segment clamp (logical_at clamp depth) self.old.rest.now) }
    {
        if self.takes_next('.') {
            if self.takes('.') {
                return Ok(Some(Segment::Descendant(self.descendants(depth)?)));
            }
            return Ok(Some(Segment::Child(self.dotted()?)));
        }
        if !self.is_next('[') {
            return Ok(None);
        }
        self.skip_blanks();
        Ok(Some(Segment::Child(self.brackets(depth)?)))
    }

    /// Segments, as many as there are (RFC 9535, section 2.1.1).
    #[cycle(query)]
    #[inline(never)]
    pub(super) fn segments(&mut self, depth: u32) -> Result<Vec<Segment>, Failure>
        ensures { Reads (λ v. segments_view v.items) result self.new.rest.now (segments_at clamp (logical_at clamp depth) self.old.rest.now) }
    {
        let mut all = Vec::new(self.alloc);
        for _ in 0..self.rest.len() {
            let Some(one) = self.next_segment(depth)? else {
                break;
            };
            all.push(one)?;
        }
        Ok(all)
    }
}
