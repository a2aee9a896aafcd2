//! Calls of functions, their arguments, and the sides of comparisons (RFC 9535, sections 2.3.5.1 and 2.4).
//!
//! `depth` is how deep brackets and parentheses may still nest.

ghost use Rattle.std.specs.Prelude.{map};
ghost use Rattle.jp_query.specs.Integers.{clamp};
ghost use Rattle.jp_query.specs.Parsing.{Adds, AddsAll, AddsItem, Reads, literal_alone};
ghost use Rattle.jp_query.specs.Reading.Literals.{literal_at};
ghost use Rattle.jp_query.specs.Reading.Queries.{argument_at, next_argument, arguments_at, call_behind, comparable_at, logical_at};
ghost use Rattle.jp_query.specs.Reading.Scalars.{all_of};
ghost use Rattle.jp_syntax.specs.View.{comparable_view, argument_view, call_view, literal_view};

use super::Parser;
use super::expression::{call_of, push_expression, side_of, single_of};
use super::failure::{Failure, discard};
use super::literals::{begins_without_literal, literal, operator};
use super::scalars::{skip_blanks, to_text};
use crate::expected::Expected;
use jp_syntax::{Argument, Call, Comparable, Literal};
use jp_types::{Limit, literal_passes};

impl<'t> Parser<'t> {
    /// A literal (RFC 9535, section 2.3.5.1).
    pub(super) fn literal(&mut self) -> Result<Literal, Failure>
        ensures { Reads (λ l. literal_view l) result self.new.rest.now (literal_at self.old.rest.now) }
    {
        let left = self.rest.len();
        let (literal, rest) = literal(self.alloc, self.rest)?;
        self.rest = rest;
        if !literal_passes(&literal, Limit::Exponents) {
            let _ = self.noted.exponent.get_or_insert(left);
        }
        Ok(literal)
    }

    /// Adds a literal, if no operator stands after it, and answers whether it did. If it did not, nothing is read.
    #[tactic(auto, unfolding(crate::specs::Parsing::literal_alone))]
    #[inline(never)]
    fn push_literal(&mut self, all: &mut Vec<Argument>) -> Result<bool, Failure>
        ensures { AddsItem (λ a. argument_view a) result all.old.items all.new.items self.old.rest.now self.new.rest.now (literal_alone self.old.rest.now) }
    {
        let before = self.rest;
        let value = self.literal()?;
        if operator(skip_blanks(self.rest)).is_some() {
            self.rest = before;
            return Ok(false);
        }
        all.push(Argument::Constant(value))?;
        Ok(true)
    }

    /// Adds an argument of a function (RFC 9535, section 2.4): a literal with no operator after it, or an expression.
    #[cycle(query)]
    #[tactic(auto, unfolding(crate::specs::Reading::Queries::argument_at, crate::specs::Reading::Queries::condition_at, crate::specs::Parsing::literal_alone))]
    #[inline(never)]
    fn push_argument(&mut self, all: &mut Vec<Argument>, depth: u32) -> Result<(), Failure>
        ensures { Adds (λ a. argument_view a) result all.old.items all.new.items self.new.rest.now (argument_at clamp (logical_at clamp depth) self.old.rest.now) }
    {
        if !begins_without_literal(self.rest) && self.push_literal(all)? {
            return Ok(());
        }
        let expression = self.logical(depth)?;
        Ok(push_expression(self.alloc, all, expression)?)
    }

    /// Passes blanks, a comma and blanks and adds an argument, if there is a comma, and answers whether there was one.
    #[cycle(query)]
    #[tactic(auto, unfolding(crate::specs::Reading::Queries::next_argument))]
    fn push_next_argument(&mut self, all: &mut Vec<Argument>, depth: u32) -> Result<bool, Failure>
        ensures { AddsItem (λ a. argument_view a) result all.old.items all.new.items self.old.rest.now self.new.rest.now (next_argument clamp (logical_at clamp depth) self.old.rest.now) }
    {
        if !self.takes_next(',') {
            return Ok(false);
        }
        self.skip_blanks();
        self.push_argument(all, depth)?;
        Ok(true)
    }

    /// Adds the arguments after the first one.
    #[cycle(query)]
    fn push_more_arguments(&mut self, all: &mut Vec<Argument>, depth: u32) -> Result<(), Failure>
        ensures { AddsAll (λ a. argument_view a) result all.old.items all.new.items self.new.rest.now (all_of (next_argument clamp (logical_at clamp depth)) self.old.rest.now) }
    {
        for _ in 0..self.rest.len() {
            if !self.push_next_argument(all, depth)? {
                break;
            }
        }
        Ok(())
    }

    /// Adds arguments, and passes the parenthesis after them (RFC 9535, section 2.4).
    #[cycle(query)]
    #[tactic(auto, unfolding(crate::specs::Reading::Queries::arguments_at))]
    fn push_arguments(&mut self, all: &mut Vec<Argument>, depth: u32) -> Result<(), Failure>
        ensures { AddsAll (λ a. argument_view a) result all.old.items all.new.items self.new.rest.now (arguments_at clamp (logical_at clamp depth) self.old.rest.now) }
    {
        self.push_argument(all, depth)?;
        self.push_more_arguments(all, depth)?;
        if !self.takes_next(')') {
            return Err(Failure::Syntax(self.next_stop(Expected::Argument)));
        }
        Ok(())
    }

    /// Arguments and a parenthesis after them (RFC 9535, section 2.4).
    #[cycle(query)]
    #[inline(never)]
    fn arguments(&mut self, depth: u32) -> Result<Vec<Argument>, Failure>
        ensures { Reads (λ v. map argument_view v.items) result self.new.rest.now (arguments_at clamp (logical_at clamp depth) self.old.rest.now) }
    {
        let mut arguments = Vec::with_capacity(self.alloc, 1)?;
        match self.push_arguments(&mut arguments, depth) {
            Ok(()) => Ok(arguments),
            Err(failure) => {
                discard(arguments);
                Err(failure)
            }
        }
    }

    /// A call of a function, after its name and its parenthesis (RFC 9535, section 2.4).
    #[cycle(query)]
    #[tactic(auto, unfolding(crate::specs::Reading::Queries::call_behind))]
    #[inline(never)]
    pub(super) fn call(&mut self, name: &[char], depth: u32) -> Result<Call, Failure>
        ensures { Reads (λ c. call_view c) result self.new.rest.now (call_behind clamp (logical_at clamp depth) name.now self.old.rest.now) }
    {
        let name = to_text(self.alloc, name)?;
        if self.takes_next(')') {
            return Ok(call_of(name, Vec::new(self.alloc)));
        }
        self.skip_blanks();
        Ok(call_of(name, self.arguments(depth)?))
    }

    /// A side of a comparison (RFC 9535, section 2.3.5.1).
    #[cycle(query)]
    #[tactic(auto, unfolding(crate::specs::Reading::Queries::comparable_at))]
    pub(super) fn comparable(&mut self, depth: u32) -> Result<Comparable, Failure>
        ensures { Reads (λ c. comparable_view c) result self.new.rest.now (comparable_at clamp (logical_at clamp depth) self.old.rest.now) }
    {
        if let Some(origin) = self.takes_origin() {
            return Ok(single_of(origin, self.singular()?));
        }
        if let Some(name) = self.takes_call()? {
            return Ok(side_of(self.call(name, depth)?));
        }
        Ok(Comparable::Constant(self.literal()?))
    }
}
