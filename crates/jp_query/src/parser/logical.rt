//! Logical expressions: comparisons, tests, and what joins them (RFC 9535, section 2.3.5.1).
//!
//! `depth` is how deep brackets and parentheses may still nest.

ghost use Rattle.std.specs.Prelude.{IfOk};
ghost use Rattle.jp_query.specs.Integers.{clamp};
ghost use Rattle.jp_query.specs.Parsing.{AddsAll, AddsItem, Reads, ReadsItem, TakesAs, call_test, parsed_view, single_comparison};
ghost use Rattle.jp_query.specs.Reading.Literals.{operator_at, origin_at};
ghost use Rattle.jp_query.specs.Reading.Queries.{closed_at, comparison_behind, query_behind, call_or_comparison, literal_comparison, test_at, negated_at, plain_at, basic_at, next_basic, and_at, next_and, logical_at};
ghost use Rattle.jp_query.specs.Reading.Scalars.{all_of, call_start, skip_blanks};
ghost use Rattle.jp_syntax.specs.View.{logical_view, comparable_view, op_view, origin_view};

use super::Parser;
use super::expression::{
    Connective, compare_of, exists_of, joined, not_of, push_part, side_of, single_of, test_of,
};
use super::failure::{Failure, discard};
use super::literals::{operator, origin};
use super::parsed::Parsed;
use super::scalars::{call_start, skip_blanks};
use super::stops::{at_operator, at_word};
use crate::expected::Expected;
use jp_syntax::{Comparable, CompareOp, Logical, Origin};
use std::alloc::AllocError;

impl<'t> Parser<'t> {
    /// Passes the mark with which a query begins, if one is at the front.
    pub(super) fn takes_origin(&mut self) -> Option<Origin>
        ensures { TakesAs (λ o. origin_view o) result self.old.rest.now self.new.rest.now (origin_at self.old.rest.now) }
    {
        let (origin, rest) = origin(self.rest)?;
        self.rest = rest;
        Some(origin)
    }

    /// Passes blanks and an operator of a comparison, if an operator stands behind them.
    fn takes_operator(&mut self) -> Option<CompareOp>
        ensures { TakesAs (λ op. op_view op) result self.old.rest.now self.new.rest.now (operator_at (skip_blanks self.old.rest.now)) }
    {
        let (operator, rest) = operator(skip_blanks(self.rest))?;
        self.rest = rest;
        Some(operator)
    }

    /// Passes the name of a function and the parenthesis after it, if a call is at the front, and gives the name.
    #[inline(never)]
    pub(super) fn takes_call(&mut self) -> Result<Option<&'t [char]>, AllocError>
        ensures { IfOk result (λ found. TakesAs (λ name. name.now) found self.old.rest.now self.new.rest.now (call_start self.old.rest.now)) }
    {
        let left = self.rest.len();
        let Some((name, rest)) = call_start(self.rest) else {
            return Ok(None);
        };
        self.noted.functions.push(left)?;
        self.rest = rest;
        Ok(Some(name))
    }

    /// An expression and a parenthesis after it, after the first parenthesis (RFC 9535, section 2.3.5.1).
    #[cycle(query)]
    #[tactic(auto, unfolding(crate::specs::Reading::Queries::closed_at))]
    #[inline(never)]
    fn closed(&mut self, depth: u32) -> Result<Box<Logical>, Failure>
        ensures { Reads (λ l. logical_view l.value) result self.new.rest.now (closed_at clamp (logical_at clamp depth) self.old.rest.now) }
    {
        self.skip_blanks();
        let inner = self.logical(depth)?.logical;
        if !self.takes_next(')') {
            let stop = self.stop_behind_condition(
                &inner,
                Expected::ComparisonOrParenthesis,
                Expected::Parenthesis,
            );
            discard(inner);
            return Err(Failure::Syntax(stop));
        }
        Ok(inner)
    }

    /// A comparison after its first side and its operator (RFC 9535, section 2.3.5.1).
    #[cycle(query)]
    #[tactic(auto, unfolding(crate::specs::Reading::Queries::comparison_behind))]
    #[inline(never)]
    fn comparison(&mut self, left: Comparable, op: CompareOp, depth: u32) -> Result<Parsed, Failure>
        ensures { Reads (λ e. parsed_view e) result self.new.rest.now (comparison_behind clamp (logical_at clamp depth) (comparable_view left) (op_view op) self.old.rest.now) }
    {
        self.skip_blanks();
        let right = self.comparable(depth)?;
        Ok(Parsed {
            is_bare: false,
            logical: compare_of(self.alloc, left, op, right)?,
        })
    }

    /// A comparison whose first side is a singular query, after its mark, if an operator stands after the query. If not, nothing
    /// is read.
    #[cycle(query)]
    #[tactic(auto, unfolding(crate::specs::Parsing::single_comparison))]
    #[inline(never)]
    fn single_comparison(&mut self, origin: Origin, depth: u32) -> Result<Option<Parsed>, Failure>
        ensures { ReadsItem (λ e. parsed_view e) result self.old.rest.now self.new.rest.now (single_comparison (logical_at clamp depth) (origin_view origin) self.old.rest.now) }
    {
        let before = self.rest;
        let steps = self.singular()?;
        let Some(op) = self.takes_operator() else {
            self.rest = before;
            return Ok(None);
        };
        Ok(Some(self.comparison(single_of(origin, steps), op, depth)?))
    }

    /// A comparison whose first side is a query, or a test of a query, after its mark.
    #[cycle(query)]
    #[tactic(auto, unfolding(crate::specs::Reading::Queries::query_behind, crate::specs::Parsing::single_comparison))]
    #[inline(never)]
    fn query_or_comparison(&mut self, origin: Origin, depth: u32) -> Result<Parsed, Failure>
        ensures { Reads (λ e. parsed_view e) result self.new.rest.now (query_behind clamp (logical_at clamp depth) (origin_view origin) self.old.rest.now) }
    {
        if let Some(comparison) = self.single_comparison(origin, depth)? {
            return Ok(comparison);
        }
        let segments = self.segments(depth)?;
        Ok(Parsed {
            is_bare: true,
            logical: exists_of(self.alloc, origin, segments)?,
        })
    }

    /// A comparison whose first side is a call, or a test of a call, after its name and its parenthesis.
    #[cycle(query)]
    #[tactic(auto, unfolding(crate::specs::Reading::Queries::call_or_comparison))]
    #[inline(never)]
    fn call_or_comparison(&mut self, name: &[char], depth: u32) -> Result<Parsed, Failure>
        ensures { Reads (λ e. parsed_view e) result self.new.rest.now (call_or_comparison clamp (logical_at clamp depth) name.now self.old.rest.now) }
    {
        let call = self.call(name, depth)?;
        if let Some(op) = self.takes_operator() {
            return self.comparison(side_of(call), op, depth);
        }
        Ok(Parsed {
            is_bare: true,
            logical: test_of(self.alloc, call)?,
        })
    }

    /// A comparison whose first side is a literal.
    #[cycle(query)]
    #[tactic(auto, unfolding(crate::specs::Reading::Queries::literal_comparison))]
    #[inline(never)]
    fn literal_comparison(&mut self, depth: u32) -> Result<Parsed, Failure>
        ensures { Reads (λ e. parsed_view e) result self.new.rest.now (literal_comparison clamp (logical_at clamp depth) self.old.rest.now) }
    {
        let value = self.literal()?;
        let Some(op) = self.takes_operator() else {
            return Err(Failure::Syntax(at_operator(skip_blanks(self.rest), Expected::Comparison)));
        };
        self.comparison(Comparable::Constant(value), op, depth)
    }

    /// A call alone, after its name and its parenthesis.
    #[cycle(query)]
    #[inline(never)]
    fn call_test(&mut self, name: &[char], depth: u32) -> Result<Box<Logical>, Failure>
        ensures { Reads (λ l. logical_view l.value) result self.new.rest.now (call_test (logical_at clamp depth) name.now self.old.rest.now) }
    {
        let call = self.call(name, depth)?;
        Ok(test_of(self.alloc, call)?)
    }

    /// A query or a call alone (RFC 9535, section 2.3.5.1).
    #[cycle(query)]
    #[tactic(auto, unfolding(crate::specs::Reading::Queries::test_at))]
    #[inline(never)]
    fn test(&mut self, depth: u32) -> Result<Box<Logical>, Failure>
        ensures { Reads (λ l. logical_view l.value) result self.new.rest.now (test_at clamp (logical_at clamp depth) self.old.rest.now) }
    {
        if let Some(origin) = self.takes_origin() {
            let segments = self.segments(depth)?;
            return Ok(exists_of(self.alloc, origin, segments)?);
        }
        let Some(name) = self.takes_call()? else {
            return Err(Failure::Syntax(at_word(self.rest, Expected::Test)));
        };
        self.call_test(name, depth)
    }

    /// What follows `!`: a parenthesis, a query or a call, and no comparison.
    #[cycle(query)]
    #[tactic(auto, unfolding(crate::specs::Reading::Queries::negated_at))]
    #[inline(never)]
    fn negated(&mut self, depth: u32) -> Result<Parsed, Failure>
        ensures { Reads (λ e. parsed_view e) result self.new.rest.now (negated_at clamp (logical_at clamp depth) self.old.rest.now) }
    {
        let inner = if self.takes('(') {
            self.closed(depth)?
        } else {
            self.test(depth)?
        };
        Ok(Parsed {
            is_bare: false,
            logical: not_of(self.alloc, inner)?,
        })
    }

    /// A basic expression without `!` (RFC 9535, section 2.3.5.1).
    #[cycle(query)]
    #[tactic(auto, unfolding(crate::specs::Reading::Queries::plain_at))]
    #[inline(never)]
    fn plain(&mut self, depth: u32) -> Result<Parsed, Failure>
        ensures { Reads (λ e. parsed_view e) result self.new.rest.now (plain_at clamp (logical_at clamp depth) self.old.rest.now) }
    {
        if self.takes('(') {
            return Ok(Parsed {
                is_bare: false,
                logical: self.closed(depth)?,
            });
        }
        if let Some(origin) = self.takes_origin() {
            return self.query_or_comparison(origin, depth);
        }
        match self.takes_call()? {
            Some(name) => self.call_or_comparison(name, depth),
            None => self.literal_comparison(depth),
        }
    }

    /// A basic expression (RFC 9535, section 2.3.5.1).
    #[cycle(query)]
    #[tactic(auto, unfolding(crate::specs::Reading::Queries::basic_at))]
    fn basic(&mut self, depth: u32) -> Result<Parsed, Failure>
        ensures { Reads (λ e. parsed_view e) result self.new.rest.now (basic_at clamp (logical_at clamp depth) self.old.rest.now) }
    {
        if self.takes('!') {
            self.skip_blanks();
            return self.negated(depth);
        }
        self.plain(depth)
    }

    /// Passes blanks, `&&` and blanks and adds a basic expression, if there is a `&`, and answers whether there was one.
    #[cycle(query)]
    #[tactic(auto, unfolding(crate::specs::Reading::Queries::next_basic))]
    fn push_next_basic(&mut self, all: &mut Vec<Logical>, depth: u32) -> Result<bool, Failure>
        ensures { AddsItem (λ l. logical_view l) result all.old.items all.new.items self.old.rest.now self.new.rest.now (next_basic clamp (logical_at clamp depth) self.old.rest.now) }
    {
        if !self.takes_next('&') {
            return Ok(false);
        }
        if !self.takes('&') {
            return Err(Failure::Syntax(self.stop(Expected::And)));
        }
        self.skip_blanks();
        let part = self.basic(depth)?.logical;
        push_part(all, part)?;
        Ok(true)
    }

    /// Adds the parts after the first `&&`.
    #[cycle(query)]
    fn push_more_basics(&mut self, all: &mut Vec<Logical>, depth: u32) -> Result<(), Failure>
        ensures { AddsAll (λ l. logical_view l) result all.old.items all.new.items self.new.rest.now (all_of (next_basic clamp (logical_at clamp depth)) self.old.rest.now) }
    {
        for _ in 0..self.rest.len() {
            if !self.push_next_basic(all, depth)? {
                break;
            }
        }
        Ok(())
    }

    /// Parts between `&&` (RFC 9535, section 2.3.5.1).
    #[cycle(query)]
    #[tactic(auto, unfolding(crate::specs::Reading::Queries::and_at))]
    #[inline(never)]
    fn conjunction(&mut self, depth: u32) -> Result<Parsed, Failure>
        ensures { Reads (λ e. parsed_view e) result self.new.rest.now (and_at clamp (logical_at clamp depth) self.old.rest.now) }
    {
        let first = self.basic(depth)?;
        let mut others = Vec::new(self.alloc);
        if let Err(failure) = self.push_more_basics(&mut others, depth) {
            discard(first);
            discard(others);
            return Err(failure);
        }
        Ok(joined(self.alloc, Connective::And, first, others)?)
    }

    /// Passes blanks, `||` and blanks and adds parts between `&&`, if there is a `|`, and answers whether there was one.
    #[cycle(query)]
    #[tactic(auto, unfolding(crate::specs::Reading::Queries::next_and))]
    fn push_next_conjunction(&mut self, all: &mut Vec<Logical>, depth: u32) -> Result<bool, Failure>
        ensures { AddsItem (λ l. logical_view l) result all.old.items all.new.items self.old.rest.now self.new.rest.now (next_and clamp (logical_at clamp depth) self.old.rest.now) }
    {
        if !self.takes_next('|') {
            return Ok(false);
        }
        if !self.takes('|') {
            return Err(Failure::Syntax(self.stop(Expected::Or)));
        }
        self.skip_blanks();
        let part = self.conjunction(depth)?.logical;
        push_part(all, part)?;
        Ok(true)
    }

    /// Adds the parts after the first `||`.
    #[cycle(query)]
    fn push_more_conjunctions(&mut self, all: &mut Vec<Logical>, depth: u32) -> Result<(), Failure>
        ensures { AddsAll (λ l. logical_view l) result all.old.items all.new.items self.new.rest.now (all_of (next_and clamp (logical_at clamp depth)) self.old.rest.now) }
    {
        for _ in 0..self.rest.len() {
            if !self.push_next_conjunction(all, depth)? {
                break;
            }
        }
        Ok(())
    }

    /// An expression (RFC 9535, section 2.3.5.1).
    #[cycle(query)]
    #[tactic(auto, unfolding(crate::specs::Reading::Queries::logical_at, crate::specs::Reading::Queries::or_at))]
    #[inline(never)]
    pub(super) fn logical(&mut self, depth: u32) -> Result<Parsed, Failure>
        ensures { Reads (λ e. parsed_view e) result self.new.rest.now (logical_at clamp depth self.old.rest.now) }
    {
        if depth == 0 {
            return Err(Failure::Syntax(self.stop(Expected::Operand)));
        }
        let first = self.conjunction(depth - 1)?;
        let mut others = Vec::new(self.alloc);
        if let Err(failure) = self.push_more_conjunctions(&mut others, depth - 1) {
            discard(first);
            discard(others);
            return Err(failure);
        }
        Ok(joined(self.alloc, Connective::Or, first, others)?)
    }
}
