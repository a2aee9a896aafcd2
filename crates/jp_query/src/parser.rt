//! Reading a query (RFC 9535, section 2 and appendix A).
//!
//! Expressions nest up to 512 deep, and each level takes a frame of every function that leads to the next one, so the frames are
//! kept small: an expression stands in a box, a list is filled in place, and what makes, moves or drops a large value is marked
//! `#[inline(never)]`, as are the functions that lead to the next level, whose frames would else be joined.

mod calls;
mod class;
mod conditions;
mod expression;
mod failure;
mod literals;
mod logical;
mod noted;
mod numbers;
mod parsed;
mod places;
mod queries;
mod scalars;
mod selectors;
mod stops;
mod strings;

ghost use Rattle.std.specs.Prelude.{◌≡◌, true, IsFalse, IfOk, IfErr, chars, count_by, is_some};
ghost use Rattle.jp_model.specs.Query.Limits.{is_opener, is_oversized, has_exact_integers, has_small_exponents};
ghost use Rattle.jp_model.specs.Query.Status.{TextSpells};
ghost use Rattle.jp_model.specs.Query.Syntax.{Segments};
ghost use Rattle.jp_query.specs.Answers.{GivesQuery, IsFirstFault, TellsRelativeStatus, TellsStatus};
ghost use Rattle.jp_query.specs.Integers.{clamp};
ghost use Rattle.jp_query.specs.Parsing.{Gives, Takes};
ghost use Rattle.jp_syntax.specs.Queries.{query_view};
ghost use Rattle.jp_query.specs.Reading.Queries.{query_at, relative_at, whole_segments};
ghost use Rattle.jp_query.specs.Reading.Scalars.{after, after_blanks, skip_blanks};
ghost use Rattle.jp_query.specs.Outcome.{MeantBehind};
ghost use Rattle.jp_query.specs.Status.{read_behind};
ghost use Rattle.jp_syntax.specs.View.{origin_view, segments_view};

use crate::expected::Expected;
use crate::fault::ParseFault;
pub use conditions::parse_condition;
use failure::{Failure, Stop};
use jp_model::QueryFault;
use jp_syntax::{Origin, Query, Segment};
use jp_types::{Limit, Walk};
use noted::Noted;
pub(crate) use places::place_of_relative_fault;
pub use places::{
    FaultPlace, character_at, place_of_condition_fault, place_of_fault, place_of_function,
};
use scalars::{after, skip_blanks};
use std::alloc::{AllocError, Global};

/// How deep brackets and parentheses nest at most.
const MAX_DEPTH: u32 = 512;

/// The bytes that a text has at most.
const MAX_BYTES: usize = 65_535;

/// The brackets and parentheses that are opened in a text at most.
const MAX_OPENED: usize = 512;

/// How many brackets and parentheses a text opens.
fn opened(text: &[u8]) -> usize
    ensures { result ≡ count_by is_opener text.now }
{
    let mut opened: usize = 0;
    for byte in text {
        if *byte == b'(' || *byte == b'[' {
            opened += 1;
        }
    }
    opened
}

/// Whether the text is too long, or opens too many brackets and parentheses.
fn is_oversized(text: &[u8]) -> bool
    ensures { result ≡ is_oversized text.now }
{
    text.len() > MAX_BYTES || opened(text) > MAX_OPENED
}

/// The scalars of a text.
fn to_scalars(alloc: Global, text: &str) -> Result<Vec<char>, AllocError>
    ensures { IfOk result (λ v. v.items ≡ chars text.now) }
{
    text.chars().collect(alloc)
}

/// A reader of a text from its front.
#[derive(Drop)]
pub(crate) struct Parser<'t> {
    alloc: Global,
    /// The scalars that are left.
    rest: &'t [char],
    noted: Noted,
}

impl<'t> Parser<'t> {
    /// At the front of a text.
    fn new(alloc: Global, text: &'t [char]) -> Parser<'t>
        ensures { result.rest.now ≡ text.now }
    {
        let noted = Noted {
            integer: None,
            exponent: None,
            functions: Vec::new(alloc),
        };
        Parser {
            alloc,
            rest: text,
            noted,
        }
    }

    /// Passes blanks.
    fn skip_blanks(&mut self)
        ensures { self.new.rest.now ≡ skip_blanks self.old.rest.now }
    {
        self.rest = skip_blanks(self.rest);
    }

    /// Passes a scalar, if it is at the front.
    fn takes(&mut self, wanted: char) -> bool
        ensures { Takes result self.old.rest.now self.new.rest.now (after wanted self.old.rest.now) }
    {
        let Some(rest) = after(self.rest, wanted) else {
            return false;
        };
        self.rest = rest;
        true
    }

    /// Passes blanks and a scalar, if the scalar stands behind them.
    fn takes_next(&mut self, wanted: char) -> bool
        ensures { Takes result self.old.rest.now self.new.rest.now (after_blanks wanted self.old.rest.now) }
    {
        let Some(rest) = after(skip_blanks(self.rest), wanted) else {
            return false;
        };
        self.rest = rest;
        true
    }

    /// Whether blanks and a scalar are at the front.
    fn is_next(&self, wanted: char) -> bool
        ensures { result ≡ is_some (after_blanks wanted self.now.rest.now) }
    {
        after(skip_blanks(self.rest), wanted).is_some()
    }

    /// Where the text cannot go on as it does: here.
    fn stop(&self, expected: Expected) -> Stop {
        Stop::at(self.rest, expected)
    }

    /// Where the text cannot go on as it does: behind blanks.
    fn next_stop(&self, expected: Expected) -> Stop {
        Stop::at(skip_blanks(self.rest), expected)
    }

    /// The segments that are the whole of what is left, after an identifier (RFC 9535, section 2.1.1).
    fn whole_segments(&mut self) -> Result<Vec<Segment>, Failure>
        ensures { Gives (λ v. segments_view v.items) result (whole_segments clamp 512 self.old.rest.now) }
    {
        let segments = self.segments(MAX_DEPTH)?;
        if !self.rest.is_empty() {
            return Err(Failure::Syntax(self.next_stop(Expected::Segment)));
        }
        Ok(segments)
    }

    /// The segments of a query that is the whole of what is left (RFC 9535, section 2.1.1).
    #[tactic(auto, unfolding(crate::specs::Reading::Queries::query_at))]
    fn query_segments(&mut self) -> Result<Vec<Segment>, Failure>
        ensures { Gives (λ v. segments_view v.items) result (query_at clamp 512 self.old.rest.now) }
    {
        if !self.takes('$') {
            return Err(Failure::Syntax(self.stop(Expected::Root)));
        }
        self.whole_segments()
    }

    /// The segments of a rel-query that is the whole of what is left (RFC 9535, section 2.3.5.1).
    #[tactic(auto, unfolding(crate::specs::Reading::Queries::relative_at))]
    fn relative_segments(&mut self) -> Result<Vec<Segment>, Failure>
        ensures { Gives (λ v. segments_view v.items) result (relative_at clamp 512 self.old.rest.now) }
    {
        if !self.takes('@') {
            return Err(Failure::Syntax(self.stop(Expected::Current)));
        }
        self.whole_segments()
    }
}

/// The segments of the query or rel-query that a text spells, each integer of a selector brought to one step outside the exact
/// ones where it is farther from them.
fn read(alloc: Global, text: &[u8], origin: Origin) -> Result<Vec<Segment>, Failure>
    ensures { Gives (λ v. segments_view v.items) result (read_behind (origin_view origin) clamp text.now) }
{
    let Ok(text) = simdutf8::basic::from_utf8(text) else {
        return Err(Failure::Syntax(Stop::at_end(Expected::Utf8)));
    };
    let scalars = to_scalars(alloc, text)?;
    let mut parser = Parser::new(alloc, &scalars);
    match origin {
        Origin::Root => parser.query_segments(),
        Origin::Current => parser.relative_segments(),
    }
}

/// The query or rel-query that a text spells, or the first fault that it meets.
fn answer(alloc: Global, text: &[u8], origin: Origin) -> Result<Query, ParseFault>
    ensures { MeantBehind (origin_view origin) text.now result }
{
    if is_oversized(text) {
        return Err(ParseFault::Refused(QueryFault::Size));
    }
    let segments = match read(alloc, text, origin) {
        Ok(segments) => segments,
        Err(Failure::Syntax(_)) => return Err(ParseFault::Refused(QueryFault::Syntax)),
        Err(Failure::Memory) => return Err(ParseFault::Memory),
    };
    if !Walk::new().segments_pass(&segments, Limit::Integers) {
        return Err(ParseFault::Refused(QueryFault::Integer));
    }
    if !Walk::new().segments_pass(&segments, Limit::Exponents) {
        return Err(ParseFault::Refused(QueryFault::Number));
    }
    Ok(Query::new(segments))
}

/// The query that a text spells (RFC 9535, section 2.1).
///
/// Types are not looked at: a query with an unknown function, or with arguments that are not well-typed, is given too.
///
/// # Errors
///
/// `Refused` with the first fault of the text: `Size` where it has more than 65,535 bytes, or more than 512 bytes `(` or
/// `[` together; `Syntax` where it is not UTF-8 or no query; `Integer` if an integer of a selector is not exact; and
/// `Number` if the exponent of a number is too long. `Memory` where memory ran out.
pub fn parse(alloc: Global, text: &[u8]) -> Result<Query, ParseFault>
    // What is found is spelled so.
    ensures found { IfOk result (λ q. IsFalse (is_oversized text.now) × TextSpells text.now (query_view q)) }
    // What is spelled within the limits is found, and nothing else.
    ensures only { (q : Segments) → IsFalse (is_oversized text.now) → TextSpells text.now q → has_exact_integers q ≡ true → has_small_exponents q ≡ true → GivesQuery q result }
    ensures fault { IfErr result (λ e. IsFirstFault text.now e) }
    ensures status { TellsStatus text.now result }
{
    answer(alloc, text, Origin::Root)
}

/// The query that a text spells as a rel-query, with `@` where a query has `$` (RFC 9535, section 2.3.5.1).
///
/// # Errors
///
/// As those of [`parse`]; `Syntax` where the text is not UTF-8 or no rel-query.
pub(crate) fn parse_relative(alloc: Global, text: &[u8]) -> Result<Query, ParseFault>
    ensures { TellsRelativeStatus text.now result }
{
    answer(alloc, text, Origin::Current)
}
