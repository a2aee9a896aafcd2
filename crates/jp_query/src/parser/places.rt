//! Where a text goes wrong.

ghost use Rattle.std.specs.Prelude.{◌≡◌, ◌≤◌, IfOk};
ghost use Rattle.jp_query.specs.Places.{IsPlace};

use super::conditions::{BYTES_BEFORE, OPENED_BEFORE};
use super::failure::{Failure, Stop};
use super::{MAX_BYTES, MAX_DEPTH, MAX_OPENED, Parser, to_scalars};
use crate::expected::Expected;
use jp_model::QueryFault;
use std::alloc::{AllocError, Global};

/// A fault of a text, and where it is.
#[derive(Clone, Copy, Debug, PartialEq, Eq)]
pub struct FaultPlace {
    /// The fault.
    pub fault: QueryFault,
    /// Where it is, in bytes from 0: at most the text's length.
    pub place: usize,
    /// For [`QueryFault::Syntax`]: what the grammar has there.
    pub expected: Option<Expected>,
}

/// The last place at or before `at` at which a character of the text begins, or its end; in bytes that are not UTF-8, where
/// their UTF-8 ends.
pub fn character_at(text: &[u8], at: usize) -> usize
    ensures { IsPlace text.now result }
{
    match simdutf8::compat::from_utf8(text) {
        Ok(text) => text.floor_char_boundary(at),
        Err(error) => error.valid_up_to(),
    }
}

/// The byte of a text at which a number of its scalars are left.
fn byte_of(text: &str, left: usize) -> usize {
    let mut place = text.len();
    for scalar in text.chars().rev().take(left) {
        place = place.saturating_sub(scalar.len_utf8());
    }
    place
}

/// The byte past which a text is too large: the bracket past the limit, if the text opens more than that, or the last one
/// allowed.
fn past_size(text: &[u8], before: usize) -> usize {
    let mut room = MAX_OPENED.saturating_sub(before);
    for (at, byte) in text.iter().enumerate() {
        if *byte == b'(' || *byte == b'[' {
            if room == 0 {
                return at.min(MAX_BYTES);
            }
            room -= 1;
        }
    }
    MAX_BYTES
}

/// What the parser reads of a text: a query, a rel-query, or a condition that stands alone.
#[derive(Clone, Copy)]
enum Grammar {
    Query,
    RelativeQuery,
    Condition,
}

impl Grammar {
    /// How many bytes of the query stand before the text.
    fn bytes_before(self) -> usize
        ensures { result ≤ 3 }
    {
        match self {
            Grammar::Query | Grammar::RelativeQuery => 0,
            Grammar::Condition => BYTES_BEFORE,
        }
    }

    /// How many brackets are open before the text.
    fn opened_before(self) -> usize {
        match self {
            Grammar::Query | Grammar::RelativeQuery => 0,
            Grammar::Condition => OPENED_BEFORE,
        }
    }

    /// Reads a text, as far as it can. It gives where the text stops, which may be its end.
    fn read(self, parser: &mut Parser<'_>) -> Result<Stop, Failure> {
        match self {
            Grammar::Query => {
                parser.query_segments()?;
            }
            Grammar::RelativeQuery => {
                parser.relative_segments()?;
            }
            Grammar::Condition => {
                parser.skip_blanks();
                let condition = parser.logical(MAX_DEPTH)?.logical;
                return Ok(parser.stop_behind_condition(
                    &condition,
                    Expected::ComparisonOrEnd,
                    Expected::End,
                ));
            }
        }
        Ok(Stop::at_end(Expected::Segment))
    }

    /// Where a fault is in a text of which it is not the size, and what the grammar has there.
    fn stop(self, alloc: Global, text: &[char], fault: QueryFault) -> Result<Stop, AllocError> {
        let mut parser = Parser::new(alloc, text);
        let stop = match self.read(&mut parser) {
            Ok(stop) | Err(Failure::Syntax(stop)) => stop,
            Err(Failure::Memory) => return Err(AllocError),
        };
        let left = match fault {
            QueryFault::Integer => parser.noted.integer,
            QueryFault::Number => parser.noted.exponent,
            _ => None,
        };
        Ok(Stop {
            left: left.unwrap_or(stop.left),
            expected: stop.expected,
        })
    }

    /// Where a fault is, and what the grammar has there.
    fn find(self, alloc: Global, text: &[u8], fault: QueryFault) -> Result<FaultPlace, AllocError>
        ensures fault { IfOk result (λ found. found.fault ≡ fault) }
        ensures place { IfOk result (λ found. IsPlace text.now found.place) }
    {
        if fault == QueryFault::Size {
            let at = past_size(text, self.opened_before());
            let place = character_at(text, at.min(MAX_BYTES - self.bytes_before()));
            return Ok(FaultPlace {
                fault,
                place,
                expected: None,
            });
        }
        let Ok(spelled) = simdutf8::basic::from_utf8(text) else {
            let place = character_at(text, 0);
            return Ok(FaultPlace {
                fault,
                place,
                expected: Some(Expected::Utf8),
            });
        };
        let scalars = to_scalars(alloc, spelled)?;
        let stop = self.stop(alloc, &scalars, fault)?;
        Ok(FaultPlace {
            fault,
            place: character_at(text, byte_of(spelled, stop.left)),
            expected: (fault == QueryFault::Syntax).then_some(stop.expected),
        })
    }
}

/// Where the fault is for which `parse` refuses a text.
///
/// For `Syntax` it is the first byte of the token at which the text cannot go on, the length where the text is too short, or
/// the first byte that is no UTF-8; for `Integer` and `Number` the first byte of the number; for `Size` the bracket past the
/// limit, or the last character that begins at or before byte 65,535.
///
/// # Errors
///
/// Memory ran out.
pub fn place_of_fault(
    alloc: Global,
    text: &[u8],
    fault: QueryFault,
) -> Result<FaultPlace, AllocError>
    ensures fault { IfOk result (λ found. found.fault ≡ fault) }
    ensures place { IfOk result (λ found. IsPlace text.now found.place) }
{
    Grammar::Query.find(alloc, text, fault)
}

/// Where the fault is for which `parse_relative` refuses a text, as [`place_of_fault`] tells it of a query.
///
/// # Errors
///
/// Memory ran out.
pub(crate) fn place_of_relative_fault(
    alloc: Global,
    text: &[u8],
    fault: QueryFault,
) -> Result<FaultPlace, AllocError>
    ensures fault { IfOk result (λ found. found.fault ≡ fault) }
    ensures place { IfOk result (λ found. IsPlace text.now found.place) }
{
    Grammar::RelativeQuery.find(alloc, text, fault)
}

/// Where the fault is for which `parse_condition` refuses a text, as [`place_of_fault`] tells it of a query.
///
/// # Errors
///
/// Memory ran out.
pub fn place_of_condition_fault(
    alloc: Global,
    text: &[u8],
    fault: QueryFault,
) -> Result<FaultPlace, AllocError>
    ensures fault { IfOk result (λ found. found.fault ≡ fault) }
    ensures place { IfOk result (λ found. IsPlace text.now found.place) }
{
    Grammar::Condition.find(alloc, text, fault)
}

/// How many scalars of a text are left at the function that is number `number`, from 0, read by the first grammar that the text
/// follows: 0 where there are fewer.
fn left_at_function(alloc: Global, text: &[char], number: usize) -> Result<usize, AllocError> {
    for grammar in [Grammar::Query, Grammar::RelativeQuery, Grammar::Condition] {
        let mut parser = Parser::new(alloc, text);
        match grammar.read(&mut parser) {
            Ok(stop) if stop.left == 0 => {
                return Ok(match parser.noted.functions.get(number) {
                    Some(left) => *left,
                    None => 0,
                });
            }
            Err(Failure::Memory) => return Err(AllocError),
            _ => {}
        }
    }
    Ok(0)
}

/// The byte at which the name of the function begins that is number `number`, from 0, in a text that is a query, a rel-query
/// or a condition: the text's length where there are fewer.
///
/// # Errors
///
/// Memory ran out.
pub fn place_of_function(alloc: Global, text: &[u8], number: usize) -> Result<usize, AllocError>
    ensures { IfOk result (λ place. IsPlace text.now place) }
{
    let Ok(spelled) = simdutf8::basic::from_utf8(text) else {
        return Ok(character_at(text, 0));
    };
    let scalars = to_scalars(alloc, spelled)?;
    let left = left_at_function(alloc, &scalars, number)?;
    Ok(character_at(text, byte_of(spelled, left)))
}
