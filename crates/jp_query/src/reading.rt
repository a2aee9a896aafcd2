//! A text read as a query, a rel-query or a condition that is well-typed, or where it goes wrong.

ghost use Rattle.std.specs.Prelude.{◌≡◌, IfErr, IfOk};
ghost use Rattle.jp_model.specs.Query.Status.{query};
ghost use Rattle.jp_query.specs.Places.{IsPlace};
ghost use Rattle.jp_query.specs.Status.{query_of, relative_query_of};
ghost use Rattle.jp_types.specs.CheckedConditions.{checked_condition_view};
ghost use Rattle.jp_types.specs.Checks.{checked_view};
ghost use Rattle.jp_query.specs.declared.reading.Refusal.TheVariants.{Memory};
ghost use Rattle.jp_query.specs.Refusals.{IsConditionOf, TellsConditionRefusal, TellsRefusal, TellsRelativeRefusal};

use crate::fault::ParseFault;
use crate::parser::{
    FaultPlace, parse, parse_condition, parse_relative, place_of_condition_fault, place_of_fault,
    place_of_function, place_of_relative_fault,
};
use jp_model::QueryFault;
use jp_syntax::{Logical, Segment};
use jp_types::{Checked, CheckedCondition, Limit, Walk, check, check_condition};
use std::alloc::{AllocError, Global};

/// Why a text was not read.
#[derive(Clone, Copy, Debug, PartialEq, Eq)]
pub enum Refusal {
    /// The text is refused: its first fault, and where it is.
    Fault(FaultPlace),
    /// Memory ran out.
    Memory,
}

impl From<AllocError> for Refusal {
    ghost from_gives = { λ _ e. e ≡ Memory };

    fn from(_error: AllocError) -> Refusal {
        Refusal::Memory
    }
}

/// What a text spells.
#[derive(Clone, Copy)]
enum Spelled<'t> {
    /// The segments of a query.
    Segments(&'t [Segment]),
    /// A condition.
    Condition(&'t Logical),
}

impl Spelled<'_> {
    /// A walk that stopped at the first function that is unknown, or else at the first that does not fit where it stands.
    fn walk_to(self, fault: QueryFault) -> Walk {
        let mut walk = Walk::new();
        let _ = match (self, fault) {
            (Spelled::Segments(segments), QueryFault::Function) => {
                walk.segments_pass(segments, Limit::Functions)
            }
            (Spelled::Segments(segments), _) => walk.segments_typed(segments),
            (Spelled::Condition(expression), QueryFault::Function) => {
                walk.logical_passes(expression, Limit::Functions)
            }
            (Spelled::Condition(expression), _) => walk.logical_typed(expression),
        };
        walk
    }
}

/// The place of a fault of functions or types in what a text spells: the name of the function at fault.
fn place_of_call(
    alloc: Global,
    text: &[u8],
    fault: QueryFault,
    spelled: Spelled<'_>,
) -> Result<FaultPlace, AllocError>
    ensures fault { IfOk result (λ found. found.fault ≡ fault) }
    ensures place { IfOk result (λ found. IsPlace text.now found.place) }
{
    let place = place_of_function(alloc, text, spelled.walk_to(fault).passed())?;
    Ok(FaultPlace {
        fault,
        place,
        expected: None,
    })
}

/// The query that a text spells, where it is well-typed (RFC 9535, sections 2.1 and 2.4.3).
///
/// # Errors
///
/// `Fault` with the first fault of the text, as `parse` and [`check`] tell it, and its place: for a function that is unknown,
/// or does not fit where it stands, its name; for the other faults as [`place_of_fault`] says. `Memory` where memory
/// ran out.
pub fn read_query(alloc: Global, text: &[u8]) -> Result<Checked, Refusal>
    ensures read { IfOk result (λ c. query_of text.now ≡ query (checked_view c)) }
    ensures refused { IfErr result (λ e. TellsRefusal text.now e) }
{
    let query = match parse(alloc, text) {
        Ok(query) => query,
        Err(ParseFault::Refused(fault)) => {
            return Err(Refusal::Fault(place_of_fault(alloc, text, fault)?));
        }
        Err(ParseFault::Memory) => return Err(Refusal::Memory),
    };
    match check(query) {
        Ok(checked) => Ok(checked),
        Err((fault, query)) => Err(Refusal::Fault(place_of_call(
            alloc,
            text,
            fault,
            Spelled::Segments(query.segments()),
        )?)),
    }
}

/// The query that a text spells as a rel-query, where it is well-typed: `@` stands before its segments, where a query has `$`
/// (RFC 9535, sections 2.3.5.1 and 2.4.3).
///
/// # Errors
///
/// As those of [`read_query`]; `Syntax` where the text is not UTF-8 or no rel-query.
pub fn read_relative_query(alloc: Global, text: &[u8]) -> Result<Checked, Refusal>
    ensures read { IfOk result (λ c. relative_query_of text.now ≡ query (checked_view c)) }
    ensures refused { IfErr result (λ e. TellsRelativeRefusal text.now e) }
{
    let query = match parse_relative(alloc, text) {
        Ok(query) => query,
        Err(ParseFault::Refused(fault)) => {
            return Err(Refusal::Fault(place_of_relative_fault(alloc, text, fault)?));
        }
        Err(ParseFault::Memory) => return Err(Refusal::Memory),
    };
    match check(query) {
        Ok(checked) => Ok(checked),
        Err((fault, query)) => Err(Refusal::Fault(place_of_call(
            alloc,
            text,
            fault,
            Spelled::Segments(query.segments()),
        )?)),
    }
}

/// The condition that a text spells by itself, where it is well-typed (RFC 9535, sections 2.3.5 and 2.4.3).
///
/// # Errors
///
/// As those of [`read_query`], with the faults that `parse_condition` and [`check_condition`] tell.
pub fn read_condition(alloc: Global, text: &[u8]) -> Result<CheckedCondition, Refusal>
    ensures read { IfOk result (λ c. IsConditionOf text.now (checked_condition_view c)) }
    ensures refused { IfErr result (λ e. TellsConditionRefusal text.now e) }
{
    let condition = match parse_condition(alloc, text) {
        Ok(condition) => condition,
        Err(ParseFault::Refused(fault)) => {
            return Err(Refusal::Fault(place_of_condition_fault(alloc, text, fault)?));
        }
        Err(ParseFault::Memory) => return Err(Refusal::Memory),
    };
    match check_condition(condition) {
        Ok(checked) => Ok(checked),
        Err((fault, condition)) => Err(Refusal::Fault(place_of_call(
            alloc,
            text,
            fault,
            Spelled::Condition(condition.expression()),
        )?)),
    }
}
