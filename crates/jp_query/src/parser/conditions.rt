//! Reading a logical expression that stands alone (RFC 9535, section 2.3.5).

ghost use Rattle.std.specs.Prelude.{◌≡◌, true, IsFalse, IfErr, IfOk};
ghost use Rattle.jp_model.specs.Query.Limits.{is_oversized, has_exact_integers, has_small_exponents};
ghost use Rattle.jp_model.specs.Query.Syntax as syntax;
ghost use Rattle.jp_query.specs.ConditionOutcome.{MeantAlone};
ghost use Rattle.jp_query.specs.Conditions.{GivesCondition, IsFirstConditionFault};
ghost use Rattle.jp_query.specs.Integers.{clamp};
ghost use Rattle.jp_query.specs.Parsing.{Gives};
ghost use Rattle.jp_query.specs.Reading.Queries.{alone_at};
ghost use Rattle.jp_query.specs.Status.{read_alone};
ghost use Rattle.jp_syntax.specs.Queries.{condition_view};
ghost use Rattle.jp_syntax.specs.Filters.{SpellsCondition, filter_by, in_filter};
ghost use Rattle.jp_syntax.specs.View.{logical_view};

use super::failure::{Failure, Stop};
use super::{MAX_BYTES, MAX_DEPTH, MAX_OPENED, Parser, opened, to_scalars};
use crate::expected::Expected;
use crate::fault::ParseFault;
use jp_model::QueryFault;
use jp_syntax::{Condition, Logical};
use jp_types::{Limit, Walk};
use std::alloc::Global;

/// The bytes before a condition in the query in whose only filter it stands: `$[?`.
pub(super) const BYTES_BEFORE: usize = 3;

/// The bytes after it: `]`.
const BYTES_AFTER: usize = 1;

/// The brackets that are opened before it.
pub(super) const OPENED_BEFORE: usize = 1;

/// Whether the query in whose only filter the text stands is too long, or opens too many brackets and parentheses.
fn is_oversized(text: &[u8]) -> bool
    ensures { result ≡ is_oversized (in_filter text.now) }
{
    text.len() > MAX_BYTES - BYTES_BEFORE - BYTES_AFTER || opened(text) > MAX_OPENED - OPENED_BEFORE
}

impl Parser<'_> {
    /// An expression, up to the bracket with which the text ends (RFC 9535, section 2.3.5.1).
    #[tactic(auto, unfolding(crate::specs::Reading::Queries::alone_at))]
    fn alone(&mut self) -> Result<Logical, Failure>
        ensures { Gives (λ l. logical_view l) result (alone_at clamp 512 self.old.rest.now) }
    {
        self.skip_blanks();
        let expression = Box::into_inner(self.logical(MAX_DEPTH)?.logical);
        if !self.takes_next(']') || !self.rest.is_empty() {
            return Err(Failure::Syntax(self.next_stop(Expected::End)));
        }
        Ok(expression)
    }
}

/// The expression that a text spells, each integer of a selector brought to one step outside the exact ones where it is farther
/// from them. The bracket that closes its filter is put after it.
fn read(alloc: Global, text: &[u8]) -> Result<Logical, Failure>
    ensures { Gives (λ l. logical_view l) result (read_alone clamp text.now) }
{
    let Ok(text) = simdutf8::basic::from_utf8(text) else {
        return Err(Failure::Syntax(Stop::at_end(Expected::Utf8)));
    };
    let mut scalars = to_scalars(alloc, text)?;
    scalars.push(']')?;
    Parser::new(alloc, &scalars).alone()
}

/// The condition that a text spells, or the first fault that it meets.
fn answer(alloc: Global, text: &[u8]) -> Result<Condition, ParseFault>
    ensures { MeantAlone text.now result }
{
    if is_oversized(text) {
        return Err(ParseFault::Refused(QueryFault::Size));
    }
    let expression = match read(alloc, text) {
        Ok(expression) => expression,
        Err(Failure::Syntax(_)) => return Err(ParseFault::Refused(QueryFault::Syntax)),
        Err(Failure::Memory) => return Err(ParseFault::Memory),
    };
    if !Walk::new().logical_passes(&expression, Limit::Integers) {
        return Err(ParseFault::Refused(QueryFault::Integer));
    }
    if !Walk::new().logical_passes(&expression, Limit::Exponents) {
        return Err(ParseFault::Refused(QueryFault::Number));
    }
    Ok(Condition::new(expression))
}

/// The logical expression that a text spells, as it may stand between `$[?` and `]` of a query of one filter, blanks around it
/// allowed (RFC 9535, section 2.3.5).
///
/// Types are not looked at, as `parse` does not.
///
/// # Errors
///
/// `Refused` with the first fault: `Size` where that query would have more than 65,535 bytes, or more than 512 bytes `(` or `[`
/// together; `Syntax` where the text is not UTF-8 or no logical expression; `Integer` and `Number` as for a query. `Memory`
/// where memory ran out.
pub fn parse_condition(alloc: Global, text: &[u8]) -> Result<Condition, ParseFault>
    // What is found is spelled so.
    ensures found { IfOk result (λ c. IsFalse (is_oversized (in_filter text.now)) × SpellsCondition text.now (condition_view c)) }
    // What is spelled within the limits is found, and nothing else.
    ensures only { (l : syntax.Logical) → IsFalse (is_oversized (in_filter text.now)) → SpellsCondition text.now l → has_exact_integers (filter_by l) ≡ true → has_small_exponents (filter_by l) ≡ true → GivesCondition l result }
    ensures fault { IfErr result (λ e. IsFirstConditionFault text.now e) }
{
    answer(alloc, text)
}
