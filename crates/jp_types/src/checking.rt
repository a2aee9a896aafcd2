//! The check of the types of a query, and of a condition.

ghost use Rattle.std.specs.Prelude.{◌≡◌, MatchResult, Some, None};
ghost use Rattle.jp_model.specs.Query.Status.{fault_of_query};
ghost use Rattle.jp_syntax.specs.Queries.{condition_view, query_view};
ghost use Rattle.jp_syntax.specs.Filters.{filter_by};
ghost use Rattle.jp_types.specs.CheckedConditions.{checked_condition_view};
ghost use Rattle.jp_types.specs.Checks.{checked_view};

use crate::checked::Checked;
use crate::condition::CheckedCondition;
use crate::limits::Limit;
use crate::walk::Walk;
use jp_model::QueryFault;
use jp_syntax::{Condition, Query};

/// Checks the types of a query (RFC 9535, section 2.4.3). It allocates nothing.
///
/// # Errors
///
/// [`QueryFault::Function`] where a function is not one of the five, and otherwise [`QueryFault::Types`] where the query is
/// not well-typed; with the query as it was.
pub fn check(query: Query) -> Result<Checked, (QueryFault, Query)>
    ensures same { MatchResult result (λ c. checked_view c ≡ query_view query) (λ e. e.1 ≡ query) }
    ensures fault { MatchResult result (λ c. fault_of_query (query_view query) ≡ None) (λ e. fault_of_query (query_view query) ≡ Some e.0) }
{
    // A well-typed query names no other function.
    if Walk::new().segments_typed(query.segments()) {
        return Ok(Checked::new(query));
    }
    if Walk::new().segments_pass(query.segments(), Limit::Functions) {
        return Err((QueryFault::Types, query));
    }
    Err((QueryFault::Function, query))
}

/// Checks the types of a logical expression that stands alone (RFC 9535, section 2.4.3). It allocates nothing.
///
/// # Errors
///
/// As those of [`check`], of the query in whose only filter the expression stands; with the condition as it was.
pub fn check_condition(condition: Condition) -> Result<CheckedCondition, (QueryFault, Condition)>
    ensures same { MatchResult result (λ c. checked_condition_view c ≡ condition_view condition) (λ e. e.1 ≡ condition) }
    ensures fault { MatchResult result (λ c. fault_of_query (filter_by (condition_view condition)) ≡ None) (λ e. fault_of_query (filter_by (condition_view condition)) ≡ Some e.0) }
{
    if Walk::new().logical_typed(condition.expression()) {
        return Ok(CheckedCondition::new(condition));
    }
    if Walk::new().logical_passes(condition.expression(), Limit::Functions) {
        return Err((QueryFault::Types, condition));
    }
    Err((QueryFault::Function, condition))
}
