//! The limits of a query: what its integers, its exponents and the names of its functions have to be.

ghost use Rattle.std.specs.Prelude.{◌≡◌};
ghost use Rattle.jp_model.specs.Query.Limits.{bound_passes};
ghost use Rattle.jp_types.specs.Limits.{limit_tests};
ghost use Rattle.jp_syntax.specs.View.{literal_view};
ghost use Rattle.std.specs.Prelude.{chars, string_bytes};

use crate::numbers::is_long_exponent;
use crate::signature::signature_of;
use jp_syntax::Literal;

/// The greatest exact integer (RFC 7493, section 2.2).
const MAX_EXACT: i64 = 9_007_199_254_740_991;

/// A limit of a query.
#[derive(Clone, Copy, Debug)]
pub enum Limit {
    /// The integers of selectors are exact (RFC 9535, section 2.1).
    Integers,
    /// The exponents of number literals are short: after their leading zeros they have at most 15 digits.
    Exponents,
    /// The functions are among the five (RFC 9535, section 2.4).
    Functions,
}

/// Whether an integer of a selector keeps a limit.
pub fn integer_passes(value: i64, limit: Limit) -> bool
    ensures { result ≡ (limit_tests limit).integer value }
{
    match limit {
        Limit::Integers => -MAX_EXACT <= value && value <= MAX_EXACT,
        Limit::Exponents | Limit::Functions => true,
    }
}

/// Whether a literal keeps a limit.
pub fn literal_passes(literal: &Literal, limit: Limit) -> bool
    ensures { result ≡ (limit_tests limit).literal (literal_view literal.now) }
{
    match (limit, literal) {
        (Limit::Exponents, Literal::Number(bytes)) => !is_long_exponent(bytes.as_slice()),
        _ => true,
    }
}

/// Whether a bound of a slice, if it is there, keeps a limit.
pub(crate) fn bound_passes(bound: Option<i64>, limit: Limit) -> bool
    ensures { result ≡ bound_passes (limit_tests limit).integer bound }
{
    match bound {
        Some(value) => integer_passes(value, limit),
        None => true,
    }
}

/// Whether the name of a function keeps a limit.
pub(crate) fn function_passes(name: &String, limit: Limit) -> bool
    ensures { result ≡ (limit_tests limit).function (chars (string_bytes name.now)) }
{
    match limit {
        Limit::Functions => signature_of(name).is_some(),
        Limit::Integers | Limit::Exponents => true,
    }
}
