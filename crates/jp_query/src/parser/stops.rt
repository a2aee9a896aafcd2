//! Where a text cannot go on as it does, looked at once the parser has stopped.
//!
//! A text that some more characters would make a query has its place at the end.

use super::Parser;
use super::class::Class;
use super::failure::{Failure, Stop};
use super::literals::operator;
use super::scalars::{begins_with, run};
use super::strings::escape;
use crate::expected::Expected;
use jp_syntax::{Comparable, Logical, Selector, is_singular};

/// Where no literal and no function begins. A word that goes on to the end may become one.
pub(super) fn at_word(text: &[char], expected: Expected) -> Stop {
    let (_, rest) = run(text, Class::FunctionScalar);
    if begins_with(text, Class::Lower) && rest.is_empty() {
        return Stop::at_end(expected);
    }
    Stop::at(text, expected)
}

/// Where no operator stands. The first character of one may be the last of the text.
pub(super) fn at_operator(text: &[char], expected: Expected) -> Stop {
    match text {
        ['=' | '!'] => Stop::at_end(expected),
        _ => Stop::at(text, expected),
    }
}

/// The last part of an expression of several parts.
fn last_part(condition: &Logical) -> &Logical {
    match condition {
        Logical::Or(parts) | Logical::And(parts) => match parts.last() {
            Some(part) => part,
            None => condition,
        },
        _ => condition,
    }
}

/// What a singular query has where some query has that.
fn in_singular(expected: Expected) -> Expected {
    match expected {
        Expected::Selector => Expected::SingularSelector,
        Expected::Name => Expected::SingularName,
        Expected::Bracket => Expected::SingularBracket,
        other => other,
    }
}

impl<'t> Parser<'t> {
    /// After a comparison with a query, where neither one more segment of it nor what closes the condition stands: the place in
    /// what begins as a segment, where a singular query cannot go on.
    fn stop_at_segment(&mut self, closed: Expected) -> Stop {
        let here = self.stop(closed);
        if !matches!(self.rest, ['.' | '[', ..]) {
            return here;
        }
        match self.singular_segment() {
            Err(Failure::Syntax(stop)) => Stop {
                left: stop.left,
                expected: in_singular(stop.expected),
            },
            _ => here,
        }
    }

    /// After a condition and blanks, where what closes it does not stand, and where an operator does, after a query that is not
    /// singular.
    #[inline(never)]
    pub(super) fn stop_behind_condition(
        &mut self,
        condition: &Logical,
        compared: Expected,
        closed: Expected,
    ) -> Stop {
        self.skip_blanks();
        match last_part(last_part(condition)) {
            Logical::Exists(_) if operator(self.rest).is_some() => {
                self.stop(Expected::SingularQuery)
            }
            Logical::Exists(path) if is_singular(&path.segments) => at_operator(
                self.rest, compared,
            ),
            Logical::Test(_) => at_operator(self.rest, compared),
            Logical::Compare {
                right: Comparable::Single(_),
                ..
            } => self.stop_at_segment(closed),
            _ => self.stop(closed),
        }
    }

    /// After the selectors of a segment and blanks, where no bracket stands.
    #[inline(never)]
    pub(super) fn stop_behind_selectors(&mut self, selectors: &[Selector]) -> Stop {
        if let Some(Selector::Filter(condition)) = selectors.last() {
            return self.stop_behind_condition(
                condition,
                Expected::ComparisonOrBracket,
                Expected::Bracket,
            );
        }
        self.next_stop(Expected::Bracket)
    }
}

/// An escape with all that it may have, whatever stands in it first.
const LONGEST_ESCAPE: [char; 11] = ['u', 'D', '8', '0', '0', '\\', 'u', 'D', 'C', '0', '0'];

/// Whether a text after a backslash is the beginning of an escape.
fn begins_escape(text: &[char], quote: char) -> bool {
    let mut whole = LONGEST_ESCAPE;
    if text.len() >= whole.len() {
        return false;
    }
    for (place, scalar) in text.iter().enumerate() {
        whole[place] = *scalar;
    }
    escape(&whole, quote).is_some()
}

/// Between two quotes, where no character stands.
pub(super) fn within_quotes(text: &[char], quote: char) -> Stop {
    match text {
        [] => Stop::at_end(Expected::Quote),
        ['\\', rest @ ..] if begins_escape(rest, quote) => Stop::at_end(Expected::Escape),
        ['\\', ..] => Stop::at(text, Expected::Escape),
        _ => Stop::at(text, Expected::EscapedControl),
    }
}
