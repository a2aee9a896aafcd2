//! Why the parser stopped, and where.

ghost use Rattle.std.specs.Prelude.{◌≡◌};
ghost use Rattle.jp_query.specs.declared.parser.failure.Failure.TheVariants.{Memory};

use crate::expected::Expected;
use std::alloc::{AllocError, AllocFailed};

/// Where a text cannot go on as it does.
#[derive(Clone, Copy, Debug)]
pub(crate) struct Stop {
    /// How many scalars of the text are left there.
    pub(crate) left: usize,
    /// What the grammar has there.
    pub(crate) expected: Expected,
}

impl Stop {
    /// At the front of what is left of the text.
    pub(crate) fn at(rest: &[char], expected: Expected) -> Stop {
        Stop {
            left: rest.len(),
            expected,
        }
    }

    /// At the end of the text, which is too short.
    pub(crate) fn at_end(expected: Expected) -> Stop {
        Stop { left: 0, expected }
    }
}

/// Why the parser stopped.
#[derive(Clone, Copy, Debug)]
pub(crate) enum Failure {
    /// The grammar does not derive what is there.
    Syntax(Stop),
    /// Memory ran out.
    Memory,
}

/// Drops what was read before a failure.
#[inline(never)]
pub(crate) fn discard<T: Drop>(_read: T) {}

impl From<AllocError> for Failure {
    ghost from_gives = { λ _ e. e ≡ Memory };

    fn from(_e: AllocError) -> Failure {
        Failure::Memory
    }
}

impl<T: Drop> From<AllocFailed<T>> for Failure {
    ghost from_gives = { λ _ e. e ≡ Memory };

    fn from(_e: AllocFailed<T>) -> Failure {
        Failure::Memory
    }
}
