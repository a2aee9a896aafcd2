//! What may be wrong with a line of a file of examples.

use std::alloc::{AllocError, AllocFailed};

/// What is wrong with a line.
#[derive(Clone, Copy, Debug, PartialEq, Eq)]
pub(crate) enum Reason {
    NotUtf8,
    BeforeFirst,
    NoName,
    UnknownMark,
    NoSpace,
    UnknownKey,
    Repeated,
    Number,
    UnknownFraming,
    UnknownEnding,
    Unclosed,
    NotBytes,
    NotAtEnd,
}

impl Reason {
    /// What is said about the line.
    pub(crate) fn message(self) -> &'static str {
        match self {
            Reason::NotUtf8 => "the line is not UTF-8",
            Reason::BeforeFirst => "the line stands before the first example",
            Reason::NoName => "the example has no name",
            Reason::UnknownMark => "the line begins with no known mark",
            Reason::NoSpace => "no space stands behind the mark",
            Reason::UnknownKey => "no setting has this name",
            Reason::Repeated => "the example has this setting already",
            Reason::Number => "the value is no number from 0 to 4294967295",
            Reason::UnknownFraming => "the framing is not `sequence`",
            Reason::UnknownEnding => "the ending is none of `size`, `framing` and `read script`",
            Reason::Unclosed => "« has no » behind it",
            Reason::NotBytes =>
                "neither hexadecimal bytes nor `no line feed` stand between « and »",
            Reason::NotAtEnd => "«no line feed» does not stand at the line's end",
        }
    }
}

/// A line that is malformed.
#[derive(Clone, Copy, Debug, PartialEq, Eq)]
pub(crate) struct Malformed {
    /// The line's number in its file, from 1.
    pub(crate) line: u64,
    /// What is wrong with it.
    pub(crate) reason: Reason,
}

/// Why a line is not taken.
#[derive(Debug, Drop)]
pub(crate) enum LineFault {
    /// It is malformed.
    Malformed(Reason),
    /// Out of memory.
    Memory,
}

impl From<AllocError> for LineFault {
    fn from(_: AllocError) -> LineFault {
        LineFault::Memory
    }
}

impl<T: Drop> From<AllocFailed<T>> for LineFault {
    fn from(_: AllocFailed<T>) -> LineFault {
        LineFault::Memory
    }
}

impl From<Reason> for LineFault {
    fn from(reason: Reason) -> LineFault {
        LineFault::Malformed(reason)
    }
}
