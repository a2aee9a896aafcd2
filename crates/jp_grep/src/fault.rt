//! Why a search stopped.

use crate::format::Format;

/// Why a search stopped before the end of its stream.
#[derive(Clone, Copy, Debug, PartialEq, Eq)]
pub enum SearchFault {
    /// A read failed.
    Read,
    /// Bytes other than white space come before the first separator of a sequence.
    Framing,
    /// The stream begins with the mark of another format.
    Foreign(Format),
    /// A line is longer than 4,294,967,294 bytes, or there are more lines or reads than a number of 64 bits counts. No search
    /// answers it: there it is told by `Found::unread`.
    Size,
    /// A row was not written: a write failed or took no byte, or a flush failed.
    Write,
    /// A message was not written, in the same way.
    Report,
    /// A growth was refused. No search answers it, in the same way.
    Memory,
}
