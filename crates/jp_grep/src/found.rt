//! What came of a stream that was searched.

ghost use Rattle.std.specs.Prelude.{◌≡◌};
ghost use Rattle.jp_grep.specs.Watching.{is_whole};

use crate::progress::Counts;

/// Why the rest of a stream was passed over.
#[derive(Clone, Copy, Debug, PartialEq, Eq)]
pub enum Limit {
    /// A line is longer than 4,294,967,294 bytes, or there are more lines or reads than a number of 64 bits counts.
    Size,
    /// A growth was refused.
    Memory,
}

/// Where the rest of a stream was passed over.
#[derive(Clone, Copy, Debug, PartialEq, Eq)]
pub struct Unread {
    pub limit: Limit,
    /// The number of the first line that is not answered, from 1.
    pub line: u64,
}

/// What came of a stream.
#[derive(Clone, Copy, Debug, PartialEq, Eq)]
pub struct Found {
    pub counts: Counts,
    /// Where the rest of it was passed over, if it was.
    pub unread: Option<Unread>,
}

impl Found {
    /// Whether each line was answered, up to the end of the stream or the last line that is wanted.
    pub fn is_whole(&self) -> bool
        ensures { result ≡ is_whole self.now }
    {
        self.unread.is_none() && self.counts.given_up == 0
    }
}
