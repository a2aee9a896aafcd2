//! A collection in memory: its lines, their tapes, and the indexes over them.
//!
//! Public calls:
//!
//! - `Store::load`, `LoadFault`: the lines of a collection, each with its status and tape, and no index
//! - `line_count`, `tree_count`, `refused_count`, `line_status`, `Status`, `text`, `refused_lines`, `refused_behind`: how many
//!   lines there are, how many with a tree and how many that are refused; what line n is, from 1, and its bytes; the numbers of
//!   the refused lines, ascending; the first of them after line n
//! - `meter`, `is_metered`, `Opened::count`, `view`, `LineView`: a count at 0, which can be had once; line n with its tape,
//!   which adds one to the count
//! - `add_index`, `IndexFault`, `drop_index`, `Missing`, `index_count`, `index`, `path_at`: the indexes and their paths, in the
//!   order in which they were made
//! - `append`, `replace`, `EditFault`: a line added at the end, or put in the place of line n, in the text and in every index
#![tactic(auto)]

mod collection;
mod counts;
mod edits;
mod indexes;
mod measuring;
mod opened;
mod store;

pub use jp_lines::{LineView, Status};
pub use jp_model::Framing;
pub use opened::Opened;
pub use store::Store;

/// Why a collection is not loaded.
#[derive(Clone, Copy, Debug, PartialEq, Eq)]
pub enum LoadFault {
    /// A read failed.
    Read = 1,
    /// It has more bytes than it may.
    Size = 2,
    /// Bytes other than white space come before the first separator of a sequence.
    Framing = 3,
    /// A growth was refused.
    Memory = 4,
}

/// Why an index is not made.
#[derive(Clone, Copy, Debug, PartialEq, Eq)]
pub enum IndexFault {
    /// There is one of this path.
    Exists = 1,
    /// There are sixteen.
    Limit = 2,
    /// A growth was refused.
    Memory = 3,
}

/// Why a line is not edited.
#[derive(Clone, Copy, Debug, PartialEq, Eq)]
pub enum EditFault {
    /// There is no such line.
    NoLine = 1,
    /// The lines would be too large.
    Size = 2,
    /// The text holds the byte that separates lines.
    Separator = 3,
    /// A growth was refused.
    Memory = 4,
}

/// There is no index of this path.
#[derive(Clone, Copy, Debug, PartialEq, Eq)]
pub struct Missing;
