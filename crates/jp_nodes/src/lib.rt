//! The nodes of a line in packed words, the tape of the line, and a cursor that walks them.
//!
//! Public calls:
//!
//! - `Cursor`: a node of a tape, whose kind is a `Kind`. `root`, `of_words`, `at`, `go_to`, `top` are cursors at the root or at
//!   a place; `first_child`, `next_sibling`, `parent`, `after`, `place`, `index`, `child_count` the way through the tree;
//!   `kind`, `span`, `source`, `line`, `name_span`, `name`, `text`, `number` what the node is and where
//! - `Tape`, `Tape::of_words`: the tape of one line
//! - `append_tape`, `packed_words`: the tape of a line after those of others, and its words there, for `Cursor::of_words`
//! - `node`: the three words of a node, and how they are written
//! - `is_truncated`: whether a text of a sequence may have lost its end
//! - `tapes_are_kept`, `tapes_are_of_lines`: laws. More words leave the tapes before them what they are, and a tape is that of
//!   the tree that its line spells
#![tactic(auto)]

mod cursor;
mod ending;
mod forms;
pub mod node;
mod tape;
mod word;

pub use cursor::Cursor;
pub use ending::is_truncated;
pub use forms::append_tape;
pub use tape::{Tape, packed_words, tapes_are_kept, tapes_are_of_lines};

/// What kind of value a node is (RFC 8259, section 3).
#[derive(Clone, Copy, Debug, PartialEq, Eq)]
pub enum Kind {
    Null,
    False,
    True,
    Number,
    Text,
    Array,
    Object,
}
