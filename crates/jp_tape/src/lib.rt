//! The builder of tapes: the nodes of a line in packed words, or the line's first fault.
//!
//! Public calls:
//!
//! - `build`, `BuildFault`, `Tape`: the tape of a line's tree, or the line's first fault
//! - `Builder`: the same for line after line, with memory that is lent from one to the next: `new`, and `append`, which puts
//!   the tape of a line after those of others
//! - `Cursor`, `Kind`, `packed_words`, `tapes_are_kept`, `tapes_are_of_lines`: tapes and their nodes, as `jp_nodes` has them
#![tactic(auto)]

mod builder;
#[cfg(test)]
mod tests;

pub use builder::{BuildFault, Builder, build};
pub use jp_nodes::{Cursor, Kind, Tape, packed_words, tapes_are_kept, tapes_are_of_lines};
