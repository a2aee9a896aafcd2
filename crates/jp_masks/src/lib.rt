//! The marks of lines: where the tokens of a JSON text begin, found in words of 64 bytes.
//!
//! Public calls:
//!
//! - `line_marks`, `find_line_marks`: the marks of one line, in room of their own or in room that is lent
//! - `Scanner`: the lines of a collection fed in pieces, and the marks of each
//! - `Marks`, `LineMarks`: the lines that were found
//! - `scan_block`: one block of 64 bytes, for whoever cuts a stream by other rules
#![tactic(auto)]

mod block;
mod byte_bits;
mod framed;
pub mod laws;
mod lines;
mod one_line;
mod progress;
mod room;
mod row;
mod scanner;
#[cfg(test)]
mod tests;
mod validity;

pub use block::{Carry, Found, scan_block};
pub use lines::{LineMarks, Marks};
pub use one_line::{find_line_marks, line_marks};
pub use scanner::Scanner;
