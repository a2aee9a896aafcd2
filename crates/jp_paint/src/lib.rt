//! Rows in colours: escape sequences around what a row has in front, and around some bytes of a line.
//!
//! Public calls:
//!
//! - `Part`, `stop`, `push_painted`: a part of a row, what begins and ends its colour, and the part in its colour
//! - `push_marked`: a line in which the bytes of some spans are coloured
//! - `laws`: without its escape sequences a row in colours is the row without colours
#![tactic(auto)]

pub mod laws;
mod marked;
mod part;

pub use marked::push_marked;
pub use part::{Part, push_painted, stop};

#[cfg(test)]
mod tests;
