//! The cut of a stream into JSON texts, or into the elements of its arrays.
//!
//! Public calls:
//!
//! - `Cutter`: takes in a stream read by read, and hands out each piece as soon as it ended
//! - `Pieces`: which pieces those are; `PieceAt`: where a piece is held
#![tactic(auto)]

mod cutter;
mod front;
pub mod laws;
mod machine;
mod skipping;
#[cfg(test)]
mod tests;
pub mod worked;

pub use cutter::{Cutter, PieceAt};
pub use machine::Pieces;
