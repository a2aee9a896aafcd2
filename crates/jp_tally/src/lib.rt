//! How many of each: the rows that were told, each once with how often it was (profile).
//!
//! Public calls:
//!
//! - `Tally`: a sink that counts rows; `write_rows` writes how often each was told
//! - `TallyFault`: why that was not written
//! - `laws`: what holds of each tally
#![tactic(auto)]

mod cells;
mod counted;
mod counting;
mod fault;
pub mod laws;
mod ranked;
mod rows;
mod tally;
#[cfg(test)]
mod tests;
mod text;

pub use fault::TallyFault;
pub use tally::Tally;
