//! Lines of context: of the rows that a search tells, those that are selected, and those near them in their stream.
//!
//! Public calls:
//!
//! - `Context`: a sink that shows those that are selected and those near them
//! - `laws`: what holds of the rows that are shown
//! - `worked`: examples
#![tactic(auto)]

mod context;
mod groups;
pub mod laws;
mod shown;
mod state;
pub mod worked;

pub use context::Context;

#[cfg(test)]
mod tests;
