//! The members of a node for many names at once (RFC 9535, section 2.3.1.2).
//!
//! Public calls:
//!
//! - `ColumnNames::new`, `ColumnNames::find`: the names of columns, sorted once, and the member of each among those of a node
#![tactic(auto)]

mod columns;
mod order;
#[cfg(test)]
mod tests;

pub use columns::ColumnNames;
