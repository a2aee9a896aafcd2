//! The rows of tables: cells parted by tabs, or by commas (RFC 4180, section 2), and how a row is read back.
//!
//! Public items:
//!
//! - `TableRow`: a row that is made cell by cell
//! - `CellKind`: what a cell has
//! - `laws`: a row leads back to its cells, and between commas to their kinds
#![tactic(auto)]

mod cell;
pub mod laws;
mod literal;
mod row;

pub use cell::CellKind;
pub use row::TableRow;
