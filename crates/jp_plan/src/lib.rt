//! Plans of queries: which lines of a collection have to be opened, what the plan is in words, and the rows.
//!
//! Public calls:
//!
//! - `Plan::new`, `rows`, `Rows`, `LineRows`: a plan of a checked query over a store, and its rows by line; only lines that
//!   have to be opened are opened
//! - `Plan::answer`, `Answer`, `Row`: the same rows, one by one
//! - `Plan::explain`: the plan in words, and how many lines it opens
#![tactic(auto)]

mod answer;
mod explain;
mod guard;
pub mod laws;
mod lines;
mod plan;
mod route;
mod rows;
mod seek;
mod segments;
mod singular;
mod text;
mod turn;

pub use answer::{Answer, Row};
pub use plan::Plan;
pub use rows::{LineRows, Rows};
