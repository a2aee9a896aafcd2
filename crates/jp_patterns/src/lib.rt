//! The literal patterns of `match` and `search` in a query (RFC 9535, sections 2.4.6 and 2.4.7).
//!
//! Public calls:
//!
//! - `invalid_patterns`, `invalid_patterns_of`: those in a query, or in a logical expression, that are not valid, and so match nothing
#![tactic(auto)]

mod invalid;
mod literals;

pub use invalid::{invalid_patterns, invalid_patterns_of};
