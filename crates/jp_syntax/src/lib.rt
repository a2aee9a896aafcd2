//! The syntax tree of a JSONPath query (RFC 9535).
//!
//! Public calls:
//!
//! - `Query`, `Condition`: a query, and a logical expression that stands alone, which some text within the limits spells
//! - `Segment`, `Selector`, `Logical`, `Comparable`, `Argument`, `Path`, `Call`, `Origin`, `Literal`, `CompareOp`: the syntax
//!   tree
//! - `singular`, `is_singular`, `SingularPath`, `Step`: the steps of a singular query, if it is one; `singular_selector` of a
//!   segment
#![tactic(auto)]

mod condition;
mod paths;
mod query;
mod tree;

pub use condition::Condition;
pub use paths::{SingularPath, Step, is_singular, singular, singular_selector};
pub use query::Query;
pub use tree::{
    Argument, Call, Comparable, CompareOp, Literal, Logical, Origin, Path, Segment, Selector,
};
