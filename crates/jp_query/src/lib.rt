//! The reader of JSONPath queries (RFC 9535).
//!
//! Public calls:
//!
//! - `read_query`, `read_relative_query`, `read_condition`, `Refusal`: a text read and checked, or its first fault and where it
//!   is
//! - `parse`, `ParseFault`, `Query`: the syntax tree of a text, or its first fault
//! - `parse_condition`, `Condition`: a logical expression that stands alone, or the first fault of its text
//! - `place_of_fault`, `place_of_condition_fault`, `FaultPlace`, `Expected`: where a text goes wrong that is refused;
//!   `character_at`, `place_of_function`: places of characters and of functions
//! - `Query`, `Condition` and what they are made of, `singular` and `SingularPath`: the syntax tree, as `jp_syntax` has it
#![tactic(auto)]

mod expected;
mod fault;
pub mod laws;
mod parser;
mod reading;

pub use expected::Expected;
pub use fault::ParseFault;
pub use jp_syntax::{
    Argument, Call, Comparable, CompareOp, Condition, Literal, Logical, Origin, Path, Query,
    Segment, Selector, SingularPath, Step, is_singular, singular, singular_selector,
};
pub use parser::{
    FaultPlace, character_at, parse, parse_condition, place_of_condition_fault, place_of_fault,
    place_of_function,
};
pub use reading::{Refusal, read_condition, read_query, read_relative_query};
