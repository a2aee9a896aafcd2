//! What queries select, and when their filters hold (RFC 9535, sections 2.3 to 2.5).
//!
//! Public calls:
//!
//! - `Program::compile`, `Program::run`, `Program::run_in`: a query, compiled once and run for each line
//! - `Program::selects_in`: whether it selects a node
//! - `Program::run_again`, `Program::selects_again`, `Predicate::holds_again`: the same, where the frame remembers what was
//!   asked of the same root
//! - `Frame`: what lends its room from line to line
//! - `Predicate::compile`, `Predicate::holds_in`: a logical expression, compiled once and asked of nodes
//! - `eval_from`, `truth`: the nodelist of segments; whether an expression holds of a node
//! - `follow`: the node of a singular path, without memory
#![tactic(auto)]

mod answers;
mod calls;
mod compile;
mod compile_filter;
mod conditions;
mod constants;
mod evaluate;
mod frame;
mod functions;
mod indexing;
mod known;
mod leaves;
mod predicate;
mod program;
mod question;
mod roots;
mod select;
mod slicing;
mod sums;
mod values;
mod ways;

/// What a call gives that may be refused memory.
type Result<T> = std::result::Result<T, std::alloc::AllocError>;

pub use evaluate::{Program, eval_from};
pub use frame::Frame;
pub use jp_children::follow;
pub use predicate::{Predicate, truth};
