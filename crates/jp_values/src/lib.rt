//! Values of JSON texts and of queries: their equality and order (RFC 9535, section 2.3.5.2.2), and keys for them.
//!
//! Public calls:
//!
//! - `Value`, `equal`, `less`, `compare`: a side of a comparison, and what an operator answers
//! - `compare_with_number`, `compare_with_text`: that answer for a node and a number or a text, which are not copied into
//!   sides
//! - `Value::read`: the side with the number of its node read
//! - `equal_in`, `compare_in`: the same answers, with memory for large objects whose members come in different orders
//! - `Member`: a member of an object, ordered by the scalars of its name
//! - `key_of`, `key_of_literal`, `Key`: one key for all equal values that are neither arrays nor objects, ordered as these
#![tactic(auto)]

mod body;
mod comparison;
mod constant;
mod equality;
mod equality_in;
mod key;
mod keys;
pub mod laws;
mod member;
mod members;
mod number;
mod scalar;
mod text;
mod value;

pub use comparison::{compare, compare_in, less};
pub use constant::{compare_with_number, compare_with_text};
pub use equality::equal;
pub use equality_in::equal_in;
pub use key::Key;
pub use keys::{key_of, key_of_literal};
pub use member::Member;
pub use value::Value;
