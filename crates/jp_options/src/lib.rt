//! The arguments of jpgrep: what they ask for, and why they are refused.
//!
//! Public calls:
//!
//! - `pair_words`, `read_words`: the arguments as options
//! - `Colour`: when what is printed has colours
//! - `Options`: the queries, the conditions and the files, and the form of what is written of a file
#![tactic(auto)]

mod arguments;
mod colour;
mod columns;
mod context;
mod messages;
mod options;
mod pairs;
mod words;

pub use colour::Colour;
pub use options::Options;
pub use pairs::pair_words;
pub use words::read_words;
