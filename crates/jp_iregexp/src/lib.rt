//! I-Regexp patterns (RFC 9485): their reading, and the texts that they match.
//!
//! Public calls:
//!
//! - `Pattern::parse`, `matches`, `occurs`: a pattern; whether a whole text, or a part of it, matches
#![tactic(auto)]

mod automaton;
mod brackets;
mod branches;
mod class;
mod codes;
mod compiled;
mod counts;
mod entries;
mod escapes;
mod even;
mod graph;
mod group;
mod groups;
mod items;
mod kept;
pub mod laws;
mod layout;
mod lengths;
mod matcher;
mod members;
mod names;
mod node;
mod parsed;
mod parser;
mod pattern;
mod places;
mod positions;
mod repeats;
mod runs;
mod tables;
mod token;
mod waiting;
mod walk;

pub use pattern::Pattern;

type Result<T> = std::result::Result<T, std::alloc::AllocError>;
