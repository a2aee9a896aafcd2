//! Kernels over lanes of bytes: the classes of 64 bytes at once, and searches and tests that look at 64 bytes at a time.
//!
//! Public calls:
//!
//! - `classify`, `pad`, `Classes`: the classes of 64 bytes; fewer bytes padded with zeros
//! - `separators`, `are_ascii`: which of 64 bytes are RS; whether all of them are ASCII characters
//! - `first_special`, `has_special`: the next quote, backslash or control byte; whether there is one
//! - `equal_bytes`, `ends_differ`: equality of bytes; whether their lengths and ends tell that they differ
//! - `first_escape`, `digits_end`, `digits_ends`: the next backslash or control byte; the next byte that is no digit; the next
//!   two
#![tactic(auto)]

mod classes;
mod digits;
mod escapes;
mod search;
#[cfg(test)]
mod tests;
mod widths;

pub use classes::{Classes, are_ascii, classify, pad, separators};
pub use digits::{digits_end, digits_ends};
pub use escapes::first_escape;
pub use search::{ends_differ, equal_bytes, first_special, has_special};
