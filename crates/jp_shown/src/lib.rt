//! Texts from outside as messages show them: no control character of theirs reaches a terminal.
//!
//! Public calls:
//!
//! - `shown`: a text with its control characters escaped, and of a long one the beginning
//! - `shown_refusal`: a refusal of words that quotes one of them
#![tactic(auto)]

mod refusal;
mod text;

pub use refusal::shown_refusal;
pub use text::shown;

#[cfg(test)]
mod tests;
