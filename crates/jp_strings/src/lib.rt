//! The strings of JSON texts (RFC 8259, section 7), read where they are. A body is what is between a string's quotes.
//!
//! Public calls:
//!
//! - `test_body`, `test_utf8_body`, `test_utf8_within`: whether bytes are the body of a string, or the fault; the second for
//!   bytes known to be UTF-8, the third for such bytes of a line
//! - `Scalars`, `scalar_count`, `equal`, `compare`, `compare_scalars`, `unescape`: the scalars that a body spells; their
//!   number, equality, order (the second reads no further than the bodies agree) and text
//! - `unescape_into`, `plain_text`: that text in a buffer whose room is kept; without a copy, of a body with no escape
//! - `spells`, `compare_text`: whether a body spells a text; their order
//! - `is_plain`, `spells_known`: whether each byte of a text stands for itself; `spells` for a text for which that may be
//!   known
//! - `control_escape`: the escape `\u00XX` that a control character is written as
#![tactic(auto)]

mod checks;
mod control;
mod escape;
mod fault;
pub mod laws;
mod order;
mod scalars;

pub use checks::{test_body, test_utf8_body, test_utf8_within};
pub use control::control_escape;
pub use fault::StringFault;
pub use order::{
    compare, compare_scalars, compare_text, equal, is_plain, plain_text, scalar_count, spells,
    spells_known, unescape, unescape_into,
};
pub use scalars::Scalars;

#[cfg(test)]
mod tests;
