//! Canonical text: one text for all values that are equal (RFC 9535, section 2.3.5.2.2), in the manner of RFC 8785.
//!
//! Public calls:
//!
//! - `Printer`: `new`, and `append`, which puts the canonical text of a node after other text
//!
//! Where the text differs from that of RFC 8785:
//!
//! - A number has all its digits, as none becomes a float: `1e400` is `1e+400`, and `0.1000000000000000055` is as it stands.
//!   Its layout is that of RFC 8785, section 3.2.2.3.
//! - Members are ordered by the scalars of their names, as RFC 9535 orders strings, and not by UTF-16 code units.
//!
//! The canonical text of a value is read as an equal value, but for one limit: where the canonical exponent of a number has
//! more than 15 digits, as that of `10e999999999999999` has, the text is refused as `number` when it is read.
#![tactic(auto)]

mod layout;
mod members;
mod printer;
mod string;

pub use printer::Printer;
