//! What is written of a stream, as a user asks for it.
//!
//! Public items:
//!
//! - `Form`: all of it, with the name of the stream
//! - `Units`, `Shown`, `Spelling`, `Table`, `Summary`: its parts
#![tactic(auto)]

mod form;

pub use form::{Form, Shown, Spelling, Summary, Table, Units};
pub use jp_cut::Pieces;
