//! The devices that programs read from and write to.
//!
//! Public calls:
//!
//! - `Watched`: a device, one call of it for each `read`, `read_after`, `write` and `flush`; proofs see the bytes that its
//!   reads gave and those that its writes took. `failed`, `ended` and `unflushed` say whether a call failed, a read came to the
//!   end, bytes are unflushed; `calls` counts all calls, `after` those after a failure, reads after the end, and reads into no
//!   room, and `early` reads while a writer has bytes unflushed
//! - `write_whole`, `WriteFault`: bytes, in as many writes as they need
//! - `flush_written`: a flush, where there is something to flush
//! - `write_out`: the end of a writer with a buffer in front of it
//! - `StandardInput`: standard input, as it was before any file was opened
//! - `refuse_word`: what is said of arguments that are not UTF-8
#![tactic(auto)]

mod input;
mod output;
mod passed;
mod refused;
#[cfg(test)]
mod tests;
mod watched;
mod whole;

pub use input::StandardInput;
pub use output::{flush_written, write_out};
pub use refused::refuse_word;
pub use watched::Watched;
pub use whole::{WriteFault, write_whole};
