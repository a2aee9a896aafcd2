//! Lines that are read: each with its status and, where it has a tree, with its tape.
//!
//! Public calls:
//!
//! - `read_lines`, `read_edited`, `Line`, `Status`: the lines of a collection, or one line with a text of its own; what a line
//!   is
//! - `text_of`, `tape_of`, `LineView`: the text of such a line, the words of its tape, and both together
//! - `BatchRoom`, `Batch`, `BatchLine`, `LineState`: the lines of a piece of a stream, or texts among its bytes, each read,
//!   where no collection is held
//! - `separator`, `is_framed_text`: the byte that separates lines; what may stand before the first separator
#![tactic(auto)]

mod batch;
mod framing;
mod line;
mod loading;
mod reading;
mod text;
mod texts;
mod view;

pub use batch::{Batch, BatchLine, BatchRoom, LineState};
pub use framing::{is_framed_text, separator};
use jp_model::LineFault;
pub use line::{EditedLine, Line};
pub use loading::read_lines;
pub use reading::read_edited;
pub use text::{tape_of, text_of};
pub use view::LineView;

/// What a line is.
#[derive(Clone, Copy, Debug, PartialEq, Eq)]
pub enum Status {
    /// White space alone, or nothing.
    Blank,
    /// No text that is taken.
    Refused(LineFault),
    /// A text, which has a tree.
    Tree,
}
