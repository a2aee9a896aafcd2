//! The rows of an answer, written to a watched writer.
//!
//! Public calls:
//!
//! - `write_whole`, `WriteFault`: bytes, in as many writes as they need, as `jp_devices` has them
//! - `write_path`, `write_node`, `write_refusal`: a normalized path; the row of a node; the row of a refused line
//! - `push_path`: a normalized path appended to a text
//! - `write_steps`, `push_steps`: the path of an index; the same appended to a text
//! - `QueryPart`: such a path, a step of one, or a name or string between single quotes; written or appended to a text
//! - `write_count`, `write_numbered`, `write_summary`: the line `= n` that ends an answer; a line of words and a number; the
//!   line that ends `check`
#![tactic(auto)]

mod names;
mod path;
mod rows;
mod short;
mod singular;
mod summary;

pub use jp_devices::{WriteFault, write_whole};
pub use path::{push_path, write_path};
pub use rows::{write_count, write_node, write_refusal};
pub use singular::{QueryPart, push_steps, write_steps};
pub use summary::{write_numbered, write_summary};
