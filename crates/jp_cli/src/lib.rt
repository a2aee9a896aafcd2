//! The engine of jpq: a script of commands over a collection with one JSON value per line.
//!
//! Public calls:
//!
//! - `run`: a whole run
//! - `Session`: a collection that is held, and the scripts over it, one after another; a line of it, and where the nodes that a
//!   query selects stand in it
//! - `read_words`, `Options`: the program's arguments; `CollectionSource`, `ScriptSource`: where they say to read
//! - `Options::run`: the program's run, within its limits and through a buffer; `Finished`: what it came to
//! - `End`: how a run ended, with its exit status and message
#![tactic(auto)]

mod answer;
mod buffered;
mod changes;
mod check;
mod command;
mod end;
mod engine;
mod explain;
mod listing;
mod marks;
mod query;
mod reply;
mod rows;
mod script;
mod session;
mod sources;
mod words;

pub use buffered::Finished;
pub use end::End;
pub use engine::run;
pub use jp_model::{Framing, RunFault, Setup};
pub use session::Session;
pub use sources::{CollectionSource, ScriptSource};
pub use words::{Options, read_words};
