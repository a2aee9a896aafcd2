//! A filter of streams: which lines of JSON answer a question, and what is written of each.
//!
//! Public calls:
//!
//! - `Question`, `Queries`, `Origin`, `Wanted`: the queries, the conditions and the lists that a line or each node of a query is
//!   asked, whether the queries are columns, where they begin, and which nodes are selected
//! - `read_list`, `Listed`: the values of a stream's lines, among which a line's value is looked up
//! - `Form`, `Units`, `Shown`, `Spelling`, `Table`, `Summary`: what is written of a stream, of the crate `jp_form`
//! - `search`, `Input`, `Found`, `Counts`, `SearchFault`, `Format`: the lines, texts or elements of a stream, each answered as it
//!   comes
//! - `Run`, `Finished`: the streams in turn, told to one sink, and at the end the exit status
//! - `Sink`, `TextSink`, `HeldText`, `Untold`: what is told of a search, of the crate `jp_sink`
#![tactic(auto)]

mod answer;
mod answering;
mod asked;
mod cells;
mod condition;
mod cutting;
mod fault;
mod finding;
mod first_names;
mod format;
mod found;
mod header;
mod input;
mod items;
pub mod laws;
mod line_answers;
mod list;
mod marks;
mod node;
mod progress;
mod question;
mod room;
mod rows;
mod run;
mod searching;
mod source;
mod spelling;
mod stream;
mod telling;
mod told;

pub use fault::SearchFault;
pub use format::Format;
pub use found::{Found, Limit, Unread};
pub use input::Input;
pub use jp_form::{Form, Pieces, Shown, Spelling, Summary, Table, Units};
pub use jp_listed::Listed;
pub use jp_model::Framing;
pub use jp_sink::{HeldText, Sink, TextSink, Untold};
pub use jp_syntax::Origin;
pub use list::read_list;
pub use progress::Counts;
pub use question::{Queries, Question, Wanted};
pub use run::{Finished, Run};
pub use searching::search;
