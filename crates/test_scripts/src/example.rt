//! Worked examples.

use jp_model::{Framing, RunFault, Setup};
use std::alloc::{AllocError, Global};

/// A script over a collection, with what it has to write and how its run has to end.
#[derive(Drop)]
pub(crate) struct Example {
    pub(crate) name: String,
    /// The number, from 1, of the line that begins it in its file.
    pub(crate) line: u64,
    pub(crate) collection: Vec<u8>,
    pub(crate) script: Vec<u8>,
    /// What the script writes.
    pub(crate) output: Vec<u8>,
    /// How the collection is cut into lines, where the file says it.
    pub(crate) framing: Option<Framing>,
    /// The most bytes that the collection may have, where the file says it.
    pub(crate) most: Option<u32>,
    /// The most bytes that the script may have, where the file says it.
    pub(crate) script_most: Option<u32>,
    /// Why the run stops before its end, if it does.
    pub(crate) fault: Option<RunFault>,
    /// Whether one of its lines is malformed, so that it cannot be run.
    pub(crate) is_malformed: bool,
}

impl Example {
    /// An example with only its first line read.
    pub(crate) fn new(alloc: Global, name: &str, line: u64) -> Result<Example, AllocError> {
        Ok(Example {
            name: String::from_str(alloc, name)?,
            line,
            collection: Vec::new(alloc),
            script: Vec::new(alloc),
            output: Vec::new(alloc),
            framing: None,
            most: None,
            script_most: None,
            fault: None,
            is_malformed: false,
        })
    }

    /// How the script is run.
    pub(crate) fn setup(&self) -> Setup {
        Setup {
            framing: self.framing.unwrap_or(Framing::Lines),
            most: self.most.unwrap_or(u32::MAX),
            script_most: self.script_most.unwrap_or(u32::MAX),
        }
    }
}
