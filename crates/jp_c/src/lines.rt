//! A line of the collection, and where nodes stand in it.

ghost use Rattle.std.specs.Prelude.{◌≡◌, [], IfErr, OnErr, OnOk, Some};
ghost use Rattle.jp_cli.specs.Marks.{line_at};
ghost use Rattle.jp_cli.specs.Runs.{setup_of, state_of};
ghost use Rattle.jp_c.specs.Lines.{AreMarked, TellsNoLine, TellsNoMarks};
ghost use Rattle.jp_c.specs.Sessions.{left_in};

use crate::session::Session;
use jp_query::{Refusal, read_query};
use std::alloc::{AllocError, Global};

/// Why nothing of a line is left to be read.
#[derive(Clone, Copy, Debug, PartialEq, Eq)]
pub enum ShowFault {
    /// The query is refused.
    Query,
    /// There is no line of this number.
    Line,
    /// A growth was refused.
    Memory,
}

impl From<AllocError> for ShowFault {
    ghost use Rattle.jp_c.specs.declared.lines.ShowFault.TheVariants.{Memory};

    ghost from_gives = { λ _ e. e ≡ Memory };

    fn from(_error: AllocError) -> ShowFault {
        ShowFault::Memory
    }
}

impl Session {
    /// Keeps the bytes of a line to be read, in place of what was left. Lines count from 1.
    pub(crate) fn show_line(&mut self, alloc: Global, number: u64) -> Result<(), ShowFault>
        ensures line { OnOk result (line_at number (state_of self.old.collection).lines ≡ Some (left_in self.new)) }
        ensures fault { IfErr result (λ fault. TellsNoLine fault (line_at number (state_of self.old.collection).lines)) }
        ensures nothing { OnErr result (left_in self.new ≡ []) }
        ensures collection { self.new.collection ≡ self.old.collection }
    {
        self.keep(Vec::new(alloc));
        let Some(line) = self.collection.line(number) else {
            return Err(ShowFault::Line);
        };
        let mut text = Vec::new(alloc);
        text.extend_from_slice(line)?;
        self.keep(text);
        Ok(())
    }

    /// Keeps the marks of the nodes that a query selects in a line to be read, in place of what was left. Lines count from 1.
    pub(crate) fn show_marks(
        &mut self,
        alloc: Global,
        number: u64,
        query: &[u8],
    ) -> Result<(), ShowFault>
        ensures marks { OnOk result (AreMarked query.now number self.old.collection.store (left_in self.new)) }
        ensures fault { IfErr result (λ fault. TellsNoMarks fault query.now (line_at number (state_of self.old.collection).lines)) }
        ensures nothing { OnErr result (left_in self.new ≡ []) }
        ensures state { state_of self.new.collection ≡ state_of self.old.collection }
        ensures setup { setup_of self.new.collection ≡ setup_of self.old.collection }
    {
        self.keep(Vec::new(alloc));
        let query = match read_query(alloc, query) {
            Ok(query) => query,
            Err(Refusal::Fault(_)) => return Err(ShowFault::Query),
            Err(Refusal::Memory) => return Err(ShowFault::Memory),
        };
        let Some(marks) = self.collection.marks(number, &query)? else {
            return Err(ShowFault::Line);
        };
        self.keep(marks);
        Ok(())
    }
}
