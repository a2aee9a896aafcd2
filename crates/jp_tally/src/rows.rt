//! Rows one after another.

ghost use Rattle.std.specs.Prelude.{◌≡◌, ◌∷◌, ◌++◌, [], OnErr, OnOk, drop, length, sum_by, take};

use std::alloc::{AllocError, Global};

/// How many bytes a row has, and how often it came.
#[derive(Clone, Copy, Debug)]
pub(crate) struct Run {
    pub(crate) len: usize,
    pub(crate) count: u64,
}

/// Rows one after another, and how often each came. A row may have any bytes.
#[derive(Drop)]
pub(crate) struct Rows {
    pub(crate) text: Vec<u8>,
    pub(crate) runs: Vec<Run>,
    ghost whole: { sum_by (λ run. run.len) runs.items ≡ length text.items },
}

impl Rows {
    ghost use Rattle.jp_tally.specs.Counting.{entries_of};

    /// With no row yet.
    pub(crate) fn new(alloc: Global) -> Rows
        ensures { entries_of result ≡ [] }
    {
        Rows {
            text: Vec::new(alloc),
            runs: Vec::new(alloc),
        }
    }

    /// Adds a row after the others. If memory is refused, they are as before.
    pub(crate) fn push(&mut self, row: &[u8], count: u64) -> Result<(), AllocError>
        ensures pushed { OnOk result (entries_of self.new ≡ entries_of self.old ++ record { row = row.now; count = count } ∷ []) }
        ensures refused { OnErr result (entries_of self.new ≡ entries_of self.old) }
    {
        let before = self.text.len();
        self.text.extend_from_slice(row)?;
        let len = row.len();
        if self.runs.push(Run { len, count }).is_err() {
            self.text.truncate(before);
            return Err(AllocError);
        }
        Ok(())
    }

    /// Lets all rows go, and keeps their memory for others.
    pub(crate) fn clear(&mut self)
        ensures { entries_of self.new ≡ [] }
    {
        self.text.clear();
        self.runs.clear();
    }

    /// How many bytes they would have with a line feed after each.
    pub(crate) fn size(&self) -> usize {
        self.text.len().saturating_add(self.runs.len())
    }
}

/// The first row of a text, by how many bytes it has, and what stands after it.
pub(crate) fn cut_row(text: &[u8], len: usize) -> (&[u8], &[u8])
    ensures row { result.0.now ≡ take len text.now }
    ensures rest { result.1.now ≡ drop len text.now }
{
    text.split_at(len.min(text.len()))
}
