//! What a match keeps by numbers: each row is made when it is first wanted.

ghost use Rattle.std.specs.Prelude.{◌≡◌, IfSome, OnOk, None, Some, [], get_or};
ghost use Rattle.jp_iregexp.specs.Kept.{IsAdded};

use crate::Result;
use std::alloc::Global;

/// Rows by their numbers, where they were made.
#[derive(Drop)]
pub(crate) struct Kept<T> {
    pub(crate) rows: Vec<Option<T>>,
}

impl<T: Drop> Kept<T> {
    /// No row yet.
    pub(crate) fn new(alloc: Global) -> Kept<T>
        ensures { result.rows.items ≡ [] }
    {
        Kept {
            rows: Vec::new(alloc),
        }
    }

    /// The row with this number, if it was made.
    pub(crate) fn get(&self, number: usize) -> Option<&T>
        ensures { IfSome result (λ row. get_or self.now.rows.items number None ≡ Some row.now) }
    {
        match self.rows.get(number) {
            Some(Some(row)) => Some(row),
            _ => None,
        }
    }

    /// Keeps the row with this number.
    pub(crate) fn keep(&mut self, number: usize, row: T) -> Result<()>
        ensures { OnOk result (IsAdded number row self.old.rows.items self.new.rows.items) }
    {
        for _ in self.rows.len()..number.saturating_add(1) {
            self.rows.push(None)?;
        }
        if let Some(place) = self.rows.get_mut(number) {
            *place = Some(row);
        }
        Ok(())
    }
}
