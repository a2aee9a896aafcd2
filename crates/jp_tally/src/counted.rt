//! Rows with how often they came.

ghost use Rattle.std.specs.Prelude.{◌≡◌, ◌++◌, OnOk};
ghost use Rattle.jp_tally.specs.Counting.{entries_of, entries_of_counted};

use crate::rows::{Rows, cut_row};
use std::alloc::AllocError;

/// A row, and how often it came.
#[derive(Clone, Copy, Debug, PartialEq, Eq, PartialOrd, Ord)]
pub(crate) struct Counted<'a> {
    pub(crate) row: &'a [u8],
    pub(crate) count: u64,
}

/// Lists rows.
pub(crate) fn list_rows<'a>(rows: &'a Rows, listed: &mut Vec<Counted<'a>>) -> Result<(), AllocError>
    ensures { OnOk result (entries_of_counted listed.new.items ≡ entries_of_counted listed.old.items ++ entries_of rows.now) }
{
    let mut rest = rows.text.as_slice();
    for run in &rows.runs {
        let (row, more) = cut_row(rest, run.len);
        let count = run.count;
        listed.push(Counted { row, count })?;
        rest = more;
    }
    Ok(())
}
