//! Rows that are counted together with those that were counted before.

ghost use Rattle.std.specs.Prelude.{◌≡◌, IfOk, true};
ghost use Rattle.std.specs.List.{list_all};
ghost use Rattle.jp_tally.specs.Counting.{HasCounted, entries_of, entries_of_counted, is_entry, joined};

use crate::counted::{Counted, list_rows};
use crate::rows::Rows;
use std::alloc::{AllocError, Global};

/// Joins rows that stand side by side and are the same. A count past 64 bits is refused as memory would be.
fn join_rows(alloc: Global, listed: &[Counted<'_>]) -> Result<Rows, AllocError>
    ensures { IfOk result (λ rows. entries_of rows ≡ joined (entries_of_counted listed.now)) }
{
    let mut rows = Rows::new(alloc);
    let Some((first, others)) = listed.split_first() else {
        return Ok(rows);
    };
    let mut current = *first;
    for next in others {
        if next.row == current.row {
            current.count = current.count.checked_add(next.count).ok_or(AllocError)?;
        } else {
            rows.push(current.row, current.count)?;
            current = *next;
        }
    }
    rows.push(current.row, current.count)?;
    Ok(rows)
}

/// Counts rows together with those that are kept.
pub(crate) fn count_rows(alloc: Global, kept: &Rows, fresh: &Rows) -> Result<Rows, AllocError>
    requires kept { list_all is_entry (entries_of kept.now) ≡ true }
    requires fresh { list_all is_entry (entries_of fresh.now) ≡ true }
    ensures { IfOk result (λ counted. HasCounted (entries_of kept.now) (entries_of fresh.now) (entries_of counted)) }
{
    let mut listed = Vec::new(alloc);
    list_rows(kept, &mut listed)?;
    list_rows(fresh, &mut listed)?;
    listed.sort_unstable();
    join_rows(alloc, &listed)
}
