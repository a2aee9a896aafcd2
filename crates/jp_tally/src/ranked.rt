//! Rows that were counted, the most frequent first.

ghost use Rattle.std.specs.Prelude.{◌≡◌, ◌++◌, IfOk, OnOk};
ghost use Rattle.std.specs.List.Sorted.{IsPermutation, IsSorted};
ghost use Rattle.jp_tally.specs.Counting.{entries_of, entries_of_ranked};
ghost use Rattle.jp_tally.specs.Tallies.{entry_cmp};

use crate::rows::{Rows, cut_row};
use std::alloc::{AllocError, Global};
use std::cmp::Reverse;

/// A row, and how often it came: the one that came more often is less, and of two that came as often the one that is less as
/// bytes.
#[derive(Clone, Copy, Debug, PartialEq, Eq, PartialOrd, Ord)]
pub(crate) struct Ranked<'a> {
    pub(crate) count: Reverse<u64>,
    pub(crate) row: &'a [u8],
}

/// Lists rows.
fn list_ranked<'a>(rows: &'a Rows, ranked: &mut Vec<Ranked<'a>>) -> Result<(), AllocError>
    ensures { OnOk result (entries_of_ranked ranked.new.items ≡ entries_of_ranked ranked.old.items ++ entries_of rows.now) }
{
    let mut rest = rows.text.as_slice();
    for run in &rows.runs {
        let (row, more) = cut_row(rest, run.len);
        let count = Reverse(run.count);
        ranked.push(Ranked { count, row })?;
        rest = more;
    }
    Ok(())
}

/// Rows in the order of a tally.
pub(crate) fn rank_rows<'a>(alloc: Global, rows: &'a Rows) -> Result<Vec<Ranked<'a>>, AllocError>
    ensures rows { IfOk result (λ ranked. IsPermutation (entries_of rows.now) (entries_of_ranked ranked.items)) }
    ensures order { IfOk result (λ ranked. IsSorted entry_cmp (entries_of_ranked ranked.items)) }
{
    let mut ranked = Vec::new(alloc);
    list_ranked(rows, &mut ranked)?;
    ranked.sort_unstable();
    Ok(ranked)
}
