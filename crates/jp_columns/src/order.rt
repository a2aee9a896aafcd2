//! Columns in the order of their names.

ghost use Rattle.std.specs.Prelude.{◌≡◌, ◌≤◌, true, false, IsPermutation, length};
ghost use Rattle.std.specs.Cmp.Lexicographic.{slice_cmp};
ghost use Rattle.std.specs.List.Sorted.{IsPartitionPoint};
ghost use Rattle.std.specs.Ordering.{is_gt, nat_cmp};
ghost use Rattle.std.specs.Str.{chars};
ghost use Rattle.jp_strings.specs.Points.{IsText, points_of};
ghost use Rattle.jp_columns.specs.Names.{Ascend, column_order, name_at};

use jp_strings::compare_text;
use std::cmp::Ordering;

/// The name of a column, and the empty one where there is no such column.
pub(crate) fn name_of(names: &[String], column: usize) -> &str
    ensures { chars result.now ≡ name_at names.now column }
{
    match names.get(column) {
        Some(name) => name,
        None => "",
    }
}

/// How the names of two columns are ordered, scalar by scalar.
fn compare_columns(names: &[String], column: usize, other: usize) -> Ordering
    ensures { result ≡ column_order names.now column other }
{
    name_of(names, column).cmp(name_of(names, other))
}

/// Sorts columns by their names.
pub(crate) fn sort_columns(names: &[String], columns: &mut Vec<usize>)
    ensures permutation { IsPermutation columns.old.items columns.new.items }
    ensures sorted { Ascend names.now columns.new.items }
{
    columns.sort_unstable_by(
        |column, other|
            ensures { result ≡ column_order names.entry.now column.now other.now }
        { compare_columns(names, *column, *other) },
    );
}

/// How the name that a body spells is ordered against that of a column.
pub(crate) fn compare_with(names: &[String], body: &[u8], column: usize) -> Ordering
    requires { IsText body.now }
    ensures { result ≡ slice_cmp nat_cmp (points_of body.now) (name_at names.now column) }
{
    compare_text(body, name_of(names, column))
}

/// How many of some columns, which are in order, have names that come before the one that a body spells.
pub(crate) fn first_of(names: &[String], columns: &[usize], body: &[u8]) -> usize
    requires text { IsText body.now }
    requires sorted { Ascend names.now columns.now }
    ensures within { result ≤ length columns.now }
    ensures first { IsPartitionPoint (λ column. is_gt (slice_cmp nat_cmp (points_of body.now) (name_at names.now column)) ≡ true)
        (λ column. is_gt (slice_cmp nat_cmp (points_of body.now) (name_at names.now column)) ≡ false) columns.now result }
{
    columns.partition_point(|column| compare_with(names, body, *column).is_gt())
}
