//! Lines in order of their keys.

ghost use Rattle.std.specs.Prelude.{◌≡◌, ℕ, ◌<◌, ◌≤◌, true, false, Contains, IfSome, OnOk, IsPermutation, None, length, filter, slice_index_or};
ghost use Rattle.std.specs.List.Sorted.{IsPartitionPoint, IsSortedBy};
ghost use Rattle.std.specs.Ordering.{is_lt};
ghost use Rattle.jp_syntax.specs.View.{op_view};
ghost use Rattle.jp_index.specs.ByKey.{line_order, Ascend, IsPositionOf};
ghost use Rattle.jp_index.specs.Cells.{key_at};
ghost use Rattle.jp_index.specs.Edges.{in_front, is_between};

use crate::comparing::{compare_lines, is_in_front};
use crate::edge::Edge;
use crate::slot::Slot;
use jp_syntax::CompareOp;
use jp_values::Key;
use std::alloc::AllocError;

/// How many of the lines, which are in order, come before a line.
pub(crate) fn position_of(cells: &[Option<Slot>], lines: &[u32], line: u32) -> usize
    ensures within { result ≤ length lines.now }
    ensures position { Ascend (key_at cells.now) lines.now → IsPositionOf (key_at cells.now) line lines.now result }
{
    lines.partition_point(|other| compare_lines(cells, *other, line).is_lt())
}

/// How many of the lines, which are in order, come before an edge of a key.
fn edge_of(cells: &[Option<Slot>], lines: &[u32], edge: Edge, key: &Key) -> usize
    ensures within { result ≤ length lines.now }
    ensures position { Ascend (key_at cells.now) lines.now
        → IsPartitionPoint (λ a. in_front edge (key_at cells.now a) key.now ≡ true) (λ a. in_front edge (key_at cells.now a) key.now ≡ false) lines.now result }
{
    lines.partition_point(|line| is_in_front(cells, *line, edge, key))
}

/// Those of the lines, which are in order, whose keys compare so with a key.
pub(crate) fn run_of<'a>(
    cells: &[Option<Slot>],
    lines: &'a [u32],
    op: CompareOp,
    key: &Key,
) -> &'a [u32]
    ensures { Ascend (key_at cells.now) lines.now → result.now ≡ filter (λ a. is_between (op_view op) (key_at cells.now a) key.now) lines.now }
{
    let behind = &lines[edge_of(cells, lines, Edge::start(op), key)..];
    &behind[..edge_of(cells, behind, Edge::end(op), key)]
}

/// Where a line is, if it is there.
pub(crate) fn find_line(cells: &[Option<Slot>], lines: &[u32], line: u32) -> Option<usize>
    ensures found { IfSome result (λ position. (position < length lines.now) × (line ≡ slice_index_or lines.now position line)) }
    ensures missing { Ascend (key_at cells.now) lines.now → result ≡ None → Contains lines.now line → ⊥ }
{
    let position = position_of(cells, lines, line);
    if position < lines.len() && lines[position] == line {
        Some(position)
    } else {
        None
    }
}

/// Sorts lines by their keys. Keys that rise with the lines, as times and counts do, are sorted in runs, and cost little more
/// than to read them. After an `Err` the order is as before.
pub(crate) fn sort_by_key(cells: &[Option<Slot>], lines: &mut Vec<u32>) -> Result<(), AllocError>
    ensures permutation { IsPermutation lines.old.items lines.new.items }
    ensures sorted { OnOk result (IsSortedBy (λ a b. is_lt (line_order (key_at cells.now) a b)) lines.new.items) }
{
    lines.sort_by(
        |line, other|
            ensures { result ≡ line_order (key_at cells.entry.now) line.now other.now }
        { compare_lines(cells, *line, *other) },
    )
}
