//! The text of a tally.

ghost use Rattle.std.specs.Prelude.{◌≡◌, ◌∷◌, ◌++◌, [], List, IfOk, OnOk, Some, map, option_map, flat_map};
ghost use Rattle.jp_table.specs.Cells.{Cell, bare_cell};
ghost use Rattle.jp_table.specs.Held.{Holds, row_bytes};
ghost use Rattle.jp_tally.specs.Counting.{entries_of_ranked};
ghost use Rattle.jp_tally.specs.Texts.{cells_of, entry_text, names_text, shown_cell, tally_text};

use crate::cells::{add_shown, cut_cell};
use crate::ranked::Ranked;
use itoa::Buffer;
use jp_form::Table;
use jp_table::{CellKind, TableRow};
use std::alloc::{AllocError, Global};

/// Begins a row with a cell that stands for itself.
fn begin_row(table: Table, first: &[u8], row: &mut TableRow) -> Result<(), AllocError>
    ensures { OnOk result (Holds table row.new (bare_cell first.now ∷ [])) }
{
    row.clear();
    row.add(table, CellKind::Bare, first)
}

/// Adds the cells of a row.
fn add_cells(
    alloc: Global,
    table: Table,
    cells: &[u8],
    row: &mut TableRow,
) -> Result<(), AllocError>
    ensures { (before : List Cell) → Holds table row.old before → OnOk result (Holds table row.new (before ++ map (shown_cell table) (cells_of cells.now))) }
{
    let mut rest = cells;
    while let Some((cell, more)) = cut_cell(rest) {
        add_shown(alloc, table, cell, row)?;
        rest = more;
    }
    add_shown(alloc, table, rest, row)
}

/// Makes the row of an entry.
fn make_row(
    alloc: Global,
    table: Table,
    entry: Ranked<'_>,
    row: &mut TableRow,
) -> Result<(), AllocError>
    ensures { OnOk result (row_bytes row.new ≡ entry_text table (record { row = entry.entry.row.now; count = entry.entry.count.0 })) }
{
    let mut digits = Buffer::new();
    begin_row(table, digits.format(entry.count.0).as_bytes(), row)?;
    add_cells(alloc, table, entry.row, row)?;
    row.end()
}

/// Makes the row of the names of the columns.
fn make_names(table: Table, names: &[&str], row: &mut TableRow) -> Result<(), AllocError>
    ensures { OnOk result (row_bytes row.new ≡ names_text table (Some (map (λ name. name.now) names.now))) }
{
    begin_row(table, b"count", row)?;
    for name in names {
        row.add(table, CellKind::Bare, name.as_bytes())?;
    }
    row.end()
}

/// The text above the rows: the row of the names of the columns, where there are any.
fn head_of(
    alloc: Global,
    table: Table,
    names: Option<&[&str]>,
    row: &mut TableRow,
) -> Result<Vec<u8>, AllocError>
    ensures { IfOk result (λ text. text.items ≡ names_text table (option_map (λ given. map (λ name. name.now) given.now) names.entry)) }
{
    let mut text = Vec::new(alloc);
    if let Some(names) = names {
        make_names(table, names, row)?;
        text.extend_from_slice(row.bytes())?;
    }
    Ok(text)
}

/// The text of a tally: the row of the names of its columns, where there are any, and a row for each entry.
pub(crate) fn text_of(
    alloc: Global,
    table: Table,
    names: Option<&[&str]>,
    ranked: &[Ranked<'_>],
) -> Result<Vec<u8>, AllocError>
    ensures { IfOk result (λ text. text.items ≡ tally_text table (option_map (λ given. map (λ name. name.now) given.now) names.entry) (entries_of_ranked ranked.now)) }
{
    let mut row = TableRow::new(alloc);
    let mut text = head_of(alloc, table, names, &mut row)?;
    for entry in ranked {
        make_row(alloc, table, *entry, &mut row)?;
        text.extend_from_slice(row.bytes())?;
    }
    Ok(text)
}
