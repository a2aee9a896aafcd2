//! The rows of a table: cells parted by tabs, or by commas (RFC 4180, section 2).

ghost use Rattle.std.specs.Prelude.{◌≡◌, ◌<◌, ◌≤◌, ◌∷◌, ◌++◌, [], List, ℕ, IfOk, OnOk, drop, false, length, if◌then◌else◌};
ghost use Rattle.jp_model.specs.Rows.{line_feed};
ghost use Rattle.jp_table.specs.Cells.{Cell, bare_cell, text_cell};
ghost use Rattle.jp_table.specs.Held.{Holds, row_bytes};
ghost use Rattle.jp_table.specs.Tables.{byte_text, bytes_text, cell_text, front_cells, joined, quoted_text, separator};

use crate::cell::{CellKind, is_quoted};
use jp_form::{Form, Table};
use jp_lanes::first_special;
use std::alloc::{AllocError, Global};

/// What parts two cells.
fn separator(table: Table) -> u8
    ensures { result ≡ separator table }
{
    match table {
        Table::Tabs | Table::Canonical => b'\t',
        Table::Commas => b',',
    }
}

/// Appends a byte of a cell that may not stand for itself.
fn append_byte(table: Table, byte: u8, text: &mut Vec<u8>) -> Result<(), AllocError>
    ensures { OnOk result (text.new.items ≡ text.old.items ++ byte_text table byte) }
{
    match (table, byte) {
        (Table::Tabs, b'\t') => text.extend_from_slice(b"\\t"),
        (Table::Tabs, b'\n') => text.extend_from_slice(b"\\n"),
        (Table::Tabs, b'\r') => text.extend_from_slice(b"\\r"),
        (Table::Tabs, b'\\') => text.extend_from_slice(b"\\\\"),
        (Table::Commas, b'"') => text.extend_from_slice(b"\"\""),
        _ => Ok(text.push(byte)?),
    }
}

/// Appends the bytes from a position on that are no quote, no backslash and no control character, or the one that is: the
/// position after them.
fn append_some(
    table: Table,
    cell: &[u8],
    at: usize,
    text: &mut Vec<u8>,
) -> Result<usize, AllocError>
    requires { at < length cell.now }
    ensures goes { IfOk result (λ end. (at < end) × (end ≤ length cell.now)) }
    ensures text { IfOk result (λ end. text.old.items ++ bytes_text table (drop at cell.now) ≡ text.new.items ++ bytes_text table (drop end cell.now)) }
{
    let end = first_special(cell, at);
    if at < end {
        text.extend_from_slice(&cell[at..end])?;
        return Ok(end);
    }
    append_byte(table, cell[at], text)?;
    Ok(at + 1)
}

/// Appends the bytes of a cell that may not stand for themselves.
fn append_bytes(table: Table, cell: &[u8], text: &mut Vec<u8>) -> Result<(), AllocError>
    ensures { OnOk result (text.new.items ≡ text.old.items ++ bytes_text table cell.now) }
{
    let mut at = 0;
    while at < cell.len() {
        at = append_some(table, cell, at, text)?;
    }
    Ok(())
}

/// Appends a cell in quotes.
fn append_quoted(cell: &[u8], text: &mut Vec<u8>) -> Result<(), AllocError>
    ensures { OnOk result (text.new.items ≡ text.old.items ++ quoted_text cell.now) }
{
    text.push(b'"')?;
    append_bytes(Table::Commas, cell, text)?;
    Ok(text.push(b'"')?)
}

/// Appends a cell as it stands in its row.
fn append_cell(
    table: Table,
    kind: CellKind,
    cell: &[u8],
    text: &mut Vec<u8>,
) -> Result<(), AllocError>
    ensures { OnOk result (text.new.items ≡ text.old.items ++ cell_text table (record { kind = kind; text = cell.now })) }
{
    match table {
        Table::Tabs => append_bytes(Table::Tabs, cell, text),
        Table::Commas if is_quoted(kind, cell) => append_quoted(cell, text),
        Table::Commas | Table::Canonical => text.extend_from_slice(cell),
    }
}

/// A row of a table, made cell by cell. It lends its room from one to the next.
#[derive(Drop)]
pub struct TableRow {
    text: Vec<u8>,
    /// Whether it has no cell yet.
    is_empty: bool,
}

impl TableRow {
    /// With no cell, and no room yet.
    pub fn new(alloc: Global) -> TableRow
        ensures { (table : Table) → Holds table result [] }
    {
        TableRow {
            text: Vec::new(alloc),
            is_empty: true,
        }
    }

    /// Begins a row.
    pub fn clear(&mut self)
        ensures { (table : Table) → Holds table self.new [] }
    {
        self.text.clear();
        self.is_empty = true;
    }

    /// Parts the cell that comes next from those before it.
    fn part(&mut self, table: Table) -> Result<(), AllocError>
        ensures text { OnOk result (self.new.text.items ≡ self.old.text.items ++ (if self.old.is_empty then [] else separator table ∷ [])) }
        ensures begun { OnOk result (self.new.is_empty ≡ false) }
    {
        if self.is_empty {
            self.is_empty = false;
            return Ok(());
        }
        Ok(self.text.push(separator(table))?)
    }

    /// Adds a cell: what it has, and the text of that. If memory is refused, the row is to be begun anew.
    pub fn add(&mut self, table: Table, kind: CellKind, cell: &[u8]) -> Result<(), AllocError>
        ensures { (cells : List Cell) → Holds table self.old cells → OnOk result (Holds table self.new (cells ++ record { kind = kind; text = cell.now } ∷ [])) }
    {
        self.part(table)?;
        append_cell(table, kind, cell, &mut self.text)
    }

    /// Adds a cell where it is wanted.
    #[tactic(auto, using(crate::proofs::Adding::holds_same))]
    fn add_where(
        &mut self,
        wanted: bool,
        table: Table,
        kind: CellKind,
        cell: &[u8],
    ) -> Result<(), AllocError>
        ensures { (cells : List Cell) → Holds table self.old cells → OnOk result (Holds table self.new (cells ++ (if wanted then record { kind = kind; text = cell.now } ∷ [] else []))) }
    {
        if wanted {
            return self.add(table, kind, cell);
        }
        Ok(())
    }

    /// Begins a row with the cells in front, as far as they are wanted: the name of the stream, which is a string, and the
    /// number of the line. If memory is refused, the row is to be begun anew.
    pub fn begin(
        &mut self,
        table: Table,
        form: &Form<'_>,
        name: &[u8],
        number: &[u8],
    ) -> Result<(), AllocError>
        ensures { OnOk result (Holds table self.new (front_cells form.now name.now number.now)) }
    {
        self.clear();
        self.add_where(form.named, table, CellKind::Text, name)?;
        self.add_where(form.numbered, table, CellKind::Bare, number)
    }

    /// Ends the row. If memory is refused, it is to be begun anew.
    pub fn end(&mut self) -> Result<(), AllocError>
        ensures { (table : Table) (cells : List Cell) → Holds table self.old cells → OnOk result (row_bytes self.new ≡ joined table cells ++ line_feed) }
    {
        Ok(self.text.push(b'\n')?)
    }

    /// The bytes of the row so far.
    pub fn bytes(&self) -> &[u8]
        ensures { result.now ≡ row_bytes self.now }
    {
        &self.text
    }
}
