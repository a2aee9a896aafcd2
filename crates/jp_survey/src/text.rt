//! The text of a survey.

ghost use Rattle.std.specs.Prelude.{◌≡◌, ◌∷◌, ◌++◌, [], List, IfOk, OnOk, encode_utf8_all, flat_map};
ghost use Rattle.std.specs.List.{list_any};
ghost use Rattle.jp_model.specs.Rows.{line_feed};
ghost use Rattle.jp_table.specs.Cells.{Cell, bare_cell};
ghost use Rattle.jp_table.specs.Held.{Holds, row_bytes};
ghost use Rattle.jp_table.specs.Tables.{joined};
ghost use Rattle.jp_survey.specs.Entries.{entries_of, entry_at, entry_of, is_others_listed, path_of_listed, stride_of_listed};
ghost use Rattle.jp_survey.specs.Surveys.{told_lines};
ghost use Rattle.jp_survey.specs.Texts.{column_cells, entry_text, names_text, path_text, stride_text, survey_text, told_text};
ghost use Rattle.jp_survey.specs.Trees.{IsTree, tree_paths};
ghost use Rattle.jp_survey.specs.Walked.{entries_in};

use crate::count::{Count, PlaceCounts};
use crate::kind::NodeKind;
use crate::listing::{Stride, Way};
use crate::tree::Tree;
use itoa::Buffer;
use jp_form::Table;
use jp_rows::QueryPart;
use jp_table::{CellKind, TableRow};
use std::alloc::{AllocError, Global};

/// A row: how many nodes of a kind have a path.
#[derive(Clone, Copy, Debug)]
struct Row<'p, 'n> {
    path: &'p [Stride<'n>],
    kind: NodeKind,
    nodes: u64,
    /// In how many lines there is one, unless the path goes through an object that is folded.
    lines: Option<u64>,
}

/// Whether a path goes through an object that is folded.
fn is_folded(path: &[Stride<'_>]) -> bool
    ensures { result ≡ list_any is_others_listed path.now }
{
    path.iter().any(|stride| matches!(*stride, Stride::Others))
}

/// In how many lines a node is, where that is told.
#[tactic(auto, using(crate::proofs::Placed::folded_listed))]
fn told_lines(path: &[Stride<'_>], lines: u64) -> Option<u64>
    ensures { result ≡ told_lines (path_of_listed path.now) lines }
{
    if is_folded(path) { None } else { Some(lines) }
}

/// Appends a step of a path.
fn append_stride(stride: Stride<'_>, text: &mut Vec<u8>) -> Result<(), AllocError>
    ensures { OnOk result (text.new.items ≡ text.old.items ++ encode_utf8_all (stride_text (stride_of_listed stride.entry))) }
{
    match stride {
        Stride::Element => text.extend_from_slice(b"[*]"),
        Stride::Member(name) => QueryPart::Name(name.as_str()).push_to(text),
        Stride::Others => text.extend_from_slice(b"[**]"),
    }
}

/// Appends a path.
fn append_path(path: &[Stride<'_>], text: &mut Vec<u8>) -> Result<(), AllocError>
    ensures { OnOk result (text.new.items ≡ text.old.items ++ path_text (path_of_listed path.now)) }
{
    text.push(b'$')?;
    for stride in path {
        append_stride(*stride, text)?;
    }
    Ok(())
}

/// Adds the cell of how many lines a row is of, where that is told.
fn add_lines(table: Table, lines: Option<u64>, row: &mut TableRow) -> Result<(), AllocError>
    ensures { (cells : List Cell) → Holds table row.old cells → OnOk result (Holds table row.new (cells ++ bare_cell (told_text lines) ∷ [])) }
{
    let mut digits = Buffer::new();
    match lines {
        Some(lines) => row.add(table, CellKind::Bare, digits.format(lines).as_bytes()),
        None => row.add(table, CellKind::Bare, b"-"),
    }
}

/// Makes a row. The path lends its memory.
fn make_row(
    table: Table,
    entry: Row<'_, '_>,
    path: &mut Vec<u8>,
    row: &mut TableRow,
) -> Result<(), AllocError>
    ensures { OnOk result (row_bytes row.new ≡ entry_text table (entry_of entry.entry)) }
{
    let mut digits = Buffer::new();
    path.clear();
    append_path(entry.path, path)?;
    row.clear();
    add_lines(table, entry.lines, row)?;
    row.add(table, CellKind::Bare, digits.format(entry.nodes).as_bytes())?;
    row.add(table, CellKind::Text, path)?;
    row.add(table, CellKind::Bare, entry.kind.word())?;
    row.end()
}

/// Makes the row of the names of the columns.
fn make_names(table: Table, row: &mut TableRow) -> Result<(), AllocError>
    ensures { OnOk result (row_bytes row.new ≡ joined table column_cells ++ line_feed) }
{
    row.clear();
    row.add(table, CellKind::Bare, b"lines")?;
    row.add(table, CellKind::Bare, b"nodes")?;
    row.add(table, CellKind::Bare, b"path")?;
    row.add(table, CellKind::Bare, b"kind")?;
    row.end()
}

/// The text above the rows: the row of the names of the columns, where they are wanted.
fn head_of(
    alloc: Global,
    table: Table,
    has_names: bool,
    row: &mut TableRow,
) -> Result<Vec<u8>, AllocError>
    ensures { IfOk result (λ text. text.items ≡ names_text table has_names) }
{
    let mut text = Vec::new(alloc);
    if has_names {
        make_names(table, row)?;
        text.extend_from_slice(row.bytes())?;
    }
    Ok(text)
}

/// The text of a survey, which is made row by row.
#[derive(Drop)]
struct Page {
    table: Table,
    row: TableRow,
    path: Vec<u8>,
    text: Vec<u8>,
}

impl Page {
    /// With the row of the names of its columns, where they are wanted.
    fn new(alloc: Global, table: Table, has_names: bool) -> Result<Page, AllocError>
        ensures table { IfOk result (λ page. page.table ≡ table) }
        ensures text { IfOk result (λ page. page.text.items ≡ names_text table has_names) }
    {
        let mut row = TableRow::new(alloc);
        let text = head_of(alloc, table, has_names, &mut row)?;
        Ok(Page {
            table,
            row,
            path: Vec::new(alloc),
            text,
        })
    }

    /// Adds the row of a kind at a path, where there is a node of it.
    fn add_kind(
        &mut self,
        path: &[Stride<'_>],
        kind: NodeKind,
        count: Count,
    ) -> Result<(), AllocError>
        ensures table { OnOk result (self.new.table ≡ self.old.table) }
        ensures text { OnOk result (self.new.text.items ≡ self.old.text.items ++ flat_map (entry_text self.old.table) (entry_at (path_of_listed path.now) kind count)) }
    {
        if count.nodes == 0 {
            return Ok(());
        }
        let nodes = count.nodes;
        let lines = told_lines(path, count.lines);
        let entry = Row {
            path,
            kind,
            nodes,
            lines,
        };
        make_row(self.table, entry, &mut self.path, &mut self.row)?;
        self.text.extend_from_slice(self.row.bytes())
    }

    /// Adds the rows of all kinds at a path.
    fn add_place(&mut self, path: &[Stride<'_>], counts: &PlaceCounts) -> Result<(), AllocError>
        ensures table { OnOk result (self.new.table ≡ self.old.table) }
        ensures text { OnOk result (self.new.text.items ≡ self.old.text.items ++ flat_map (entry_text self.old.table) (entries_of (path_of_listed path.now) counts.now)) }
    {
        self.add_kind(path, NodeKind::Null, counts.null)?;
        self.add_kind(path, NodeKind::Boolean, counts.boolean)?;
        self.add_kind(path, NodeKind::Number, counts.number)?;
        self.add_kind(path, NodeKind::String, counts.string)?;
        self.add_kind(path, NodeKind::Array, counts.array)?;
        self.add_kind(path, NodeKind::Object, counts.object)
    }
}

/// The text of a survey: the row of the names of its columns, where they are wanted, and the rows of places in their order.
pub(crate) fn text_of(
    alloc: Global,
    table: Table,
    has_names: bool,
    tree: &Tree,
    order: &[usize],
) -> Result<Vec<u8>, AllocError>
    requires { IsTree tree.now }
    ensures { IfOk result (λ text. text.items ≡ survey_text table has_names (entries_in (tree_paths tree.now) tree.now.counts.places.items order.now)) }
{
    let mut page = Page::new(alloc, table, has_names)?;
    let mut way = Way::new(alloc)?;
    for place in order {
        way.go_to(&tree.names, &tree.links, *place)?;
        let counts = tree.counts.places.get(*place).ok_or(AllocError)?;
        page.add_place(&way.path, counts)?;
    }
    Ok(page.text)
}
