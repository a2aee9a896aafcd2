//! A search over the lines of a text.

ghost use Rattle.std.specs.Prelude.{◌≡◌, [], IfErr, OnErr, OnOk};
ghost use Rattle.jp_c.specs.Asked.{IsFilteredBy, TellsFilterFault, TellsNumberFirst, columns, filtered as filtered_rows, line_rows as rows_of_lines, node_rows as rows_of_nodes, rows_of as rows_at};
ghost use Rattle.jp_c.specs.Sessions.{left_in};

use crate::question::{FilterFault, question_of};
use crate::searching::{find_rows, form_of};
use crate::session::Session;
use jp_grep::{Framing, Queries, Shown, Spelling, Table, Units};
use std::alloc::Global;

/// What rows are written, and what the queries are for.
#[derive(Clone, Copy, Debug, PartialEq, Eq)]
pub struct Rows {
    pub(crate) shown: Shown,
    pub(crate) spelling: Spelling,
    pub(crate) queries: Queries,
}

/// Rows for which the queries filter.
fn filtered(shown: Shown, spelling: Spelling) -> Rows
    ensures { result ≡ filtered_rows shown spelling }
{
    Rows {
        shown,
        spelling,
        queries: Queries::Filter,
    }
}

/// Rows of a table, in which each query is a column.
fn table(table: Table) -> Rows
    ensures { result ≡ columns table }
{
    Rows {
        shown: Shown::Cells(table),
        spelling: Spelling::Source,
        queries: Queries::Columns,
    }
}

/// The lines themselves.
pub(crate) fn line_rows() -> Rows
    ensures { result ≡ rows_of_lines }
{
    filtered(Shown::Line { faults: false }, Spelling::Source)
}

/// The lines that are selected, told as nodes.
pub(crate) fn node_rows() -> Rows
    ensures { result ≡ rows_of_nodes }
{
    filtered(Shown::Nodes, Spelling::Source)
}

/// The rows of a number.
fn rows_of(number: u32) -> Option<Rows>
    ensures { result ≡ rows_at number }
{
    let (line, values) = (
        Shown::Line { faults: false },
        Shown::Values { paths: false },
    );
    let paths = Shown::Values { paths: true };
    match number {
        0 => Some(filtered(Shown::Nothing, Spelling::Source)),
        1 => Some(filtered(line, Spelling::Source)),
        2 => Some(filtered(paths, Spelling::Source)),
        3 => Some(table(Table::Commas)),
        4 => Some(table(Table::Tabs)),
        5 => Some(filtered(line, Spelling::Canonical)),
        6 => Some(filtered(paths, Spelling::Canonical)),
        7 => Some(filtered(values, Spelling::Canonical)),
        8 => Some(filtered(values, Spelling::Source)),
        9 => Some(filtered(values, Spelling::Text)),
        _ => None,
    }
}

impl Session {
    /// Searches the lines of a text, and keeps the rows to be read.
    pub(crate) fn filter(
        &mut self,
        alloc: Global,
        text: &[u8],
        condition: &[u8],
        queries: &[u8],
        shown: u32,
        numbered: bool,
    ) -> Result<(), FilterFault>
        ensures found { OnOk result (IsFilteredBy text.now condition.now queries.now (rows_at shown) numbered (left_in self.new)) }
        ensures fault { IfErr result (λ fault. TellsFilterFault fault text.now condition.now queries.now (rows_at shown)) }
        ensures number { TellsNumberFirst result (rows_at shown) }
        ensures nothing { OnErr result (left_in self.new ≡ []) }
        ensures collection { self.new.collection ≡ self.old.collection }
    {
        self.keep(Vec::new(alloc));
        let Some(rows) = rows_of(shown) else {
            return Err(FilterFault::Number);
        };
        let question = question_of(alloc, condition, queries, rows.queries)?;
        let form = form_of("", Units::Lines(Framing::Lines), rows, numbered);
        let (found, _) = find_rows(alloc, &question, &form, text)?;
        self.keep(found);
        Ok(())
    }
}
