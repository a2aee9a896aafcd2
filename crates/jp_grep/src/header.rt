//! What stands above the rows of a table.

ghost use Rattle.std.specs.Prelude.{◌≡◌, false, map, IfOk};
ghost use Rattle.jp_grep.specs.Faults.{IsToldOf, is_input_fault, is_report_fault, is_write_fault};
ghost use Rattle.jp_table.specs.Held.{row_bytes};
ghost use Rattle.jp_grep.specs.Tables.{header_row, header_text};
ghost use Rattle.jp_grep.specs.Telling.{IsKept, PutsEnd};

use crate::fault::SearchFault;
use crate::telling::tell_row;
use jp_form::{Form, Shown, Table};
use jp_sink::Sink;
use jp_table::{CellKind, TableRow};
use std::alloc::{AllocError, Global};

/// The bytes of the row of the names of the columns.
fn make_header(
    alloc: Global,
    table: Table,
    form: &Form<'_>,
    names: &[&str],
) -> Result<TableRow, AllocError>
    ensures { IfOk result (λ row. row_bytes row ≡ header_row table form.now (map (λ name. name.now) names.now)) }
{
    let mut row = TableRow::new(alloc);
    row.begin(table, form, b"file", b"line")?;
    for name in names {
        row.add(table, CellKind::Bare, name.as_bytes())?;
    }
    row.end()?;
    Ok(row)
}

/// Tells what stands above the rows, where they are those of a table: the names of the columns, after those of the cells in front.
///
/// # Errors
///
/// `Write` if the sink failed. `Memory` if memory ran out: then nothing was told.
pub(crate) fn tell_header<S: Sink>(
    alloc: Global,
    form: &Form<'_>,
    names: &[&str],
    sink: &mut S,
) -> Result<(), SearchFault>
    requires { (S.state sink.old).failed ≡ false }
    ensures header { PutsEnd S.stands S.stopped sink.old sink.new result (header_text form.now.shown form.now (map (λ name. name.now) names.now)) }
    ensures write_fault { IsToldOf is_write_fault result (S.state sink.new).failed }
    ensures report_fault { IsToldOf is_report_fault result false }
    ensures inner { IsToldOf is_input_fault result false }
    ensures kept { IsKept (S.state sink.old) (S.state sink.new) }
{
    let Shown::Cells(table) = form.shown else {
        return Ok(());
    };
    let Ok(row) = make_header(alloc, table, form, names) else {
        return Err(SearchFault::Memory);
    };
    tell_row(row.bytes(), sink)
}
