//! The cells of a row, by the canonical texts of their values.

ghost use Rattle.std.specs.Prelude.{◌≡◌, ◌<◌, ◌∷◌, ◌++◌, [], List, IfSome, MatchOption, OnOk, length, encode_utf8_all, is_some};
ghost use Rattle.jp_strings.specs.Points.{IsText, points_of};
ghost use Rattle.jp_table.specs.Cells.{Cell, text_cell};
ghost use Rattle.jp_table.specs.Held.{Holds};
ghost use Rattle.jp_tally.specs.Texts.{body_in, cells_of, is_string, other_kind, plain_cell, shown_cell};

use jp_form::Table;
use jp_strings::{test_body, unescape};
use jp_table::{CellKind, TableRow};
use memchr::memchr;
use std::alloc::{AllocError, Global};

/// The first cell of a row, and what stands after the tab that parts it from others, if one does.
pub(crate) fn cut_cell(row: &[u8]) -> Option<(&[u8], &[u8])>
    ensures cells { MatchOption result (cells_of row.now ≡ row.now ∷ []) (λ cut. cells_of row.now ≡ cut.0.now ∷ cells_of cut.1.now) }
    ensures shorter { IfSome result (λ cut. length cut.1.now < length row.now) }
{
    let Some(end) = memchr(b'\t', row) else {
        return None;
    };
    Some((&row[..end], &row[end + 1..]))
}

/// The body of a string's text.
fn string_body(text: &[u8]) -> Option<&[u8]>
    ensures is { is_some result ≡ is_string text.now }
    ensures body { IfSome result (λ body. body.now ≡ body_in text.now) }
    ensures text { IfSome result (λ body. IsText body.now) }
{
    if text.len() < 2 || text[0] != b'"' || text[text.len() - 1] != b'"' {
        return None;
    }
    let body = &text[1..text.len() - 1];
    match test_body(body) {
        Ok(()) => Some(body),
        Err(_) => None,
    }
}

/// What the cell of a text that is not a string's has.
fn other_kind(text: &[u8]) -> CellKind
    ensures { result ≡ other_kind text.now }
{
    match text {
        [] => CellKind::Nothing,
        [b'[' | b'{', ..] => CellKind::Structure,
        _ => CellKind::Bare,
    }
}

/// Adds the cell of a string by its characters.
fn add_string(
    alloc: Global,
    table: Table,
    body: &[u8],
    row: &mut TableRow,
) -> Result<(), AllocError>
    requires { IsText body.now }
    ensures { (cells : List Cell) → Holds table row.old cells → OnOk result (Holds table row.new (cells ++ text_cell (encode_utf8_all (points_of body.now)) ∷ [])) }
{
    let text = unescape(alloc, body)?;
    row.add(table, CellKind::Text, text.as_str().as_bytes())
}

/// Adds the cell of a value by its canonical text: a string by its characters, and any other value by the text itself.
fn add_plain(alloc: Global, table: Table, text: &[u8], row: &mut TableRow) -> Result<(), AllocError>
    ensures { (cells : List Cell) → Holds table row.old cells → OnOk result (Holds table row.new (cells ++ plain_cell text.now ∷ [])) }
{
    match string_body(text) {
        Some(body) => add_string(alloc, table, body, row),
        None => row.add(table, other_kind(text), text),
    }
}

/// Adds the cell of a value by its canonical text, as the table shows it.
pub(crate) fn add_shown(
    alloc: Global,
    table: Table,
    text: &[u8],
    row: &mut TableRow,
) -> Result<(), AllocError>
    ensures { (cells : List Cell) → Holds table row.old cells → OnOk result (Holds table row.new (cells ++ shown_cell table text.now ∷ [])) }
{
    match table {
        Table::Canonical => row.add(table, CellKind::Bare, text),
        Table::Tabs | Table::Commas => add_plain(alloc, table, text, row),
    }
}
