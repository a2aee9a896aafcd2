//! Values as they are printed.

ghost use Rattle.std.specs.Prelude.{◌≡◌, ◌++◌, IfOk, OnOk, encode_utf8_all, filter, not};
ghost use Rattle.jp_strings.specs.Points.{IsText, points_of};
ghost use Rattle.jp_model.specs.Rows.{source};
ghost use Rattle.jp_nodes.specs.Cursors.{line_of, node_of};
ghost use Rattle.jp_grep.specs.Spelled.{cell_kind, cell_text_of, is_line_break, plain_or, printed, spelled};

use jp_canon::Printer;
use jp_form::{Spelling, Table, Units};
use jp_model::Framing;
use jp_nodes::{Cursor, Kind};
use jp_strings::{Scalars, plain_text};
use jp_table::CellKind;
use memchr::memchr2;
use std::alloc::{AllocError, Global};

/// Appends the characters that the body of a string spells, in UTF-8 (RFC 8259, section 7). Only a body with an escape is
/// decoded.
fn append_body(body: &[u8], text: &mut Vec<u8>) -> Result<(), AllocError>
    requires { IsText body.now }
    ensures { OnOk result (text.new.items ≡ text.old.items ++ encode_utf8_all (points_of body.now)) }
{
    if let Some(plain) = plain_text(body) {
        return text.extend_from_slice(plain.as_bytes());
    }
    for scalar in Scalars::new(body) {
        text.extend_from_slice(scalar.encode_utf8(&mut [0; 4]).as_bytes())?;
    }
    Ok(())
}

/// The characters that the body of a string spells. They stand in the body, or where it has an escape are made in the room.
fn body_text<'a: 'b, 'b>(body: &'a [u8], room: &'b mut Vec<u8>) -> Result<&'b [u8], AllocError>
    requires { IsText body.now }
    ensures { IfOk result (λ text. text.now ≡ encode_utf8_all (points_of body.entry.now)) }
{
    if let Some(plain) = plain_text(body) {
        return Ok(plain.as_bytes());
    }
    room.clear();
    append_body(body, room)?;
    Ok(room)
}

/// Appends bytes without line feeds and carriage returns.
fn append_joined(bytes: &[u8], text: &mut Vec<u8>) -> Result<(), AllocError>
    ensures { OnOk result (text.new.items ≡ text.old.items ++ filter (λ byte. not (is_line_break byte)) bytes.now) }
{
    let mut rest = bytes;
    while let Some(end) = memchr2(b'\n', b'\r', rest) {
        text.extend_from_slice(&rest[..end])?;
        rest = &rest[end + 1..];
    }
    text.extend_from_slice(rest)
}

/// Appends the bytes of a value as they are printed: those of a text that may have several lines without its line breaks.
pub(crate) fn append_printed(
    units: Units,
    bytes: &[u8],
    text: &mut Vec<u8>,
) -> Result<(), AllocError>
    ensures { OnOk result (text.new.items ≡ text.old.items ++ printed units bytes.now) }
{
    match units {
        Units::Lines(_) => text.extend_from_slice(bytes),
        Units::Pieces(_) => append_joined(bytes, text),
    }
}

/// Appends a string by its characters, and any other value by its bytes as they are printed.
fn append_plain(units: Units, node: Cursor<'_>, text: &mut Vec<u8>) -> Result<(), AllocError>
    ensures { OnOk result (text.new.items ≡ text.old.items ++ plain_or (printed units (source (line_of node.entry) (node_of node.entry).tree)) (node_of node.entry).tree) }
{
    match node.text() {
        Some(body) => append_body(body, text),
        None => append_printed(units, node.source(), text),
    }
}

/// What a cell with a value of a kind has.
pub(crate) fn cell_kind(kind: Kind) -> CellKind
    ensures { result ≡ cell_kind kind }
{
    match kind {
        Kind::Null | Kind::False | Kind::True | Kind::Number => CellKind::Bare,
        Kind::Text => CellKind::Text,
        Kind::Array | Kind::Object => CellKind::Structure,
    }
}

/// What spells values. It lends its room from one to the next. If memory is refused, what was appended is to be forgotten.
#[derive(Drop)]
pub(crate) struct Speller {
    printer: Printer,
}

impl Speller {
    /// With no room yet.
    pub(crate) fn new(alloc: Global) -> Speller {
        Speller {
            printer: Printer::new(alloc),
        }
    }

    /// Appends a value as it is wanted.
    pub(crate) fn append(
        &mut self,
        spelling: Spelling,
        units: Units,
        node: Cursor<'_>,
        text: &mut Vec<u8>,
    ) -> Result<(), AllocError>
        ensures { OnOk result (text.new.items ≡ text.old.items ++ spelled spelling units (line_of node.entry) (node_of node.entry).tree) }
    {
        match spelling {
            Spelling::Source => append_printed(units, node.source(), text),
            Spelling::Text => append_plain(units, node, text),
            Spelling::Canonical => self.printer.append(node, text),
        }
    }

    /// The bytes of a value as the cells of a table spell it: an array or an object in canonical form, and in a table of
    /// canonical cells any value. They stand in the line, or are made in the room.
    pub(crate) fn cell_text<'a: 'b, 'b>(
        &mut self,
        table: Table,
        node: Cursor<'a>,
        room: &'b mut Vec<u8>,
    ) -> Result<&'b [u8], AllocError>
        ensures { IfOk result (λ cell. cell.now ≡ cell_text_of table (line_of node.entry) (node_of node.entry).tree) }
    {
        match (table, node.kind()) {
            (Table::Canonical, _) | (_, Kind::Array | Kind::Object) => {
                room.clear();
                self.printer.append(node, room)?;
                Ok(room)
            }
            (_, Kind::Text) => body_text(node.text().unwrap(), room),
            _ => Ok(node.source()),
        }
    }
}
