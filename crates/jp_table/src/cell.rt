//! The cells of a table, and which of them stand in quotes between commas.

ghost use Rattle.std.specs.Prelude.{◌≡◌, ◌||◌};
ghost use Rattle.std.specs.List.{list_any};
ghost use Rattle.jp_table.specs.Cells.{tells_kind, wants_quotes};

use crate::literal::is_literal;

/// What a cell has.
#[derive(Clone, Copy, Debug, PartialEq, Eq)]
pub enum CellKind {
    /// Nothing.
    Nothing,
    /// A text that stands for itself: a number, `true`, `false`, `null`, or the name of a column.
    Bare,
    /// A string, by its characters.
    Text,
    /// An array or an object, by its text.
    Structure,
}

/// Whether a cell between commas is quoted for this byte.
fn wants_quotes(byte: u8) -> bool
    ensures { result ≡ wants_quotes byte }
{
    byte == b',' || byte == b'"' || byte == b'\r' || byte == b'\n'
}

/// Whether a cell between commas is quoted for one of its bytes.
fn has_quoted_byte(text: &[u8]) -> bool
    ensures { result ≡ list_any wants_quotes text.now }
{
    text.iter().any(|byte| wants_quotes(*byte))
}

/// Whether a cell between commas is quoted for what it has: a string that would be taken for nothing or for a literal, and each
/// array and object.
fn tells_kind(kind: CellKind, text: &[u8]) -> bool
    ensures { result ≡ tells_kind kind text.now }
{
    match kind {
        CellKind::Nothing | CellKind::Bare => false,
        CellKind::Text => text.is_empty() || is_literal(text),
        CellKind::Structure => true,
    }
}

/// Whether a cell between commas is quoted.
pub(crate) fn is_quoted(kind: CellKind, text: &[u8]) -> bool
    ensures { result ≡ (tells_kind kind text.now || list_any wants_quotes text.now) }
{
    tells_kind(kind, text) || has_quoted_byte(text)
}
