//! Rows, and the numbers in them.

ghost use Rattle.std.specs.Prelude.{◌≡◌, ◌++◌, false, is_err, decimal};
ghost use Rattle.jp_devices.specs.Devices.{Writes};
ghost use Rattle.jp_model.specs.Meaning.Paths.{path_text};
ghost use Rattle.jp_model.specs.Rows.{row_start as row_start_of, tab, node_text, refusal_text};
ghost use Rattle.jp_nodes.specs.Cursors.{line_of, node_of};
ghost use Rattle.jp_model.specs.Script.Machine.{count_line};

use crate::path::write_path;
use crate::short::RowEnd;
use itoa::Buffer;
use jp_devices::{WriteFault, write_whole};
use jp_model::{Framing, LineFault, Watched};
use jp_nodes::Cursor;
use std::io::Write;

/// What a row begins with (RFC 7464, section 2.2).
pub(crate) fn row_start(framing: Framing) -> &'static [u8]
    ensures { result.now ≡ row_start_of framing }
{
    match framing {
        Framing::Lines => b"",
        Framing::Sequence => b"\x1e",
    }
}

/// Writes what every row of a line begins with: its start, the number of the line, and a tab.
fn write_start<W: Write>(
    line: u32,
    framing: Framing,
    out: &mut Watched<W>,
) -> Result<(), WriteFault>
    requires { out.old.failed ≡ false }
    ensures text { Writes W.contents out.old out.new result (row_start_of framing ++ decimal line ++ tab) }
    ensures fault { out.new.failed ≡ is_err result }
    ensures after { out.new.after ≡ out.old.after }
{
    let mut digits = Buffer::new();
    write_whole(row_start(framing), out)?;
    write_whole(digits.format(line).as_bytes(), out)?;
    write_whole(b"\t", out)
}

/// Writes what comes before the bytes of a node in its row.
// Few rows are so long, so it is not put into the loop over rows.
#[inline(never)]
fn write_head<W: Write>(
    line: u32,
    cursor: Cursor<'_>,
    framing: Framing,
    out: &mut Watched<W>,
) -> Result<(), WriteFault>
    requires { out.old.failed ≡ false }
    ensures text { Writes W.contents out.old out.new result (row_start_of framing ++ decimal line ++ tab ++ path_text (node_of cursor.entry).location ++ tab) }
    ensures fault { out.new.failed ≡ is_err result }
    ensures after { out.new.after ≡ out.old.after }
{
    let mut head = RowEnd::new();
    if let Some(()) = head.put_head(line, cursor, framing) {
        return write_whole(head.as_slice(), out);
    }
    write_start(line, framing, out)?;
    write_path(cursor, out)?;
    write_whole(b"\t", out)
}

/// Writes the row of a node: the number of its line from 1, its path, and its bytes of the line, unchanged (profile).
///
/// After an `Err` the writer received a beginning of the row: no write follows one that failed or took no byte.
pub fn write_node<W: Write>(
    line: u32,
    cursor: Cursor<'_>,
    framing: Framing,
    out: &mut Watched<W>,
) -> Result<(), WriteFault>
    requires { out.old.failed ≡ false }
    ensures text { Writes W.contents out.old out.new result (node_text framing line (line_of cursor.entry) (node_of cursor.entry)) }
    ensures fault { out.new.failed ≡ is_err result }
    ensures after { out.new.after ≡ out.old.after }
{
    let mut row = RowEnd::new();
    if let Some(()) = row.put_node(line, cursor, framing) {
        return write_whole(row.as_slice(), out);
    }
    write_head(line, cursor, framing, out)?;
    write_whole(cursor.source(), out)?;
    write_whole(b"\n", out)
}

/// Writes the row of a refused line: its number from 1, and the word of its fault (profile).
///
/// After an `Err` the writer received a beginning of the row: no write follows one that failed or took no byte.
pub fn write_refusal<W: Write>(
    line: u32,
    fault: LineFault,
    framing: Framing,
    out: &mut Watched<W>,
) -> Result<(), WriteFault>
    requires { out.old.failed ≡ false }
    ensures text { Writes W.contents out.old out.new result (refusal_text framing line fault) }
    ensures fault { out.new.failed ≡ is_err result }
    ensures after { out.new.after ≡ out.old.after }
{
    write_start(line, framing, out)?;
    write_whole(b"!", out)?;
    write_whole(fault.word().as_bytes(), out)?;
    write_whole(b"\n", out)
}

/// Writes the line that ends an answer: the number of what it counts (profile).
///
/// After an `Err` the writer received a beginning of the line: no write follows one that failed or took no byte.
pub fn write_count<W: Write>(count: usize, out: &mut Watched<W>) -> Result<(), WriteFault>
    requires { out.old.failed ≡ false }
    ensures text { Writes W.contents out.old out.new result (count_line count) }
    ensures fault { out.new.failed ≡ is_err result }
    ensures after { out.new.after ≡ out.old.after }
{
    let mut digits = Buffer::new();
    write_whole(b"= ", out)?;
    write_whole(digits.format(count).as_bytes(), out)?;
    write_whole(b"\n", out)
}
