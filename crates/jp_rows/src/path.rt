//! The paths of nodes (RFC 9535, section 2.7).

ghost use Rattle.std.specs.Prelude.{◌≡◌, ◌++◌, false, is_err, OnErr, OnOk};
ghost use Rattle.jp_devices.specs.Devices.{Writes};
ghost use Rattle.jp_model.specs.Meaning.Paths.{path_text};
ghost use Rattle.jp_nodes.specs.Cursors.{node_of};

use crate::names::write_step;
use crate::singular::settle;
use jp_devices::{WriteFault, write_whole};
use jp_model::Watched;
use jp_nodes::Cursor;
use std::alloc::AllocError;
use std::io::Write;
use std::mem;

/// Writes the normalized path of a node (RFC 9535, section 2.7).
///
/// It visits the node and its ancestors. A line whose arrays and objects nest deeper than 512 has no tape, so a node has
/// at most 512 of them.
///
/// After an `Err` the writer received a beginning of the path: no write follows one that failed or took no byte.
pub fn write_path<W: Write>(cursor: Cursor<'_>, out: &mut Watched<W>) -> Result<(), WriteFault>
    requires { out.old.failed ≡ false }
    ensures text { Writes W.contents out.old out.new result (path_text (node_of cursor.entry).location) }
    ensures fault { out.new.failed ≡ is_err result }
    ensures after { out.new.after ≡ out.old.after }
{
    let Some(parent) = cursor.parent() else {
        return write_whole(b"$", out);
    };
    write_path(parent, out)?;
    write_step(cursor, out)
}

/// Appends to a text what `write_path` writes.
///
/// # Errors
///
/// Memory ran out. The text is as before.
pub fn push_path(cursor: Cursor<'_>, out: &mut Vec<u8>) -> Result<(), AllocError>
    ensures text { OnOk result (out.new.items ≡ out.old.items ++ path_text (node_of cursor.entry).location) }
    ensures kept { OnErr result (out.new.items ≡ out.old.items) }
{
    let held = out.len();
    let mut writer = Watched::new(mem::try_take(out)?);
    let written = write_path(cursor, &mut writer);
    *out = writer.into_inner();
    settle(held, written, out)
}
