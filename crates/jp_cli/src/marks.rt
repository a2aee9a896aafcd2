//! One line of a collection: its bytes, and where the nodes that a query selects stand in it.

ghost use Rattle.std.specs.Prelude.{◌≡◌, false, flat_map, is_err, option_map, IfOk};
ghost use Rattle.jp_devices.specs.Devices.{Writes};
ghost use Rattle.jp_nodes.specs.Cursors.{node_of};
ghost use Rattle.jp_types.specs.Checks.{checked_view};
ghost use Rattle.jp_lines.specs.Views.{tree_of_view};
ghost use Rattle.jp_model.specs.Json.Status.{parsed};
ghost use Rattle.jp_cli.specs.Marks.{mark, line_at, marks_at, marks_in as marks_in_line};
ghost use Rattle.jp_cli.specs.Runs.{setup_of, state_of};

use crate::session::Session;
use itoa::Buffer;
use jp_devices::{WriteFault, write_whole};
use jp_eval::eval_from;
use jp_model::Watched;
use jp_nodes::Cursor;
use jp_rows::write_path;
use jp_store::LineView;
use jp_types::Checked;
use std::alloc::{AllocError, Global};
use std::io::Write;

/// Writes the mark of a node: where its text begins and ends, in bytes of its line from 0, and its normalized path.
fn write_mark<W: Write>(cursor: Cursor<'_>, out: &mut Watched<W>) -> Result<(), WriteFault>
    requires { out.old.failed ≡ false }
    ensures text { Writes W.contents out.old out.new result (mark (node_of cursor.entry)) }
    ensures fault { out.new.failed ≡ is_err result }
    ensures after { out.new.after ≡ out.old.after }
{
    let span = cursor.span();
    let mut digits = Buffer::new();
    write_whole(digits.format(span.start).as_bytes(), out)?;
    write_whole(b"\t", out)?;
    write_whole(digits.format(span.end).as_bytes(), out)?;
    write_whole(b"\t", out)?;
    write_path(cursor, out)?;
    write_whole(b"\n", out)
}

/// Writes the mark of each node.
fn write_marks<W: Write>(nodes: &[Cursor<'_>], out: &mut Watched<W>) -> Result<(), WriteFault>
    requires { out.old.failed ≡ false }
    ensures text { Writes W.contents out.old out.new result (flat_map (λ node. mark (node_of node)) nodes.now) }
    ensures fault { out.new.failed ≡ is_err result }
    ensures after { out.new.after ≡ out.old.after }
{
    for node in nodes {
        if let Err(fault) = write_mark(*node, out) {
            return Err(fault);
        }
    }
    Ok(())
}

/// The marks of the nodes that a query selects in a line.
fn marks_in(alloc: Global, line: LineView<'_>, query: &Checked) -> Result<Vec<u8>, AllocError>
    ensures { IfOk result (λ marks. marks.items ≡ marks_in_line (checked_view query.now) (parsed (tree_of_view line.entry))) }
{
    let mut nodes = Vec::new(alloc);
    eval_from(
        alloc,
        query.segments(),
        line.root(),
        line.root(),
        &mut nodes,
    )?;
    let mut marks = Watched::new(Vec::new(alloc));
    match write_marks(&nodes, &mut marks) {
        Ok(()) => Ok(marks.into_inner()),
        Err(_) => Err(AllocError),
    }
}

impl Session {
    /// The bytes of a line of the collection, where there is one of this number. Lines count from 1.
    pub fn line(&self, number: u64) -> Option<&[u8]>
        ensures { option_map (λ text. text.now) result ≡ line_at number (state_of self.now).lines }
    {
        if number == 0 || number > u64::from(self.store.line_count()) {
            return None;
        }
        Some(self.store.text(number as u32))
    }

    /// The marks of the nodes that a query selects in a line of the collection, in its order, where there is a line of this
    /// number: for each a row of the byte at which its text begins, the one after its end, from 0, and its normalized path, with
    /// tabs between them. A blank or a refused line has none. Lines count from 1.
    ///
    /// # Errors
    ///
    /// Memory ran out.
    pub fn marks(&mut self, number: u64, query: &Checked) -> Result<Option<Vec<u8>>, AllocError>
        ensures marks { IfOk result (λ marks. option_map (λ text. text.items) marks ≡ marks_at (checked_view query.now) number self.old.store) }
        ensures state { state_of self.new ≡ state_of self.old }
        ensures setup { setup_of self.new ≡ setup_of self.old }
    {
        if number == 0 || number > u64::from(self.store.line_count()) {
            return Ok(None);
        }
        // The count is of one script, and each begins it anew.
        self.opened.restart();
        match self.store.view(number as u32, &mut self.opened) {
            Some(line) => Ok(Some(marks_in(self.alloc, line, query)?)),
            None => Ok(Some(Vec::new(self.alloc))),
        }
    }
}
