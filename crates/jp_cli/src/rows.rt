//! What `query` answers: the rows of the selected nodes and of the refused lines, and how many nodes there are.

ghost use Rattle.std.specs.Prelude.{◌≡◌, ◌+◌, ◌^◌, ◌<◌, ◌≤◌, ◌++◌, ℕ, List, length, false, is_err, All, IfOk, flat_map, count_by};
ghost use Rattle.jp_devices.specs.Devices.{Writes};
ghost use Rattle.jp_model.specs.Plans.{opened as opened_lines};
ghost use Rattle.jp_model.specs.Rows.{rows as rows_of};
ghost use Rattle.jp_model.specs.Script.Commands.{query_line};
ghost use Rattle.jp_model.specs.Script.Machine.{count_line};
ghost use Rattle.jp_query.specs.Status.{query_of};
ghost use Rattle.jp_model.specs.Query.Status.{query};
ghost use Rattle.jp_types.specs.Checks.{checked_view};
ghost use Rattle.jp_store.specs.Collections.{statuses_in};
ghost use Rattle.jp_plan.specs.ByLine.{found_in, found_rows, IsInTurn, IsPlaceIn, AreOfTheirLines};
ghost use Rattle.jp_cli.specs.Found.{place_text, found_text, is_found_node};
ghost use Rattle.jp_cli.specs.Runs.{AnswersOne, Adds, most_lines, progress_of, setup_of};

use crate::reply::{refuse_query, write_refused_growth, write_reply};
use crate::session::Session;
use jp_model::{Framing, Watched};
use jp_plan::{LineRows, Plan, Rows, laws};
use jp_query::read_query;
use jp_rows::{WriteFault, write_count, write_node, write_refusal};
use jp_store::{LineView, Opened, Store};
use jp_types::Checked;
use std::alloc::{AllocError, Global};
use std::io::Write;

/// Writes the row of each node at some places of a line.
fn write_nodes<W: Write>(
    line: u32,
    view: LineView<'_>,
    places: &[u32],
    framing: Framing,
    out: &mut Watched<W>,
) -> Result<(), WriteFault>
    requires places { All (IsPlaceIn view) places.now }
    requires working { out.old.failed ≡ false }
    ensures text { Writes W.contents out.old out.new result (flat_map (place_text framing line view.entry) places.now) }
    ensures fault { out.new.failed ≡ is_err result }
    ensures after { out.new.after ≡ out.old.after }
{
    for place in places {
        if let Err(fault) = write_node(line, view.at(*place), framing, out) {
            return Err(fault);
        }
    }
    Ok(())
}

/// Writes all rows.
fn write_rows<W: Write>(
    rows: &Rows<'_>,
    framing: Framing,
    out: &mut Watched<W>,
) -> Result<(), WriteFault>
    requires turn { IsInTurn rows.now }
    requires working { out.old.failed ≡ false }
    ensures text { Writes W.contents out.old out.new result (flat_map (found_text framing) (found_in rows.now)) }
    ensures fault { out.new.failed ≡ is_err result }
    ensures after { out.new.after ≡ out.old.after }
{
    let mut places = rows.places.as_slice();
    for of_line in &rows.lines {
        match of_line {
            LineRows::Nodes { line, view, count } => {
                let (here, behind) = places.split_at(*count);
                write_nodes(*line, *view, here, framing, out)?;
                places = behind;
            }
            LineRows::Refused { line, fault } => write_refusal(*line, *fault, framing, out)?,
        }
    }
    Ok(())
}

/// Writes all rows, and how many are of nodes.
fn write_rows_and_count<W: Write>(
    rows: &Rows<'_>,
    framing: Framing,
    out: &mut Watched<W>,
) -> Result<(), WriteFault>
    requires turn { IsInTurn rows.now }
    requires working { out.old.failed ≡ false }
    ensures text { Writes W.contents out.old out.new result (flat_map (found_text framing) (found_in rows.now) ++ count_line (count_by is_found_node (found_in rows.now))) }
    ensures fault { out.new.failed ≡ is_err result }
    ensures after { out.new.after ≡ out.old.after }
{
    write_rows(rows, framing, out)?;
    write_count(rows.places.len(), out)
}

/// The rows of a query, by the plan that the indexes of the store allow. The lines that it opens are counted.
fn find_rows<'s>(
    alloc: Global,
    checked: &'s Checked,
    store: &'s Store,
    opened: &mut Opened,
) -> Result<Rows<'s>, AllocError>
    requires { opened.old + most_lines < 2 ^ 64 }
    ensures rows { IfOk result (λ rows. found_rows rows ≡ rows_of (checked_view checked.now) (statuses_in store.now)) }
    ensures turn { IfOk result (λ rows. IsInTurn rows) }
    ensures lines { IfOk result (λ rows. AreOfTheirLines store.now.state.lines rows) }
    ensures opened { Adds (is_err result) (length (opened_lines (checked_view checked.now) store.now.state.paths (statuses_in store.now))) opened.old opened.new }
    ensures few { opened.new ≤ opened.old + most_lines }
{
    laws::no_more_lines_are_opened();
    let plan = Plan::new(alloc, checked, store)?;
    // There is room for all lines of the store, and the plan opens no more.
    prove!(opened.count() <= u64::MAX - u64::from(store.line_count()));
    plan.rows(opened)
}

impl Session {
    /// Answers a query, whose rows are whole before the first byte is written.
    fn answer_checked<W: Write>(
        &mut self,
        checked: &Checked,
        out: &mut Watched<W>,
    ) -> Result<(), WriteFault>
        requires working { out.old.failed ≡ false }
        requires room { self.old.opened + most_lines < 2 ^ 64 }
        ensures ran { (text : List ℕ) → query_of text ≡ query (checked_view checked.now)
            → AnswersOne query_of W.contents out.old out.new result (setup_of self.old) (query_line text)
            (progress_of self.old) (progress_of self.new) }
        ensures few { self.new.opened ≤ self.old.opened + most_lines }
        ensures setup { setup_of self.new ≡ setup_of self.old }
        ensures fault { out.new.failed ≡ is_err result }
        ensures after { out.new.after ≡ out.old.after }
    {
        match find_rows(self.alloc, checked, &self.store, &mut self.opened) {
            Ok(rows) => write_rows_and_count(&rows, self.store.framing(), out),
            Err(_) => write_refused_growth(out),
        }
    }

    /// Answers the query that a text spells, or says why it is refused.
    pub(crate) fn answer_query<W: Write>(
        &mut self,
        text: &[u8],
        out: &mut Watched<W>,
    ) -> Result<(), WriteFault>
        requires working { out.old.failed ≡ false }
        requires room { self.old.opened + most_lines < 2 ^ 64 }
        ensures ran { AnswersOne query_of W.contents out.old out.new result (setup_of self.old) (query_line text.now)
            (progress_of self.old) (progress_of self.new) }
        ensures few { self.new.opened ≤ self.old.opened + most_lines }
        ensures setup { setup_of self.new ≡ setup_of self.old }
        ensures fault { out.new.failed ≡ is_err result }
        ensures after { out.new.after ≡ out.old.after }
    {
        match read_query(self.alloc, text) {
            Ok(checked) => self.answer_checked(&checked, out),
            Err(refusal) => write_reply(&refuse_query(refusal), out),
        }
    }
}
