//! The rows of a query: lines that are opened and lines that are refused, in turn.

ghost use Rattle.std.specs.Prelude.{◌≡◌, ℕ, ◌+◌, ◌-◌, ◌<◌, ◌≤◌, ◌++◌, ◌^◌, List, [], ◌∷◌, length, map, true, Some, slice_get, All, IfOk, IfSome, OnOk, OnErr};
ghost use Rattle.jp_model.specs.Json.Status.{parsed};
ghost use Rattle.jp_model.specs.Meaning.Nodes.{root_node};
ghost use Rattle.jp_model.specs.Meaning.Selecting.{nodes};
ghost use Rattle.jp_model.specs.Plans.{is_opened};
ghost use Rattle.jp_model.specs.Query.Singular.{steps_query};
ghost use Rattle.jp_model.specs.Rows.{status_rows};
ghost use Rattle.jp_model.specs.Script.Machine.{is_refused_status};
ghost use Rattle.jp_eval.specs.Compiled.{program_view};
ghost use Rattle.jp_syntax.specs.View.{segments_view};
ghost use Rattle.jp_nodes.specs.Cursors.{line_of, node_of};
ghost use Rattle.jp_store.specs.Collections.{line_status};
ghost use Rattle.jp_lines.specs.Views.{text_of_view, tree_of_view};
ghost use Rattle.jp_plan.specs.ByLine.{found_rows, IsInTurn, AreOfTheirLines};
ghost use Rattle.jp_plan.specs.Found.{rows_view, AreOnTheirLines};
ghost use Rattle.jp_plan.specs.Passing.{seek_status, IsLineOf};
ghost use Rattle.jp_plan.specs.Paths.{path_at};
ghost use Rattle.jp_plan.specs.PlanViews.{plan_of};
ghost use Rattle.jp_plan.specs.Planned.{rows_of, lines_opened};
ghost use Rattle.jp_plan.specs.Routes.{IsRouteOf, steps_or_none};

use crate::plan::Plan;
use crate::route::{Route, find_route};
use crate::rows::Rows;
use crate::turn::{Turn, behind_first, next_turn};
use jp_eval::{Frame, Program};
use jp_model::LineFault;
use jp_nodes::Cursor;
use jp_store::{LineView, Opened, Status};
use std::alloc::AllocError;

/// A row, with the number of its line, from 1.
#[derive(Drop)]
pub enum Row<'s> {
    /// A node that was selected.
    Node { line: u32, cursor: Cursor<'s> },
    /// A line that is refused.
    Refused { line: u32, fault: LineFault },
}

/// What a query answers: the rows of the lines, in their order. It borrows the store.
#[derive(Drop)]
pub struct Answer<'s> {
    pub rows: Vec<Row<'s>>,
}

impl<'s> Plan<'s> {
    /// Appends the row of a refused line to others.
    fn push_refusal(&self, line: u32, rows: &mut Rows<'s>) -> Result<(), AllocError>
        requires line { IsLineOf (plan_of self.now).over line }
        requires refused { is_refused_status (line_status line (plan_of self.now).over) ≡ true }
        requires turn { IsInTurn rows.old }
        ensures rows { OnOk result (found_rows rows.new ≡ found_rows rows.old ++ status_rows (plan_of self.now).query line (line_status line (plan_of self.now).over)) }
        ensures turn { OnOk result (IsInTurn rows.new) }
        ensures lines { OnOk result (AreOfTheirLines (plan_of self.now).over.state.lines rows.old → AreOfTheirLines (plan_of self.now).over.state.lines rows.new) }
    {
        match self.store.line_status(line) {
            Status::Refused(fault) => rows.push_refusal(line, fault),
            Status::Blank | Status::Tree => Ok(()),
        }
    }

    /// The node from which the rest of the query is evaluated: that of the seek, or the root.
    fn start(&self, seek: Option<u32>, line: u32, view: LineView<'s>) -> Cursor<'s>
        requires seek { IfSome seek (λ k. k < length (plan_of self.now).over.state.paths) }
        requires sought { seek_status (path_at (plan_of self.now).over.state.paths seek) (line_status line (plan_of self.now).over) ≡ true }
        requires line { IsLineOf (plan_of self.now).over line }
        requires tree { line_status line (plan_of self.now).over ≡ parsed (tree_of_view view) }
        ensures line { line_of result ≡ text_of_view view.entry }
        ensures node { node_of result ∷ [] ≡ nodes (steps_query (steps_or_none (path_at (plan_of self.now).over.state.paths seek))) (root_node (tree_of_view view.entry) ∷ []) (tree_of_view view.entry) }
    {
        match seek {
            Some(index) => match self.store.index(index).node_of(line) {
                Some(node) => view.at(node),
                None => view.root(),
            },
            None => view.root(),
        }
    }

    /// Opens a line, and appends the rows of its nodes to others. The frame lends its room.
    fn push_nodes(
        &self,
        route: Route<'s>,
        program: &Program,
        line: u32,
        opened: &mut Opened,
        frame: &mut Frame<'s>,
        rows: &mut Rows<'s>,
    ) -> Result<(), AllocError>
        requires route { IsRouteOf route (plan_of self.now).query (plan_of self.now).over }
        requires program { program_view program.now ≡ segments_view route.rest.now }
        requires line { IsLineOf (plan_of self.now).over line }
        requires opened { is_opened (plan_of self.now).query (plan_of self.now).over.state.paths (line_status line (plan_of self.now).over) ≡ true }
        requires room { opened.old + 1 < 2 ^ 64 }
        requires turn { IsInTurn rows.old }
        ensures count { opened.new ≡ opened.old + 1 }
        ensures rows { OnOk result (found_rows rows.new ≡ found_rows rows.old ++ status_rows (plan_of self.now).query line (line_status line (plan_of self.now).over)) }
        ensures turn { OnOk result (IsInTurn rows.new) }
        ensures lines { OnOk result (AreOfTheirLines (plan_of self.now).over.state.lines rows.old → AreOfTheirLines (plan_of self.now).over.state.lines rows.new) }
    {
        let Some(view) = self.store.view(line, opened) else {
            return Ok(());
        };
        let start = self.start(route.seek, line, view);
        program.run_in(self.alloc, start, view.root(), frame)?;
        rows.push_nodes(line, view, frame.found())
    }

    /// The rows of the lines to be opened, and of the refused lines, in the order of their lines.
    fn rows_in_turn(
        &self,
        route: Route<'s>,
        program: &Program,
        lines: &[u32],
        opened: &mut Opened,
    ) -> Result<Rows<'s>, AllocError>
        requires route { IsRouteOf route (plan_of self.now).query (plan_of self.now).over }
        requires program { program_view program.now ≡ segments_view route.rest.now }
        requires lines { lines.now ≡ lines_opened (plan_of self.now) }
        requires room { opened.old + length lines.now < 2 ^ 64 }
        ensures rows { IfOk result (λ rows. found_rows rows ≡ rows_of (plan_of self.now)) }
        ensures turn { IfOk result (λ rows. IsInTurn rows) }
        ensures lines { IfOk result (λ rows. AreOfTheirLines (plan_of self.now).over.state.lines rows) }
        ensures count { OnOk result (opened.new ≡ opened.old + length lines.now) }
        ensures least { opened.old ≤ opened.new }
        ensures most { opened.new ≤ opened.old + length lines.now }
    {
        let mut rows = Rows::new(self.alloc);
        let mut frame = Frame::new(self.alloc);
        let mut to_open = lines;
        let refused = self.store.refused_lines()?;
        let mut to_refuse = refused.as_slice();
        while let Some(turn) = next_turn(to_open, to_refuse) {
            match turn {
                Turn::Open(line) => {
                    to_open = behind_first(to_open);
                    self.push_nodes(route, program, line, opened, &mut frame, &mut rows)?;
                }
                Turn::Refuse(line) => {
                    to_refuse = behind_first(to_refuse);
                    self.push_refusal(line, &mut rows)?;
                }
            }
        }
        Ok(rows)
    }

    /// The rows of the query by line: those of the nodes that it selects, and those of the refused lines. It opens the lines
    /// that the plan has to open and no other, and adds their number to the count, which has room for it.
    ///
    /// # Errors
    ///
    /// Memory ran out. Some lines may have been opened and counted then, and no more than without that.
    pub fn rows(&self, opened: &mut Opened) -> Result<Rows<'s>, AllocError>
        requires { opened.old + length (lines_opened (plan_of self.now)) < 2 ^ 64 }
        ensures rows { IfOk result (λ rows. found_rows rows ≡ rows_of (plan_of self.now)) }
        ensures turn { IfOk result (λ rows. IsInTurn rows) }
        ensures lines { IfOk result (λ rows. AreOfTheirLines (plan_of self.now).over.state.lines rows) }
        ensures count { OnOk result (opened.new ≡ opened.old + length (lines_opened (plan_of self.now))) }
        ensures most { OnErr result ((opened.old ≤ opened.new) × (opened.new ≤ opened.old + length (lines_opened (plan_of self.now)))) }
    {
        let route = find_route(self.query.segments(), self.store);
        let program = Program::compile(self.alloc, route.rest)?;
        let lines = self.opened_lines(route)?;
        self.rows_in_turn(route, &program, &lines, opened)
    }

    /// The rows of the query as `rows` finds them, one by one.
    ///
    /// # Errors
    ///
    /// Memory ran out. Some lines may have been opened and counted then, and no more than without that.
    pub fn answer(&self, opened: &mut Opened) -> Result<Answer<'s>, AllocError>
        requires { opened.old + length (lines_opened (plan_of self.now)) < 2 ^ 64 }
        ensures rows { IfOk result (λ answer. rows_view answer.rows.items ≡ rows_of (plan_of self.now)) }
        ensures lines { IfOk result (λ answer. AreOnTheirLines (plan_of self.now).over.state.lines answer.rows.items) }
        ensures count { OnOk result (opened.new ≡ opened.old + length (lines_opened (plan_of self.now))) }
        ensures most { OnErr result ((opened.old ≤ opened.new) × (opened.new ≤ opened.old + length (lines_opened (plan_of self.now)))) }
    {
        let rows = self.rows(opened)?.one_by_one(self.alloc)?;
        Ok(Answer { rows })
    }
}
