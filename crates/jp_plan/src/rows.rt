//! The rows of a query by line.

ghost use Rattle.std.specs.Prelude.{◌≡◌, ◌++◌, ◌-◌, ◌∷◌, ℕ, List, [], All, Some, map, slice_get, IfOk, OnOk};
ghost use Rattle.jp_lines.specs.Views.{text_of_view};
ghost use Rattle.jp_nodes.specs.Cursors.{line_of, place_of};
ghost use Rattle.jp_plan.specs.ByLine.{at_place, of_fault, found_in, found_row, found_rows, IsInTurn, IsPlaceIn, IsOfItsLine, AreOfTheirLines};
ghost use Rattle.jp_plan.specs.Found.{rows_view, AreOnTheirLines};

use crate::answer::Row;
use jp_model::LineFault;
use jp_nodes::Cursor;
use jp_store::LineView;
use std::alloc::{AllocError, Global};

/// The rows of a line, with its number, from 1.
#[derive(Drop)]
pub enum LineRows<'s> {
    /// Rows of nodes, and how many of the next places are theirs.
    Nodes {
        line: u32,
        view: LineView<'s>,
        count: usize,
    },
    /// The one row of a line that is refused.
    Refused {
        line: u32,
        fault: LineFault,
    },
}

/// The rows of a query, line by line, with four bytes a node. It borrows the store.
#[derive(Drop)]
pub struct Rows<'s> {
    pub lines: Vec<LineRows<'s>>,
    /// The places of the nodes within their lines, in the order of their rows.
    pub places: Vec<u32>,
}

/// Appends the row of each node at some places of a line to others.
fn push_nodes<'s>(
    line: u32,
    view: LineView<'s>,
    places: &[u32],
    rows: &mut Vec<Row<'s>>,
) -> Result<(), AllocError>
    requires { All (IsPlaceIn view) places.now }
    ensures rows { OnOk result (rows_view rows.new.items ≡ rows_view rows.old.items ++ map found_row (map (at_place line view.entry) places.now)) }
    ensures lines { (lines : List (List ℕ)) → All (λ place. IsOfItsLine lines (at_place line view.entry place)) places.now → AreOnTheirLines lines rows.old.items → AreOnTheirLines lines rows.new.items }
{
    for place in places {
        let cursor = view.at(*place);
        rows.push(Row::Node { line, cursor })?;
    }
    Ok(())
}

impl<'s> Rows<'s> {
    /// No rows. It allocates nothing yet.
    pub(crate) fn new(alloc: Global) -> Rows<'s>
        ensures rows { found_in result ≡ [] }
        ensures turn { IsInTurn result }
    {
        Rows {
            lines: Vec::new(alloc),
            places: Vec::new(alloc),
        }
    }

    /// Appends a row of each node of a line to the others.
    pub(crate) fn push_nodes(
        &mut self,
        line: u32,
        view: LineView<'s>,
        nodes: &[Cursor<'s>],
    ) -> Result<(), AllocError>
        requires turn { IsInTurn self.old }
        requires nodes { All (λ node. line_of node ≡ text_of_view view) nodes.now }
        ensures rows { OnOk result (found_in self.new ≡ found_in self.old ++ map (at_place line view.entry) (map place_of nodes.now)) }
        ensures turn { OnOk result (IsInTurn self.new) }
    {
        if nodes.is_empty() {
            return Ok(());
        }
        for node in nodes {
            self.places.push(node.place())?;
        }
        let count = nodes.len();
        self.lines.push(LineRows::Nodes { line, view, count })?;
        Ok(())
    }

    /// Appends the row of a line that is refused to the others.
    pub(crate) fn push_refusal(&mut self, line: u32, fault: LineFault) -> Result<(), AllocError>
        requires { IsInTurn self.old }
        ensures rows { OnOk result (found_in self.new ≡ found_in self.old ++ of_fault line fault ∷ []) }
        ensures turn { OnOk result (IsInTurn self.new) }
    {
        self.lines.push(LineRows::Refused { line, fault })?;
        Ok(())
    }

    /// The rows one by one, each of a node with its cursor.
    pub(crate) fn one_by_one(&self, alloc: Global) -> Result<Vec<Row<'s>>, AllocError>
        requires { IsInTurn self.now }
        ensures rows { IfOk result (λ rows. rows_view rows.items ≡ found_rows self.now) }
        ensures lines { (lines : List (List ℕ)) → AreOfTheirLines lines self.now → IfOk result (λ rows. AreOnTheirLines lines rows.items) }
    {
        let mut rows = Vec::new(alloc);
        let mut places = self.places.as_slice();
        for of_line in &self.lines {
            match of_line {
                LineRows::Nodes { line, view, count } => {
                    let (here, behind) = places.split_at(*count);
                    push_nodes(*line, *view, here, &mut rows)?;
                    places = behind;
                }
                LineRows::Refused { line, fault } => rows.push(Row::Refused {
                    line: *line,
                    fault: *fault,
                })?,
            }
        }
        Ok(rows)
    }
}
