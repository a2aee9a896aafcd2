//! What lines lend to each other.

use crate::line_answers::LineAnswers;
use crate::spelling::Speller;
use jp_eval::Frame;
use jp_model::Span;
use jp_table::TableRow;
use std::alloc::Global;

/// The nodes of a line that are asked, and what each of them lends to the next.
#[derive(Drop)]
pub(crate) struct Room<'r> {
    pub(crate) asked: Frame<'r>,
    pub(crate) node: NodeRoom<'r>,
}

/// The answers in the line, the speller of values, the row that is made, and where it is one of a table its cells.
#[derive(Drop)]
pub(crate) struct NodeRoom<'r> {
    /// The answers in the line.
    pub(crate) answers: LineAnswers<'r>,
    pub(crate) speller: Speller,
    pub(crate) row: Vec<u8>,
    pub(crate) cells: TableRow,
    /// A cell that is made, where it does not stand in the line, or a value in which nodes are coloured.
    pub(crate) cell: Vec<u8>,
    /// Where these nodes stand.
    pub(crate) marks: Vec<Span>,
}

impl<'r> Room<'r> {
    /// With no room yet.
    pub(crate) fn new(alloc: Global) -> Room<'r> {
        Room {
            asked: Frame::new(alloc),
            node: NodeRoom {
                answers: LineAnswers::new(alloc),
                speller: Speller::new(alloc),
                row: Vec::new(alloc),
                cells: TableRow::new(alloc),
                cell: Vec::new(alloc),
                marks: Vec::new(alloc),
            },
        }
    }
}
