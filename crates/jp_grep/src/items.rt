//! What plays the lines of a stream, read: lines, texts, or elements.

ghost use Rattle.std.specs.Prelude.{◌≡◌, ◌<◌, List, ℕ, length, map, slice_get, zip, Some};
ghost use Rattle.jp_lines.specs.Views.{text_of_view};
ghost use Rattle.jp_lines.specs.Batches.{IsBatch, texts_of};
ghost use Rattle.jp_grep.specs.Items.{line_item, piece_judged};
ghost use Rattle.jp_grep.specs.ReadItems.{ArePieces, AreRead, IsOpened, IsReadItem, item_of, items_of, piece_with, status_by};

use jp_cut::PieceAt;
use jp_lines::{Batch, LineState};
use jp_model::LineFault;

/// A line, text or element that was read.
#[derive(Clone, Copy)]
pub(crate) struct ReadItem<'r> {
    pub(crate) text: &'r [u8],
    pub(crate) state: LineState<'r>,
    /// The number of the line of the stream in which it begins, from 1, where that is told.
    pub(crate) from_line: Option<u64>,
}

/// Lines, texts or elements that were read.
#[derive(Clone, Copy)]
pub(crate) struct ReadItems<'r> {
    pub(crate) batch: Batch<'r>,
    /// What is known of each where they are pieces.
    pub(crate) pieces: Option<&'r [PieceAt]>,
}

/// What a piece is, where its bytes are that: one whose end did not come is truncated, whatever else it has, and a blank one is
/// no JSON text.
fn judge_piece<'r>(is_closed: bool, state: LineState<'r>) -> LineState<'r>
    ensures judged { status_by result ≡ piece_judged is_closed (status_by state.entry) }
    ensures opened { (text : List ℕ) → IsOpened state.entry text → IsOpened result text }
{
    if !is_closed {
        return LineState::Refused(LineFault::Truncated);
    }
    match state {
        LineState::Blank => LineState::Refused(LineFault::Grammar),
        LineState::Refused(fault) => LineState::Refused(fault),
        LineState::Tree(view) => LineState::Tree(view),
    }
}

impl<'r> ReadItems<'r> {
    /// Lines, or texts of a sequence.
    pub(crate) fn of_lines(batch: Batch<'r>) -> ReadItems<'r>
        ensures items { items_of result ≡ map (line_item batch.entry.framing) (texts_of batch.entry) }
        ensures read { IsBatch batch.entry → AreRead result }
    {
        ReadItems {
            batch,
            pieces: None,
        }
    }

    /// Texts or elements, read from where they are held.
    pub(crate) fn of_pieces(batch: Batch<'r>, pieces: &'r [PieceAt]) -> ReadItems<'r>
        ensures items { items_of result ≡ map piece_with (zip (texts_of batch.entry) pieces.now) }
        ensures read { IsBatch batch.entry → ArePieces batch.entry pieces.now → AreRead result }
    {
        ReadItems {
            batch,
            pieces: Some(pieces),
        }
    }

    /// How many they are.
    pub(crate) fn count(self) -> usize
        requires { AreRead self }
        ensures { result ≡ length (items_of self.entry) }
    {
        self.batch.line_count()
    }

    /// The one at an index, from 0.
    pub(crate) fn item(self, index: usize) -> ReadItem<'r>
        requires read { AreRead self }
        requires within { index < length (items_of self) }
        ensures item { slice_get (items_of self.entry) index ≡ Some (item_of result) }
        ensures read { IsReadItem result }
    {
        let line = self.batch.line(index);
        match self.pieces {
            None => ReadItem {
                text: line.text,
                state: line.state,
                from_line: None,
            },
            Some(pieces) => {
                let piece = pieces[index];
                ReadItem {
                    text: line.text,
                    state: judge_piece(piece.is_closed, line.state),
                    from_line: Some(piece.line_feeds.saturating_add(1)),
                }
            }
        }
    }
}
