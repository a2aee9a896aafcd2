//! The bytes of a stored line, and its tape.

ghost use Rattle.std.specs.Prelude.{◌≡◌, true};
ghost use Rattle.jp_lines.specs.Stored.{HasTape, IsWithin, told_of, is_tree_status, stored_text};
ghost use Rattle.jp_nodes.specs.Forms.{IsPackedTapeOf};

use crate::line::Line;
use jp_tape::packed_words;

/// The text of a stored line.
pub fn text_of<'a>(bytes: &'a [u8], line: &'a Line) -> &'a [u8]
    requires { IsWithin bytes.now line.now }
    ensures { result.now ≡ stored_text bytes.now line.now }
{
    match line {
        Line::Loaded { span, .. } => &bytes[span.start as usize..span.end as usize],
        Line::Edited(line) => line.text.as_slice(),
    }
}

/// The words of the tape of a stored line that has a tree and this text.
pub fn tape_of<'a>(tapes: &'a [u64], line: &'a Line, text: &[u8]) -> &'a [u64]
    requires tree { is_tree_status (told_of line.now) ≡ true }
    requires tape { HasTape tapes.now line.now text.now }
    ensures { IsPackedTapeOf result.now text.now }
{
    match line {
        Line::Loaded { nodes, tape, .. } => packed_words(tapes, *tape, *nodes, text),
        Line::Edited(line) => packed_words(&line.tape, 0, line.nodes, text),
    }
}
