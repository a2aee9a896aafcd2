//! What a line is.

ghost use Rattle.std.specs.Prelude.{◌≡◌, ◌↔◌, ◌<◌, ◌^◌, ◌++◌, ℕ, List, length, IfOk, IsTrue, IsUtf8};
ghost use Rattle.jp_model.specs.Json.Marks.{marks as marks_of};
ghost use Rattle.jp_model.specs.Lines.{is_blank as is_blank_line};
ghost use Rattle.jp_lines.specs.Stored.{IsTold, IsTapeAmong, IsRead, stored_text};

use crate::Status;
use crate::line::{EditedLine, Line};
use jp_masks::line_marks;
use jp_model::{Framing, is_blank};
use jp_tape::{BuildFault, Builder};
use std::alloc::{AllocError, Global};

/// What a line is, and how many nodes its tree has, where it has one.
#[derive(Clone, Copy)]
pub(crate) struct Judged {
    pub(crate) status: Status,
    pub(crate) nodes: u32,
}

/// Whether a line is blank. One with a mark is not, and few lines have none.
#[inline(always)]
fn is_empty_line(text: &[u8], marks: &[u32]) -> bool
    requires { marks.now ≡ marks_of text.now }
    ensures { result ≡ is_blank_line text.now }
{
    marks.is_empty() && is_blank(text)
}

/// What a line is. Its tape, where it has one, is appended to others. The builder lends its memory.
pub(crate) fn judge(
    builder: &mut Builder,
    framing: Framing,
    text: &[u8],
    marks: &[u32],
    is_utf8: bool,
    tapes: &mut Vec<u64>,
) -> Result<Judged, AllocError>
    requires room { length text.now < 2 ^ 32 }
    requires marks { marks.now ≡ marks_of text.now }
    requires verdict { IsTrue is_utf8 ↔ IsUtf8 text.now }
    ensures judged { IfOk result (λ judged. IsTold framing judged.status text.now × IsTapeAmong judged.status tapes.new.items (length tapes.old.items) judged.nodes text.now) }
    ensures more { (words : List ℕ) × (tapes.new.items ≡ tapes.old.items ++ words) }
{
    if is_empty_line(text, marks) {
        return Ok(Judged {
            status: Status::Blank,
            nodes: 0,
        });
    }
    match builder.append(text, marks, is_utf8, framing, tapes) {
        Ok(nodes) => Ok(Judged {
            status: Status::Tree,
            nodes,
        }),
        Err(BuildFault::Line(fault)) => Ok(Judged {
            status: Status::Refused(fault),
            nodes: 0,
        }),
        Err(BuildFault::Memory) => Err(AllocError),
    }
}

/// A line with a text of its own.
///
/// # Errors
///
/// Memory ran out.
pub fn read_edited(alloc: Global, framing: Framing, text: &[u8]) -> Result<Line, AllocError>
    requires { length text.now < 2 ^ 32 }
    ensures { IfOk result (λ line. (bytes tapes : List ℕ) → IsRead framing bytes tapes line × (stored_text bytes line ≡ text.now)) }
{
    let marks = line_marks(alloc, text)?;
    let is_utf8 = simdutf8::basic::from_utf8(text).is_ok();
    let mut builder = Builder::new(alloc);
    let mut tape = Vec::new(alloc);
    let judged = judge(
        &mut builder,
        framing,
        text,
        marks.as_slice(),
        is_utf8,
        &mut tape,
    )?;
    let line = EditedLine {
        status: judged.status,
        nodes: judged.nodes,
        text: Vec::from_slice(alloc, text)?,
        tape,
    };
    Ok(Line::Edited(Box::new(alloc, line)?))
}
