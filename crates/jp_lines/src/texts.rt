//! Texts that stand among some bytes, each read by itself.

ghost use Rattle.std.specs.Prelude.{ℕ, List, ◌≡◌, ◌<◌, ◌^◌, ◌++◌, All, map, length, IfOk, OnOk};
ghost use Rattle.jp_model.specs.declared.Framing.TheVariants as framings;
ghost use Rattle.jp_lines.specs.Batches.{IsSpanOf, text_at};
ghost use Rattle.jp_lines.specs.Stored.{IsRead, stored_text};

use crate::line::Line;
use crate::reading::judge;
use jp_masks::find_line_marks;
use jp_model::{Framing, Span};
use jp_tape::{Builder, tapes_are_kept};
use std::alloc::AllocError;

/// The text at a span of the bytes, read. Its tape is appended to those of other texts. The builder and `positions` lend their
/// memory.
fn read_text(
    builder: &mut Builder,
    bytes: &[u8],
    span: Span,
    positions: &mut Vec<u32>,
    tapes: &mut Vec<u64>,
) -> Result<Line, AllocError>
    requires within { IsSpanOf bytes.now span }
    requires room { length bytes.now < 2 ^ 32 }
    ensures text { IfOk result (λ line. stored_text bytes.now line ≡ text_at bytes.now span) }
    ensures read { IfOk result (λ line. IsRead framings.Lines bytes.now tapes.new.items line) }
    ensures more { (words : List ℕ) × (tapes.new.items ≡ tapes.old.items ++ words) }
{
    let text = &bytes[span.start as usize..span.end as usize];
    find_line_marks(text, positions)?;
    let is_utf8 = simdutf8::basic::from_utf8(text).is_ok();
    let tape = tapes.len();
    let judged = judge(builder, Framing::Lines, text, positions, is_utf8, tapes)?;
    Ok(Line::Loaded {
        status: judged.status,
        nodes: judged.nodes,
        span,
        tape,
    })
}

/// Appends the texts at some spans of the bytes, each read, to others, and their tapes to those of others. The builder and
/// `positions` lend their memory.
pub(crate) fn read_texts(
    builder: &mut Builder,
    bytes: &[u8],
    spans: &[Span],
    positions: &mut Vec<u32>,
    lines: &mut Vec<Line>,
    tapes: &mut Vec<u64>,
) -> Result<(), AllocError>
    requires within { All (IsSpanOf bytes.now) spans.now }
    requires room { length bytes.now < 2 ^ 32 }
    ensures came { OnOk result (map (stored_text bytes.now) lines.new.items ≡ map (stored_text bytes.now) lines.old.items ++ map (text_at bytes.now) spans.now) }
    ensures read { All (IsRead framings.Lines bytes.now tapes.old.items) lines.old.items → OnOk result (All (IsRead framings.Lines bytes.now tapes.new.items) lines.new.items) }
{
    tapes_are_kept();
    lines.reserve(spans.len())?;
    for span in spans {
        let line = read_text(builder, bytes, *span, positions, tapes)?;
        lines.push(line)?;
    }
    Ok(())
}
