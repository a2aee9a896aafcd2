//! A line in which the bytes of some spans are coloured.

ghost use Rattle.std.specs.Prelude.{◌≡◌, ◌++◌, ◌≤◌, OnOk, length};
ghost use Rattle.std.specs.List.Sorted.{IsNonDecreasingBy};
ghost use Rattle.jp_model.specs.declared.Span.{Span};
ghost use Rattle.jp_paint.specs.Marked.{clipped, marked_part, run_text};

use crate::part::{Part, stop};
use jp_model::Span;
use std::alloc::AllocError;

/// Appends the bytes of a run, coloured, unless it is empty.
fn push_run(bytes: &[u8], text: &mut Vec<u8>) -> Result<(), AllocError>
    ensures { OnOk result (text.new.items ≡ text.old.items ++ run_text bytes.now) }
{
    if bytes.is_empty() {
        return Ok(());
    }
    text.extend_from_slice(Part::Node.start())?;
    text.extend_from_slice(bytes)?;
    text.extend_from_slice(stop())
}

/// What of a span lies within a part of its line. It is empty where nothing does.
fn clip(span: Span, part: Span) -> Span
    ensures { result ≡ clipped part span }
{
    let start = span.start.max(part.start).min(part.end);
    let end = span.end.max(start).min(part.end);
    Span { start, end }
}

/// Appends a part of a line in which the bytes of some spans, which are in the order of their beginnings, are coloured.
fn push_in_order(
    line: &[u8],
    part: Span,
    spans: &[Span],
    text: &mut Vec<u8>,
) -> Result<(), AllocError>
    requires order { part.start ≤ part.end }
    requires within { part.end ≤ length line.now }
    requires spans { IsNonDecreasingBy (λ (span : Span). span.start) spans.now }
    ensures { OnOk result (text.new.items ≡ text.old.items ++ marked_part spans.now part line.now) }
{
    // What stands before the run is appended.
    let mut rest = &line[part.start as usize..part.end as usize];
    let mut run = Span {
        start: part.start,
        end: part.start,
    };
    for span in spans {
        let span = clip(*span, part);
        if span.start > run.end {
            let (coloured, more) = rest.split_at((run.end - run.start) as usize);
            let (plain, more) = more.split_at((span.start - run.end) as usize);
            push_run(coloured, text)?;
            text.extend_from_slice(plain)?;
            rest = more;
            run = span;
        } else if span.end > run.end {
            run.end = span.end;
        }
    }
    let (coloured, plain) = rest.split_at((run.end - run.start) as usize);
    push_run(coloured, text)?;
    text.extend_from_slice(plain)
}

/// Appends a part of a line in which the bytes of some spans are coloured: of spans within one another the outermost. It sorts the
/// spans. If memory is refused, what was appended is to be forgotten.
pub fn push_marked(
    line: &[u8],
    part: Span,
    spans: &mut [Span],
    text: &mut Vec<u8>,
) -> Result<(), AllocError>
    requires order { part.start ≤ part.end }
    requires within { part.end ≤ length line.now }
    ensures { OnOk result (text.new.items ≡ text.old.items ++ marked_part spans.old part line.now) }
{
    spans.sort_unstable_by_key(
        |span|
            ensures { result ≡ span.now.start }
        { span.start },
    );
    push_in_order(line, part, spans, text)
}
