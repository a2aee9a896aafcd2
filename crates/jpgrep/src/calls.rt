//! Notes on the calls of `match` and `search` in a question.

use crate::note::Note;
use jp_syntax::{Argument, Call, Comparable, Literal, Logical, Segment, Selector};
use std::alloc::AllocError;

/// Adds a note that is not there yet.
pub(crate) fn add_note<'a>(note: Note<'a>, notes: &mut Vec<Note<'a>>) -> Result<(), AllocError> {
    if !notes.contains(&note) {
        notes.push(note)?;
    }
    Ok(())
}

/// Whether a text ends with a `$` that no backslash escapes.
fn ends_with_dollar(pattern: &str) -> bool {
    match pattern.strip_suffix('$') {
        Some(rest) => {
            let escapes = rest.len() - rest.trim_end_matches('\\').len();
            escapes % 2 == 0
        }
        None => false,
    }
}

/// Adds the notes on the arguments of `match` or `search`.
fn add_notes_on(arguments: &[Argument], notes: &mut Vec<Note<'_>>) -> Result<(), AllocError> {
    match arguments {
        [Argument::Constant(Literal::Text(_)), Argument::Nodes(_)] => add_note(
            Note::Exchanged,
            notes,
        ),
        [_, Argument::Constant(Literal::Text(pattern))] => {
            if pattern.starts_with('^') {
                add_note(Note::Anchor('^'), notes)?;
            }
            if ends_with_dollar(pattern) {
                add_note(Note::Anchor('$'), notes)?;
            }
            Ok(())
        }
        _ => Ok(()),
    }
}

/// Adds the notes on the calls in segments.
#[cycle(calls)]
pub(crate) fn note_segments(
    segments: &[Segment],
    notes: &mut Vec<Note<'_>>,
) -> Result<(), AllocError> {
    for segment in segments {
        let (Segment::Child(selectors) | Segment::Descendant(selectors)) = segment;
        for selector in selectors {
            if let Selector::Filter(condition) = selector {
                note_condition(condition, notes)?;
            }
        }
    }
    Ok(())
}

/// Adds the notes on the calls in a condition.
#[cycle(calls)]
pub(crate) fn note_condition(
    condition: &Logical,
    notes: &mut Vec<Note<'_>>,
) -> Result<(), AllocError> {
    match condition {
        Logical::Or(parts) | Logical::And(parts) => {
            for part in parts {
                note_condition(part, notes)?;
            }
            Ok(())
        }
        Logical::Not(inner) => note_condition(inner, notes),
        Logical::Compare { left, op: _, right } => {
            note_side(left, notes)?;
            note_side(right, notes)
        }
        Logical::Exists(path) => note_segments(&path.segments, notes),
        Logical::Test(call) => note_call(call, notes),
    }
}

/// Adds the notes on the calls in a side of a comparison.
#[cycle(calls)]
fn note_side(side: &Comparable, notes: &mut Vec<Note<'_>>) -> Result<(), AllocError> {
    match side {
        Comparable::Constant(_) => Ok(()),
        Comparable::Single(path) => note_segments(&path.segments, notes),
        Comparable::Result(call) => note_call(call, notes),
    }
}

/// Adds the notes on a call, and on those in its arguments.
#[cycle(calls)]
fn note_call(call: &Call, notes: &mut Vec<Note<'_>>) -> Result<(), AllocError> {
    if matches!(call.name.as_str(), "match" | "search") {
        add_notes_on(&call.arguments, notes)?;
    }
    for argument in &call.arguments {
        match argument {
            Argument::Constant(_) => {}
            Argument::Nodes(path) => note_segments(&path.segments, notes)?,
            Argument::Condition(condition) => note_condition(condition, notes)?,
            Argument::Result(inner) => note_call(inner, notes)?,
        }
    }
    Ok(())
}
