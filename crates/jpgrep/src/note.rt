//! Notes on a question that may ask something else than was meant.

use crate::shell::quoted;
use jp_syntax::{Argument, Call, Comparable, Logical, Origin, Path, Segment, Selector};
use std::alloc::AllocError;

/// Whether the path begins at the current node and with a name.
fn begins_with_name(path: &Path) -> bool {
    if path.origin != Origin::Current {
        return false;
    }
    match path.segments.first() {
        Some(Segment::Child(selectors)) => { matches!(selectors.as_slice(), [Selector::Name(_)]) }
        _ => false,
    }
}

/// Whether an expression asks a member of the current node by its name.
#[cycle(note)]
fn asks_name(condition: &Logical) -> bool {
    match condition {
        Logical::Or(parts) | Logical::And(parts) => {
            for part in parts {
                if asks_name(part) {
                    return true;
                }
            }
            false
        }
        Logical::Not(inner) => asks_name(inner),
        Logical::Compare { left, op: _, right } => side_asks_name(left) || side_asks_name(right),
        Logical::Exists(path) => begins_with_name(path),
        Logical::Test(call) => call_asks_name(call),
    }
}

/// Whether a side of a comparison does.
#[cycle(note)]
fn side_asks_name(side: &Comparable) -> bool {
    match side {
        Comparable::Constant(_) => false,
        Comparable::Single(path) => begins_with_name(path),
        Comparable::Result(call) => call_asks_name(call),
    }
}

/// Whether an argument of a function does.
#[cycle(note)]
fn call_asks_name(call: &Call) -> bool {
    for argument in &call.arguments {
        let asks = match argument {
            Argument::Constant(_) => false,
            Argument::Nodes(path) => begins_with_name(path),
            Argument::Condition(condition) => asks_name(condition),
            Argument::Result(inner) => call_asks_name(inner),
        };
        if asks {
            return true;
        }
    }
    false
}

/// Where the bracket is closed that is open at the front of a text, outside strings. A backslash in a string takes the byte
/// that follows it.
fn closing_bracket(text: &str) -> Option<usize> {
    let mut depth: u32 = 1;
    let mut quote = None;
    let mut is_escaped = false;
    for (at, scalar) in text.char_indices() {
        match quote {
            Some(_) if is_escaped => is_escaped = false,
            Some(open) => {
                is_escaped = scalar == '\\';
                if scalar == open {
                    quote = None;
                }
            }
            None => match scalar {
                '\'' | '"' => quote = Some(scalar),
                '[' => depth = depth.saturating_add(1),
                ']' => depth = depth.saturating_sub(1),
                _ => {}
            },
        }
        if depth == 0 {
            return Some(at);
        }
    }
    None
}

/// The text of the filter that a query begins with, after its `$` or `@`.
fn filter_in(query: &str) -> Option<&str> {
    let rest = query
        .strip_prefix(|c: char| c == '$' || c == '@')?
        .trim_start();
    let rest = rest.strip_prefix('[')?.trim_start();
    let rest = rest.strip_prefix('?')?;
    let end = closing_bracket(rest)?;
    Some(rest.get(..end)?.trim())
}

/// The condition that was probably meant by a query: its first segment is one filter, which asks a name of `@`, and so a member
/// of each member of the line's value (RFC 9535, section 2.3.5.2).
pub(crate) fn meant_condition<'a>(text: &'a str, segments: &[Segment]) -> Option<&'a str> {
    match segments.first() {
        Some(Segment::Child(selectors)) => match selectors.as_slice() {
            [Selector::Filter(condition)] if asks_name(condition) => filter_in(text),
            _ => None,
        },
        _ => None,
    }
}

/// The condition that was probably meant by one that is a query alone, in the same way.
pub(crate) fn meant_by_condition<'a>(text: &'a str, condition: &Logical) -> Option<&'a str> {
    match condition {
        Logical::Exists(path) => meant_condition(text, &path.segments),
        _ => None,
    }
}

/// A note on a question that may ask something else than was meant.
#[derive(Clone, Copy, Debug, PartialEq, Eq)]
pub(crate) enum Note<'a> {
    /// A filter asks the members of a line's value; the line itself is asked by this condition.
    Filter(&'a str),
    /// A pattern begins with `^` or ends with `$`, which stand for themselves (RFC 9485, section 4).
    Anchor(char),
    /// The first argument of `match` or `search` is a text that stands in the query, and the second a path (RFC 9535, sections
    /// 2.4.6 and 2.4.7).
    Exchanged,
}

impl Note<'_> {
    /// Tells it.
    pub(crate) fn tell(&self, rt: &HostRuntime) -> Result<(), AllocError> {
        let _ = match self {
            Note::Filter(condition) => {
                let quoted = quoted(rt.alloc(), condition)?;
                eprintln!(rt;
                    "jpgrep: note: the filter asks the members of a line's value; of the line itself asks -w {quoted}"
                )
            }
            Note::Anchor(mark) => eprintln!(rt;
                "jpgrep: note: '{mark}' stands for itself in a pattern: match asks of a whole text, search of any part of it"
            ),
            Note::Exchanged => eprintln!(rt;
                "jpgrep: note: match and search take the text first, and then the pattern, as in search(@.a, \"x\")"
            ),
        };
        Ok(())
    }
}
