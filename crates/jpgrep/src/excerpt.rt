//! The part of a text around a place, on one line.

use std::alloc::{AllocError, Global};
use unicode_width::UnicodeWidthChar;

/// The columns that a line takes at most.
const COLUMNS: usize = 72;

/// The columns before the place that are shown at most.
const COLUMNS_BEFORE: usize = 48;

/// The part of a text around a place, on one line of at most 72 columns.
#[derive(Drop)]
pub(crate) struct Excerpt {
    /// The line. Control characters are blanks in it.
    pub(crate) line: String,
    /// The blanks under it before the place.
    pub(crate) indent: String,
}

/// A character as it is shown, and the columns that it takes.
fn shown(scalar: char) -> (char, usize) {
    match scalar.width() {
        Some(columns) => (scalar, columns),
        None => (' ', 1),
    }
}

/// The columns of the characters that begin before a byte of the text.
fn columns_before(text: &str, place: usize) -> usize {
    let mut columns: usize = 0;
    for (at, scalar) in text.char_indices() {
        if at < place {
            columns = columns.saturating_add(shown(scalar).1);
        }
    }
    columns
}

impl Excerpt {
    /// The part of a text around the byte `place`.
    pub(crate) fn around(alloc: Global, text: &str, place: usize) -> Result<Excerpt, AllocError> {
        let first = columns_before(text, place).saturating_sub(COLUMNS_BEFORE);
        let mut line = String::new(alloc);
        let mut indent = String::new(alloc);
        let mut column: usize = 0;
        for (at, scalar) in text.char_indices() {
            let (scalar, columns) = shown(scalar);
            let behind = column.saturating_add(columns);
            if first <= column && behind <= first.saturating_add(COLUMNS) {
                line.push(scalar)?;
                if at < place {
                    for _ in 0..columns {
                        indent.push(' ')?;
                    }
                }
            }
            column = behind;
        }
        Ok(Excerpt { line, indent })
    }
}
