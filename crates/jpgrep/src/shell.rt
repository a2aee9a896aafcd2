//! Arguments as a shell reads them.

use std::alloc::{AllocError, Global};

/// Whether a shell reads a character as itself.
fn is_plain(scalar: char) -> bool {
    scalar.is_ascii_alphanumeric()
        || matches!(scalar, '.' | '_' | '/' | '-' | '+' | ',' | ':' | '@' | '%')
}

/// An argument as a shell reads it: between single quotes where it wants them.
pub(crate) fn shell_word(alloc: Global, word: &str) -> Result<String, AllocError> {
    if !word.is_empty() && word.chars().all(is_plain) {
        return String::from_str(alloc, word);
    }
    quoted(alloc, word)
}

/// A text between single quotes, as a shell reads it.
pub(crate) fn quoted(alloc: Global, text: &str) -> Result<String, AllocError> {
    let mut quoted = String::new(alloc);
    quoted.push('\'')?;
    for scalar in text.chars() {
        if scalar == '\'' {
            quoted.push_str("'\\''")?;
        } else {
            quoted.push(scalar)?;
        }
    }
    quoted.push('\'')?;
    Ok(quoted)
}
