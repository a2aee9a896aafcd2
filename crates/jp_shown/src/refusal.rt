//! The refusal of words in which one of them is quoted.

ghost use Rattle.std.specs.Prelude.{◌≡◌, IfOk, false, string_bytes};
ghost use Rattle.jp_shown.specs.Texts.{quotes_word};

use crate::text::shown;
use std::alloc::{AllocError, Global};

/// The words of clap before a word that is no option, and after it.
const BEFORE: &str = "error: unexpected argument '";

const AFTER: &str = "' found";

/// The usage begins so, after what is said of the word.
const USAGE: &str = "\n\nUsage: ";

/// The characters of such a word that are shown.
const MOST: usize = 80;

/// A refusal of a word that is no option, with the word as `shown` has it, once, and the usage.
fn shorten(alloc: Global, refusal: &str) -> Result<Option<String>, AllocError> {
    let Some(rest) = refusal.strip_prefix(BEFORE) else {
        return Ok(None);
    };
    let Some((word, after)) = rest.split_once(AFTER) else {
        return Ok(None);
    };
    let word_shown = shown(alloc, word, MOST)?;
    if word_shown.as_str() == word {
        return Ok(None);
    }
    let mut text = String::from_str(alloc, BEFORE)?;
    text.push_str(&word_shown)?;
    text.push_str(AFTER)?;
    if let Some(usage) = after.rfind(USAGE) {
        text.push_str(&after[usage..])?;
    }
    Ok(Some(text))
}

/// A refusal of words as it is shown. One that quotes a word which is no option quotes it once, and as `shown` does, where it is long
/// or has control characters; any other stays as it is.
///
/// If memory is refused, the answer is `AllocError`.
pub fn shown_refusal(alloc: Global, refusal: &str) -> Result<String, AllocError>
    ensures { IfOk result (λ shown. quotes_word refusal.now ≡ false → string_bytes shown ≡ refusal.now) }
{
    if !refusal.as_bytes().starts_with(BEFORE.as_bytes()) {
        return String::from_str(alloc, refusal);
    }
    match shorten(alloc, refusal)? {
        Some(text) => Ok(text),
        None => String::from_str(alloc, refusal),
    }
}
