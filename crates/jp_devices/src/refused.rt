//! Words of the command line that are not UTF-8.

use std::alloc::{AllocError, Global};
use std::env::{Env, FillError};

/// The bytes as text, with U+FFFD in place of each sequence that is not UTF-8.
fn shown(alloc: Global, bytes: &[u8]) -> Result<String, AllocError> {
    let mut text = String::new(alloc);
    for chunk in bytes.utf8_chunks() {
        text.push_str(chunk.valid())?;
        if !chunk.invalid().is_empty() {
            text.push('\u{FFFD}')?;
        }
    }
    Ok(text)
}

/// Says in the name of a program which word is the first that is not UTF-8, as far as it can be shown. Of a word of more than
/// 4096 bytes it says only that there is one.
pub fn refuse_word(rt: &HostRuntime, program: &str) {
    let mut room = [0; 4096];
    for number in 0..usize::MAX {
        let bytes = match rt.arg(number, &mut room) {
            Ok(length) => &room[..length],
            Err(FillError::TooLong) => continue,
            Err(FillError::NotPresent) => break,
        };
        if str::from_utf8(bytes).is_err() {
            if let Ok(word) = shown(rt.alloc(), bytes) {
                let _ = eprintln!(rt; "{program}: word {number} is not UTF-8: {word:?}");
                return;
            }
        }
    }
    let _ = eprintln!(rt; "{program}: a word is not UTF-8");
}
