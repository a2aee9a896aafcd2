//! Bytes as the files write them: text as it stands, and other bytes in hexadecimal between guillemets.

use crate::malformed::{LineFault, Reason};
use std::alloc::{AllocError, Global};

/// What is between guillemets at the end of a line that has no line feed.
const NO_LINE_FEED: &str = "no line feed";

/// The byte that two hexadecimal digits spell.
fn byte_of(pair: &str) -> Result<u8, Reason> {
    if pair.len() != 2 || !pair.bytes().all(|digit| digit.is_ascii_hexdigit()) {
        return Err(Reason::NotBytes);
    }
    u8::from_str_radix(pair, 16).map_err(|_| Reason::NotBytes)
}

/// Appends the bytes that are in hexadecimal, single spaces between them.
fn append_pairs(out: &mut Vec<u8>, pairs: &str) -> Result<(), LineFault> {
    for pair in pairs.split(' ') {
        out.push(byte_of(pair)?)?;
    }
    Ok(())
}

/// Appends what a line spells: the bytes of its text, and a line feed unless it says that there is none.
pub(crate) fn append_line(out: &mut Vec<u8>, text: &str) -> Result<(), LineFault> {
    let mut pieces = text.split('«');
    if let Some(first) = pieces.next() {
        out.extend_from_slice(first.as_bytes())?;
    }
    let mut has_line_feed = true;
    for piece in pieces {
        let Some((inside, behind)) = piece.split_once('»') else {
            return Err(Reason::Unclosed.into());
        };
        if !has_line_feed || (inside == NO_LINE_FEED && !behind.is_empty()) {
            return Err(Reason::NotAtEnd.into());
        }
        if inside == NO_LINE_FEED {
            has_line_feed = false;
        } else {
            append_pairs(out, inside)?;
            out.extend_from_slice(behind.as_bytes())?;
        }
    }
    if has_line_feed {
        out.push(b'\n')?;
    }
    Ok(())
}

/// Appends the bytes in hexadecimal, each between guillemets.
fn show_bytes(shown: &mut String, bytes: &[u8]) -> Result<(), AllocError> {
    for byte in bytes {
        write!(shown, "«{byte:02X}»")?;
    }
    Ok(())
}

/// Appends text, with its control characters but tabs, and its guillemets, in hexadecimal.
fn show_text(shown: &mut String, text: &str) -> Result<(), AllocError> {
    for character in text.chars() {
        if character == '«' || (character.is_control() && character != '\t') {
            let mut room = [0; 4];
            show_bytes(shown, character.encode_utf8(&mut room).as_bytes())?;
        } else {
            shown.push(character)?;
        }
    }
    Ok(())
}

/// A line of an output as a file of examples would write it after its mark and a space.
pub(crate) fn show_line(alloc: Global, line: &[u8]) -> Result<String, AllocError> {
    let mut shown = String::new(alloc);
    let text = line.strip_suffix(b"\n");
    for chunk in text.unwrap_or(line).utf8_chunks() {
        show_text(&mut shown, chunk.valid())?;
        show_bytes(&mut shown, chunk.invalid())?;
    }
    if text.is_none() {
        shown.push_str("«no line feed»")?;
    }
    Ok(shown)
}
