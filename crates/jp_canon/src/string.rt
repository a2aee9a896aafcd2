//! Strings in canonical form (RFC 8785, section 3.2.2.2).

ghost use Rattle.std.specs.Prelude.{◌≡◌, ◌++◌, OnOk, flat_map};
ghost use Rattle.jp_canon.specs.Canonical.{character_text, string_text};
ghost use Rattle.jp_strings.specs.Points.{IsText, points_of};

use jp_strings::{Scalars, control_escape, is_plain};
use std::alloc::AllocError;

/// Appends a scalar, by its shortest escape where it has to be escaped.
fn append_character(scalar: char, text: &mut Vec<u8>) -> Result<(), AllocError>
    ensures { OnOk result (text.new.items ≡ text.old.items ++ character_text scalar) }
{
    match scalar {
        '"' => text.extend_from_slice(b"\\\""),
        '\\' => text.extend_from_slice(b"\\\\"),
        '\u{8}' => text.extend_from_slice(b"\\b"),
        '\t' => text.extend_from_slice(b"\\t"),
        '\n' => text.extend_from_slice(b"\\n"),
        '\u{c}' => text.extend_from_slice(b"\\f"),
        '\r' => text.extend_from_slice(b"\\r"),
        '\0'..='\u{1f}' => text.extend_from_slice(&control_escape(scalar as u8)),
        _ => text.extend_from_slice(scalar.encode_utf8(&mut [0; 4]).as_bytes()),
    }
}

/// Appends the characters of a string: its body as it stands, or scalar by scalar where some character is escaped there.
fn append_characters(body: &[u8], text: &mut Vec<u8>) -> Result<(), AllocError>
    requires { IsText body.now }
    ensures { OnOk result (text.new.items ≡ text.old.items ++ flat_map character_text (points_of body.now)) }
{
    if is_plain(body) {
        return text.extend_from_slice(body);
    }
    for scalar in Scalars::new(body) {
        append_character(scalar, text)?;
    }
    Ok(())
}

/// Appends the string that a body spells, between quotes.
pub(crate) fn append_string(body: &[u8], text: &mut Vec<u8>) -> Result<(), AllocError>
    requires { IsText body.now }
    ensures { OnOk result (text.new.items ≡ text.old.items ++ string_text (points_of body.now)) }
{
    text.push(b'"')?;
    append_characters(body, text)?;
    text.push(b'"')?;
    Ok(())
}
