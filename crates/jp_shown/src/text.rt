//! A text as a message shows it.

ghost use Rattle.std.specs.Prelude.{◌≡◌, ◌<◌, IfOk, OnOk, ◌++◌, chars, encode_utf8_all, flat_map, string_bytes};
ghost use Rattle.jp_shown.specs.Texts.{hex_digit, is_control, numbered_scalar, shown_scalar, shown_text};

use std::alloc::{AllocError, Global};

/// Whether a scalar is a control character (Unicode, general category Cc).
fn is_control(scalar: char) -> bool
    ensures { result ≡ is_control scalar }
{
    matches!(scalar, '\0'..='\u{1f}' | '\u{7f}'..='\u{9f}')
}

/// The hexadecimal digit of a number below 16.
fn hex_digit(number: u32) -> char
    ensures { result ≡ hex_digit number }
{
    match number {
        0..=9 => (b'0' + number as u8) as char,
        10..=15 => (b'a' + (number - 10) as u8) as char,
        _ => '0',
    }
}

/// Adds the number of a control character, as an escape has it.
fn push_number(number: u32, text: &mut String) -> Result<(), AllocError>
    requires { number < 256 }
    ensures { OnOk result (string_bytes text.new ≡ string_bytes text.old ++ encode_utf8_all (numbered_scalar number)) }
{
    text.push_str("\\u{")?;
    text.push(hex_digit(number / 16))?;
    text.push(hex_digit(number % 16))?;
    text.push('}')?;
    Ok(())
}

/// Adds a scalar, escaped where it is a control character.
fn push_shown(scalar: char, text: &mut String) -> Result<(), AllocError>
    ensures { OnOk result (string_bytes text.new ≡ string_bytes text.old ++ encode_utf8_all (shown_scalar scalar)) }
{
    match scalar {
        '\t' => text.push_str("\\t")?,
        '\n' => text.push_str("\\n")?,
        '\r' => text.push_str("\\r")?,
        _ if is_control(scalar) => push_number(scalar as u32, text)?,
        _ => text.push(scalar)?,
    }
    Ok(())
}

/// Adds scalars, with those escaped that are control characters.
fn push_all(scalars: &[char], text: &mut String) -> Result<(), AllocError>
    ensures { OnOk result (string_bytes text.new ≡ string_bytes text.old ++ encode_utf8_all (flat_map shown_scalar scalars.now)) }
{
    for scalar in scalars {
        push_shown(*scalar, text)?;
    }
    Ok(())
}

/// The scalars that the UTF-8 of a text encodes, in order.
fn scalars_of(alloc: Global, text: &str) -> Result<Vec<char>, AllocError>
    ensures { IfOk result (λ scalars. scalars.items ≡ chars text.now) }
{
    text.chars().collect(alloc)
}

/// A text as a message shows it: its first `most` characters, with two points after them where there are more. A control character
/// stands as `\n` or `\u{1b}` does, so that none reaches a terminal.
///
/// If memory is refused, the answer is `AllocError`.
pub fn shown(alloc: Global, text: &str, most: usize) -> Result<String, AllocError>
    ensures { IfOk result (λ shown. string_bytes shown ≡ encode_utf8_all (shown_text most (chars text.now))) }
{
    let scalars = scalars_of(alloc, text)?;
    let mut shown = String::new(alloc);
    if scalars.len() <= most {
        push_all(&scalars, &mut shown)?;
        return Ok(shown);
    }
    push_all(&scalars[..most], &mut shown)?;
    shown.push_str("..")?;
    Ok(shown)
}
