//! Characters that are written as escapes.
ghost use Rattle.std.specs.Prelude.{◌≡◌, ◌+◌, ◌<◌, ◌≤◌, Some, None, if◌then◌else◌, length};
ghost use Rattle.std.specs.Char as char;
ghost use Rattle.jp_model.specs.Characters.{is_high_surrogate as is_high_half, four_digits as four_digits_value};
ghost use Rattle.jp_model.specs.Json.Places.{byte_at};
ghost use Rattle.jp_model.specs.Json.Strings.{short_escape as short_escape_unit};
ghost use Rattle.jp_model.specs.Json.Reader.{character_at};

/// Whether a unit is the first half of a surrogate pair.
pub(crate) fn is_high_surrogate(unit: u32) -> bool
    ensures { result ≡ is_high_half unit }
{
    (0xD800..0xDC00).contains(&unit)
}

/// What a hexadecimal digit of either case stands for.
#[inline(always)]
fn digit_at(body: &[u8], at: usize) -> Option<u32>
    ensures { result ≡ (if char.is_digit (byte_at body.now at) 16
        then Some (char.digit_value (byte_at body.now at)) else None) }
{
    let byte = *body.get(at)?;
    char::from(byte).to_digit(16)
}

/// What the four hexadecimal digits of the escape at a position stand for.
#[inline(always)]
fn four_digits(body: &[u8], at: usize) -> Option<u32>
    requires { at ≤ length body.now }
    ensures { result ≡ four_digits_value (byte_at body.now (at + 2)) (byte_at body.now (at + 3))
        (byte_at body.now (at + 4)) (byte_at body.now (at + 5)) }
{
    let first = digit_at(body, at + 2)?;
    let second = digit_at(body, at + 3)?;
    let third = digit_at(body, at + 4)?;
    let fourth = digit_at(body, at + 5)?;
    Some(first * 4096 + second * 256 + third * 16 + fourth)
}

/// What a backslash and a letter stand for, but for `u`.
#[inline(always)]
fn short_escape(letter: u8) -> Option<u32>
    ensures { result ≡ short_escape_unit letter }
{
    match letter {
        b'"' | b'\\' | b'/' => Some(u32::from(letter)),
        b'b' => Some(0x08),
        b'f' => Some(0x0C),
        b'n' => Some(0x0A),
        b'r' => Some(0x0D),
        b't' => Some(0x09),
        _ => None,
    }
}

/// The unit that an escape stands for, and the position after it.
#[inline(always)]
pub(crate) fn read_escape(body: &[u8], at: usize) -> Option<(u32, usize)>
    requires { byte_at body.now at ≡ 0x5C }
    ensures { result ≡ character_at body.now at }
{
    let letter = *body.get(at + 1)?;
    if letter == b'u' {
        let unit = four_digits(body, at)?;
        return Some((unit, at + 6));
    }
    let unit = short_escape(letter)?;
    Some((unit, at + 2))
}
