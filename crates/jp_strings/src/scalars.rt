//! The scalars that a body spells.
ghost use Rattle.std.specs.Prelude.{◌≡◌, ◌≢◌, ℕ, ◌+◌, ◌-◌, ◌*◌, ◌<◌, ◌++◌, List, IsTrue, length, drop, encode_utf8};
ghost use Rattle.std.specs.Str.{IsUtf8};
ghost use Rattle.std.specs.Iterator.{YieldsFirst, item_count};
ghost use Rattle.jp_model.specs.Characters.{is_high_surrogate as is_high_half, is_low_surrogate as is_low_half, pair_value as pair_value_of};
ghost use Rattle.jp_model.specs.Json.Places.{byte_at};
ghost use Rattle.jp_strings.specs.Points.{IsText, points_of, is_text_from, GoesOn};

use crate::escape::{is_high_surrogate, read_escape};
use std::str;

/// The scalar of the two halves of a surrogate pair.
fn pair_value(high: u32, low: u32) -> u32
    requires high { IsTrue (is_high_half high) }
    requires low { IsTrue (is_low_half low) }
    ensures { result ≡ pair_value_of high low }
{
    0x10000 + (high - 0xD800) * 0x400 + (low - 0xDC00)
}

/// The character that begins at a position.
fn char_at(body: &[u8], at: usize) -> char
    requires inside { at < length body.now }
    requires utf8 { IsUtf8 (drop at body.now) }
    ensures { (rest : List ℕ) × (drop at body.now ≡ encode_utf8 result ++ rest) }
{
    let text = unsafe { str::from_utf8_unchecked(&body[at..]) };
    text.chars().next().unwrap()
}

/// The scalar that a character that begins with no backslash stands for, and the position after it.
fn plain_scalar_at(body: &[u8], at: usize) -> (char, usize)
    requires inside { at < length body.now }
    requires text { IsTrue (is_text_from body.now at) }
    requires plain { byte_at body.now at ≢ 0x5C }
    ensures { GoesOn body.now at result.0 result.1 }
{
    let scalar = char_at(body, at);
    (scalar, at + scalar.len_utf8())
}

/// The scalar that one or two escapes stand for, and the position after them.
pub(crate) fn escaped_scalar_at(body: &[u8], at: usize) -> (char, usize)
    requires inside { at < length body.now }
    requires text { IsTrue (is_text_from body.now at) }
    requires backslash { byte_at body.now at ≡ 0x5C }
    ensures { GoesOn body.now at result.0 result.1 }
{
    let (unit, end) = read_escape(body, at).unwrap();
    if is_high_surrogate(unit) {
        let (low, end) = read_escape(body, end).unwrap();
        (char::from_u32(pair_value(unit, low)).unwrap(), end)
    } else {
        (char::from_u32(unit).unwrap(), end)
    }
}

/// The scalar that is spelled at a position, and the position after it.
fn scalar_at(body: &[u8], at: usize) -> (char, usize)
    requires inside { at < length body.now }
    requires text { IsTrue (is_text_from body.now at) }
    ensures { GoesOn body.now at result.0 result.1 }
{
    if body[at] == b'\\' {
        escaped_scalar_at(body, at)
    } else {
        plain_scalar_at(body, at)
    }
}

/// The scalars that a body spells, in order: what an escape stands for in its place, and one scalar
/// for the two halves of a surrogate pair (RFC 8259, section 7).
#[derive(Clone, Copy, Debug)]
pub struct Scalars<'a> {
    body: &'a [u8],
    at: usize,
    ghost text: { IsTrue (is_text_from body.now at) },
}

impl<'a> Scalars<'a> {
    ghost use Rattle.jp_strings.specs.Scalars.{scalars_left};

    /// The scalars of a body, with none read yet.
    pub fn new(body: &'a [u8]) -> Self
        requires { IsText body.now }
        ensures { scalars_left result ≡ points_of body.now }
    {
        Scalars { body, at: 0 }
    }
}

impl Iterator for Scalars<'_> {
    ghost use Rattle.jp_strings.specs.Scalars.{scalars_left};

    type Item = char;

    ghost next_gives = { YieldsFirst scalars_left };

    ghost remaining = { item_count scalars_left };

    fn next(&mut self) -> Option<char> {
        if self.at == self.body.len() {
            return None;
        }
        let (scalar, end) = scalar_at(self.body, self.at);
        self.at = end;
        Some(scalar)
    }
}
