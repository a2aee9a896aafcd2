//! Equality, order and size of bodies by the scalars that they spell.
ghost use Rattle.std.specs.Prelude.{◌≡◌, true, false, ◌^◌, ◌<◌, ◌≤◌, ◌++◌, IfOk, OnOk, IfSome, IfNone, IsTrue, count_by, length, encode_utf8_all};
ghost use Rattle.std.specs.Cmp.Lexicographic.{slice_cmp};
ghost use Rattle.std.specs.Ordering.{nat_cmp};
ghost use Rattle.std.specs.Str.{chars};
ghost use Rattle.std.specs.String.{string_bytes};
ghost use Rattle.jp_model.specs.Characters.{text_equal};
ghost use Rattle.jp_strings.specs.Plain.{ArePlain, begins_character};
ghost use Rattle.jp_strings.specs.Counts.{Counts};
ghost use Rattle.jp_strings.specs.Unescaped.{Unescapes};
ghost use Rattle.jp_strings.specs.Points.{IsText, points_of, is_text_from};

use crate::scalars::{Scalars, escaped_scalar_at};
use jp_lanes::{equal_bytes, first_special, has_special};
use std::alloc::{AllocError, Global};
use std::cmp::Ordering;
use std::str;

/// Whether each byte stands for itself: none is a quote, a backslash, or below 0x20 (RFC 8259, section 7).
// The search does not belong into each loop over names that asks.
#[inline(never)]
pub fn is_plain(body: &[u8]) -> bool
    ensures plain { IsTrue result → ArePlain body.now 0 (length body.now) }
    ensures special { result ≡ false → ArePlain body.now 0 (length body.now) → ⊥ }
{
    !has_special(body)
}

/// Whether neither body is much longer than the other. To read a long one for each of many short ones would cost the square of
/// a line.
fn are_alike_long(a: &[u8], b: &[u8]) -> bool {
    a.len() / 4 <= b.len().max(16) && b.len() / 4 <= a.len().max(16)
}

/// Whether each character of both stands for itself, as far as that is told by reading little more than the shorter one.
fn are_plain(a: &[u8], b: &[u8]) -> bool
    ensures first { IsTrue result → ArePlain a.now 0 (length a.now) }
    ensures second { IsTrue result → ArePlain b.now 0 (length b.now) }
{
    are_alike_long(a, b) && is_plain(a) && is_plain(b)
}

/// What `compare` answers, scalar by scalar: of long bodies no more is read than they agree on.
pub fn compare_scalars(a: &[u8], b: &[u8]) -> Ordering
    requires first { IsText a.now }
    requires second { IsText b.now }
    ensures { result ≡ slice_cmp nat_cmp (points_of a.now) (points_of b.now) }
{
    Scalars::new(a).cmp(Scalars::new(b))
}

/// How two bodies are ordered by the scalars that they spell, a proper prefix being less (RFC 9535,
/// section 2.3.5.2.2).
pub fn compare(a: &[u8], b: &[u8]) -> Ordering
    requires first { IsText a.now }
    requires second { IsText b.now }
    ensures { result ≡ slice_cmp nat_cmp (points_of a.now) (points_of b.now) }
{
    if are_plain(a, b) {
        return a.cmp(b);
    }
    compare_scalars(a, b)
}

/// Whether two bodies spell the same scalars.
pub fn equal(a: &[u8], b: &[u8]) -> bool
    requires first { IsText a.now }
    requires second { IsText b.now }
    ensures { result ≡ text_equal (points_of a.now) (points_of b.now) }
{
    if equal_bytes(a, b) {
        return true;
    }
    if are_plain(a, b) {
        return false;
    }
    compare_scalars(a, b).is_eq()
}

/// The order of a body and a text, scalar by scalar.
fn compare_text_scalars(body: &[u8], text: &str) -> Ordering
    requires { IsText body.now }
    ensures { result ≡ slice_cmp nat_cmp (points_of body.now) (chars text.now) }
{
    Scalars::new(body).cmp(text.chars())
}

/// How the scalars that a body spells are ordered against those of a text, a proper prefix being less (RFC 9535, section
/// 2.3.5.2.2). Only a body with an escape is decoded.
pub fn compare_text(body: &[u8], text: &str) -> Ordering
    requires { IsText body.now }
    ensures { result ≡ slice_cmp nat_cmp (points_of body.now) (chars text.now) }
{
    if is_plain(body) {
        return body.cmp(text.as_bytes());
    }
    compare_text_scalars(body, text)
}

/// Whether a body spells the scalars of a text, scalar by scalar.
fn spells_by_scalars(body: &[u8], text: &str) -> bool
    requires { IsText body.now }
    ensures { result ≡ text_equal (chars text.now) (points_of body.now) }
{
    compare_text_scalars(body, text).is_eq()
}

/// Whether a body begins with an escape, or with the first byte of a text. A body that begins otherwise spells another text;
/// most names of a line are passed by here.
#[inline(always)]
fn begins_alike(body: &[u8], text: &str) -> bool
    requires { IsText body.now }
    ensures { result ≡ false → text_equal (chars text.now) (points_of body.now) ≡ false }
{
    if body.is_empty() || text.is_empty() {
        return true;
    }
    body[0] == b'\\' || body[0] == text.as_bytes()[0]
}

/// Whether a body may spell a text, by its length and its first byte. An escape is longer than what it stands for, so a body
/// that is no longer spells the text only where it is its bytes.
#[inline(always)]
fn may_spell(body: &[u8], text: &str) -> bool
    requires { IsText body.now }
    ensures other { result ≡ false → text_equal (chars text.now) (points_of body.now) ≡ false }
    ensures bytes { result ≡ true → length body.now ≤ length text.now → body.now ≡ text.now }
{
    if body.len() > text.len() {
        begins_alike(body, text)
    } else {
        equal_bytes(body, text.as_bytes())
    }
}

/// Whether a body that is these bytes, or is longer, spells the scalars of a text.
#[inline(never)]
fn spells_in_full(body: &[u8], text: &str) -> bool
    requires body { IsText body.now }
    requires same { length body.now ≤ length text.now → body.now ≡ text.now }
    ensures { result ≡ text_equal (chars text.now) (points_of body.now) }
{
    if is_plain(body) {
        return body.len() <= text.len();
    }
    spells_by_scalars(body, text)
}

/// Whether a body spells the scalars of a text. Only a body with an escape is decoded.
pub fn spells(body: &[u8], text: &str) -> bool
    requires { IsText body.now }
    ensures { result ≡ text_equal (chars text.now) (points_of body.now) }
{
    may_spell(body, text) && spells_in_full(body, text)
}

/// Whether a body spells the scalars of a text, whose bytes may be known to stand each for itself. Then a body that is
/// these bytes is not searched for an escape.
#[inline(always)]
pub fn spells_known(body: &[u8], text: &str, plain: bool) -> bool
    requires body { IsText body.now }
    requires text { plain ≡ true → ArePlain text.now 0 (length text.now) }
    ensures { result ≡ text_equal (chars text.now) (points_of body.now) }
{
    if !may_spell(body, text) {
        return false;
    }
    if plain && body.len() <= text.len() {
        return true;
    }
    spells_in_full(body, text)
}

/// How many characters some bytes have.
fn char_count(text: &[u8]) -> usize
    ensures { result ≡ count_by begins_character text.now }
{
    text.iter()
        .filter(|byte| **byte < 0x80 || **byte >= 0xC0)
        .count()
}

/// All scalars up to the next escape, or the one that it stands for: how many, and the position after it.
fn count_some(body: &[u8], at: usize) -> (usize, usize)
    requires inside { at < length body.now }
    requires text { IsTrue (is_text_from body.now at) }
    ensures { Counts body.now at result.1 result.0 }
{
    let end = first_special(body, at);
    if at < end {
        return (char_count(&body[at..end]), end);
    }
    let (_, end) = escaped_scalar_at(body, at);
    (1, end)
}

/// How many scalars a body spells.
pub fn scalar_count(body: &[u8]) -> u32
    requires text { IsText body.now }
    requires size { length body.now < 2 ^ 32 }
    ensures { result ≡ length (points_of body.now) }
{
    let mut count = 0;
    let mut at = 0;
    while at < body.len() {
        let (some, end) = count_some(body, at);
        count += some;
        at = end;
    }
    count as u32
}

/// The text that a body spells, where it has no escape: its own bytes, which are not copied.
#[inline(always)]
pub fn plain_text(body: &[u8]) -> Option<&str>
    requires { IsText body.now }
    ensures text { IfSome result (λ text. chars text.now ≡ points_of body.now) }
    ensures escaped { IfNone result (ArePlain body.now 0 (length body.now) → ⊥) }
{
    if has_special(body) {
        return None;
    }
    Some(unsafe { str::from_utf8_unchecked(body) })
}

/// Appends all characters up to the next escape, or the one that it stands for: the position after them.
#[inline(always)]
fn unescape_some(text: &mut String, body: &[u8], at: usize) -> Result<usize, AllocError>
    requires inside { at < length body.now }
    requires text { IsTrue (is_text_from body.now at) }
    ensures { IfOk result (λ behind. Unescapes body.now at behind (string_bytes text.old) (string_bytes text.new)) }
{
    let end = first_special(body, at);
    if at < end {
        text.push_str(unsafe { str::from_utf8_unchecked(&body[at..end]) })?;
        return Ok(end);
    }
    let (scalar, end) = escaped_scalar_at(body, at);
    text.push(scalar)?;
    Ok(end)
}

/// Appends the text that a body spells.
fn add_unescaped(text: &mut String, body: &[u8]) -> Result<(), AllocError>
    requires { IsText body.now }
    ensures { OnOk result (string_bytes text.new ≡ string_bytes text.old ++ encode_utf8_all (points_of body.now)) }
{
    // An escape is longer than what it stands for, so this is room for all of it.
    text.reserve(body.len())?;
    let mut at = 0;
    while at < body.len() {
        at = unescape_some(text, body, at)?;
    }
    Ok(())
}

/// The text that a body spells, in place of what the buffer holds. Its room is kept, so that many bodies are read with few
/// allocations. Where there is no memory, the buffer holds a part of the text.
pub fn unescape_into(text: &mut String, body: &[u8]) -> Result<(), AllocError>
    requires { IsText body.now }
    ensures { OnOk result (chars (string_bytes text.new) ≡ points_of body.now) }
{
    text.clear();
    add_unescaped(text, body)
}

/// The text that a body spells.
pub fn unescape(alloc: Global, body: &[u8]) -> Result<String, AllocError>
    requires { IsText body.now }
    ensures { IfOk result (λ text. chars (string_bytes text) ≡ points_of body.now) }
{
    let mut text = String::new(alloc);
    unescape_into(&mut text, body)?;
    Ok(text)
}
