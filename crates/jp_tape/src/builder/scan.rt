//! Places in a line: where white space, words, numbers and strings end.

ghost use Rattle.std.specs.Prelude.{◌≡◌, ℕ, ◌+◌, ◌<◌, ◌≤◌, true, false, length, drop, List, IfSome, IfNone};
ghost use Rattle.jp_model.specs.Characters.{is_white, is_digit};
ghost use Rattle.jp_model.specs.Json.Places.{White, Has, Reads, byte_at};
ghost use Rattle.jp_model.specs.Json.Marks.{may_begin};
ghost use Rattle.jp_tape.specs.Places.{in_number, Ended, Stops};
ghost use Rattle.jp_tape.specs.Ahead.{IsAhead, IsNext, first_or};

/// Whether a byte is white space: a space, tab, line feed or carriage return (RFC 8259, section 2).
fn is_white_byte(byte: u8) -> bool
    ensures { result ≡ is_white byte }
{
    // Most bytes are greater than all four.
    byte <= b' ' && (byte == b' ' || byte == b'\t' || byte == b'\n' || byte == b'\r')
}

/// Whether a byte is an ASCII digit.
fn is_digit_byte(byte: u8) -> bool
    ensures { result ≡ is_digit byte }
{
    byte >= b'0' && byte <= b'9'
}

/// Whether a byte occurs in numbers: a digit, a point, an `e` of either case, or a sign (RFC 8259, section 6).
pub(super) fn is_number_byte(byte: u8) -> bool
    ensures { result ≡ in_number byte }
{
    is_digit_byte(byte)
        || byte == b'.'
        || byte == b'e'
        || byte == b'E'
        || byte == b'+'
        || byte == b'-'
}

/// Whether white space is there.
fn is_white_at(line: &[u8], at: usize) -> bool
    ensures inside { result ≡ true → at < length line.now }
    ensures is { result ≡ is_white (byte_at line.now at) }
{
    at < line.len() && is_white_byte(line[at])
}

/// The first of the marks, or else the length of the line.
#[inline(always)]
fn first_mark(line: &[u8], marks: &[u32]) -> usize
    ensures value { result ≡ first_or marks.now (length line.now) }
    ensures inside { (from : ℕ) → IsAhead line.now from marks.now → 0 < length marks.now → result < length line.now }
{
    if marks.is_empty() {
        return line.len();
    }
    marks[0] as usize
}

/// The first of the marks, where there is one.
#[inline(always)]
pub(super) fn next_mark(marks: &[u32]) -> usize
    requires some { 0 < length marks.now }
    ensures value { (end : ℕ) → result ≡ first_or marks.now end }
{
    marks[0] as usize
}

/// The first place at or after `from` without white space, or the length: the next mark, where white space is at `from`.
#[inline(always)]
pub(super) fn skip_white(line: &[u8], marks: &[u32], from: usize) -> usize
    requires within { from ≤ length line.now }
    requires ahead { IsAhead line.now from marks.now }
    ensures white { White line.now from result }
    ensures stops { Stops line.now result }
    ensures ahead { IsAhead line.now result marks.now }
{
    if !is_white_at(line, from) {
        return from;
    }
    first_mark(line, marks)
}

/// The first place at or after `from`, where a token may begin, that has no white space, or the length: the next mark.
#[inline(always)]
pub(super) fn next_token(line: &[u8], marks: &[u32], from: usize) -> usize
    requires within { from ≤ length line.now }
    requires begins { may_begin line.now from ≡ true }
    requires ahead { IsAhead line.now from marks.now }
    ensures white { White line.now from result }
    ensures stops { Stops line.now result }
    ensures ahead { IsAhead line.now result marks.now }
    ensures inside { 0 < length marks.now → result < length line.now }
    ensures next { IsNext line.now result marks.now }
{
    first_mark(line, marks)
}

/// The marks after the first `count`.
#[inline(always)]
pub(super) fn marks_behind(marks: &[u32], count: usize) -> &[u32]
    requires { count ≤ length marks.now }
    ensures { result.now ≡ drop count marks.now }
{
    &marks[count..]
}

/// The first place at or after `from` with no digit, or the length.
#[inline(always)]
pub(super) fn digits_end(line: &[u8], from: usize) -> usize
    requires { from ≤ length line.now }
    ensures order { from ≤ result }
    ensures within { result ≤ length line.now }
    ensures digits { (k : ℕ) → from ≤ k → k < result → is_digit (byte_at line.now k) ≡ true }
{
    jp_lanes::digits_end(line, from)
}

/// Whether a byte of a number is there.
pub(super) fn is_number_at(line: &[u8], at: usize) -> bool
    ensures { result ≡ in_number (byte_at line.now at) }
{
    at < line.len() && is_number_byte(line[at])
}

/// The first place at or after `from` with no byte of a number, or the length.
pub(super) fn number_bytes_end(line: &[u8], from: usize) -> usize
    requires { from ≤ length line.now }
    ensures order { from ≤ result }
    ensures within { result ≤ length line.now }
    ensures inside { (k : ℕ) → from ≤ k → k < result → in_number (byte_at line.now k) ≡ true }
    ensures ended { Ended line.now result }
{
    let mut at = from;
    while at < line.len() && is_number_byte(line[at]) {
        at += 1;
    }
    at
}

/// The end of the word, where it is at `from`.
#[inline(always)]
pub(super) fn word_end(line: &[u8], from: usize, word: &[u8]) -> Option<usize>
    requires { from ≤ length line.now }
    ensures found { IfSome result (λ to. Reads line.now from to word.now × (to ≡ from + length word.now)) }
    ensures none { IfNone result ((to : ℕ) → Reads line.now from to word.now → ⊥) }
{
    if line.len() - from < word.len() {
        return None;
    }
    let to = from + word.len();
    if &line[from..to] == word {
        Some(to)
    } else {
        None
    }
}

/// Whether this byte is at a place of the line.
#[inline(always)]
pub(super) fn is_byte(line: &[u8], at: usize, byte: u8) -> bool
    requires { at < length line.now }
    ensures yes { result ≡ true → Has line.now at byte }
    ensures no { result ≡ false → Has line.now at byte → ⊥ }
{
    line[at] == byte
}

/// Whether this byte is there.
#[inline(always)]
pub(super) fn is_at(line: &[u8], at: usize, byte: u8) -> bool
    ensures yes { result ≡ true → Has line.now at byte }
    ensures no { result ≡ false → Has line.now at byte → ⊥ }
{
    at < line.len() && line[at] == byte
}
