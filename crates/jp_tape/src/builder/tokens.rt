//! The tokens of a line: strings, words and names.

ghost use Rattle.std.specs.Prelude.{◌≡◌, ℕ, ◌+◌, ◌-◌, ◌^◌, ◌<◌, ◌≤◌, true, false, length, drop, List, Some, None, IfSome, IfNone, IsTrue, IsUtf8};
ghost use Rattle.std.specs.List.{list_all};
ghost use Rattle.jp_model.specs.Json.Places.{Has, Reads, byte_at};
ghost use Rattle.jp_model.specs.Json.Strings.{SpellsBody, has_lone_surrogate};
ghost use Rattle.jp_model.specs.Json.Spelling.{SpellsString};
ghost use Rattle.jp_model.specs.Json.Tree.{array, object};
ghost use Rattle.jp_model.specs.Json.Marks.{may_begin};
ghost use Rattle.jp_tape.specs.Places.{Stops, IsUnescaped, IsUnquoted};
ghost use Rattle.jp_tape.specs.Ahead.{IsAhead, IsClosed, IsNext, IsPassed, first_or};
ghost use Rattle.jp_tape.specs.Reading.{IsReadable, FoundScalar, NoValue, FoundLabel, NoLabel, IsPlainLabel, Closes};
ghost use Rattle.jp_strings.specs.Plain.{ArePlain};

use super::scan::{is_byte, marks_behind, next_mark};
use jp_lanes::first_special;
use jp_model::Span;
use jp_nodes::Kind;
use jp_strings::{StringFault, test_utf8_within};

/// The end of a string, and whether a surrogate stands alone in it.
#[derive(Clone, Copy)]
pub(super) struct StringEnd {
    end: usize,
    is_lone: bool,
    /// Each byte between its quotes stands for itself.
    is_plain: bool,
}

/// A value that is neither an array nor an object.
#[derive(Clone, Copy)]
pub(super) struct Scalar {
    pub(super) kind: Kind,
    pub(super) end: usize,
    /// A surrogate stands alone in it.
    pub(super) is_lone: bool,
    /// Its exponent is too long.
    pub(super) is_long: bool,
}

/// The name of a member, and the place of its value.
#[derive(Clone, Copy)]
pub(super) struct Label {
    pub(super) name: Span,
    /// A surrogate stands alone in the name.
    pub(super) is_lone: bool,
    /// Each byte of the name stands for itself.
    pub(super) is_plain: bool,
    pub(super) value: usize,
}

/// The quote that closes the string at `from`: the mark after that of its opening quote.
#[inline(always)]
fn closing_quote(marks: &[u32]) -> usize
    requires two { 2 ≤ length marks.now }
    ensures { (line : List ℕ) (from : ℕ) → Has line from 0x22 → IsAhead line from marks.now → Closes line marks.now from result }
{
    marks[1] as usize
}

/// Whether each byte between the quotes at `from` and `last` stands for itself. Before the first escape of the line, at
/// `escape`, that is known.
#[inline(always)]
fn is_plain_between(line: &[u8], escape: usize, from: usize, last: usize) -> bool
    requires order { from < last }
    requires within { last < length line.now }
    requires unescaped { IsUnescaped line.now escape }
    requires first { IsUnquoted line.now (from + 1) last }
    ensures { result ≡ true → ArePlain line.now (from + 1) last }
{
    last <= escape || first_special(line, from + 1) == last
}

/// Whether a surrogate stands alone in the string from `from` to `last`, where it is one. Few strings come here.
#[inline(never)]
fn is_lone_within(line: &[u8], from: usize, last: usize) -> Option<bool>
    requires order { from < last }
    requires opens { Has line.now from 0x22 }
    requires closes { Has line.now last 0x22 }
    requires utf8 { IsUtf8 line.now }
    ensures found { IfSome result (λ is_lone. (points : List ℕ) × SpellsString line.now from (last + 1) points × (has_lone_surrogate points ≡ is_lone)) }
    ensures none { IfNone result ((points : List ℕ) → SpellsBody line.now (from + 1) last points → ⊥) }
{
    match test_utf8_within(line, from + 1, last) {
        Ok(()) => Some(false),
        Err(StringFault::Surrogate) => Some(true),
        Err(StringFault::Shape) => None,
    }
}

/// The end of the string at `from`. A body without special bytes stands for itself.
#[inline(always)]
fn string_end(line: &[u8], escape: usize, marks: &[u32], from: usize) -> Option<StringEnd>
    requires line { IsReadable line.now escape }
    requires opens { Has line.now from 0x22 }
    requires ahead { IsAhead line.now from marks.now }
    requires two { 2 ≤ length marks.now }
    ensures within { IfSome result (λ r. (from + 1 < r.end) × (r.end ≤ length line.now)) }
    ensures found { IfSome result (λ r. (points : List ℕ) × SpellsString line.now from r.end points × (has_lone_surrogate points ≡ r.is_lone)) }
    ensures plain { IfSome result (λ r. r.is_plain ≡ true → ArePlain line.now (from + 1) (r.end - 1)) }
    ensures ahead { IfSome result (λ r. IsPassed line.now marks.now 2 r.end) }
    ensures begins { IfSome result (λ r. may_begin line.now r.end ≡ true) }
    ensures more { IfSome result (λ r. IsClosed line.now marks.now → 2 < length marks.now) }
    ensures none { IfNone result ((to : ℕ) (points : List ℕ) → SpellsString line.now from to points → ⊥) }
{
    let last = closing_quote(marks);
    if is_plain_between(line, escape, from, last) {
        return Some(StringEnd {
            end: last + 1,
            is_lone: false,
            is_plain: true,
        });
    }
    match is_lone_within(line, from, last) {
        Some(is_lone) => Some(StringEnd {
            end: last + 1,
            is_lone,
            is_plain: false,
        }),
        None => None,
    }
}

/// The name at `from` and its colon, where a token follows them: its quotes, the colon and the token are the next marks.
#[inline(always)]
pub(super) fn name_at(line: &[u8], escape: usize, marks: &[u32], from: usize) -> Option<Label>
    requires line { IsReadable line.now escape }
    requires inside { from < length line.now }
    requires ahead { IsNext line.now from marks.now }
    requires some { 0 < length marks.now }
    requires closed { IsClosed line.now marks.now }
    ensures within { IfSome result (λ r. (from ≤ r.value) × (r.value < length line.now)) }
    ensures marks { IfSome result (λ r. 3 < length marks.now) }
    ensures stops { IfSome result (λ r. Stops line.now r.value) }
    ensures ahead { IfSome result (λ r. IsPassed line.now marks.now 3 r.value) }
    ensures first { IfSome result (λ r. r.value ≡ first_or (drop 3 marks.now) (length line.now)) }
    ensures plain { IfSome result (λ r. IsPlainLabel line.now r) }
    ensures found { IfSome result (λ r. FoundLabel line.now from r) }
    ensures none { IfNone result (NoLabel line.now object from) }
{
    if !is_byte(line, from, b'"') {
        return None;
    }
    let Some(name) = string_end(line, escape, marks, from) else {
        return None;
    };
    let colon = next_mark(marks_behind(marks, 2));
    if line[colon] != b':' {
        return None;
    }
    let body = Span {
        start: (from + 1) as u32,
        end: (name.end - 1) as u32,
    };
    Some(Label {
        name: body,
        is_lone: name.is_lone,
        is_plain: name.is_plain,
        value: next_mark(marks_behind(marks, 3)),
    })
}

/// The string at `from`, as a value.
#[inline(always)]
pub(super) fn text_at(line: &[u8], escape: usize, marks: &[u32], from: usize) -> Option<Scalar>
    requires line { IsReadable line.now escape }
    requires opens { Has line.now from 0x22 }
    requires ahead { IsAhead line.now from marks.now }
    requires two { 2 ≤ length marks.now }
    ensures within { IfSome result (λ r. (from < r.end) × (r.end ≤ length line.now)) }
    ensures ahead { IfSome result (λ r. IsPassed line.now marks.now 2 r.end) }
    ensures more { IfSome result (λ r. IsClosed line.now marks.now → 2 < length marks.now) }
    ensures begins { IfSome result (λ r. may_begin line.now r.end ≡ true) }
    ensures found { IfSome result (λ r. FoundScalar line.now from r) }
    ensures none { IfNone result (NoValue line.now from) }
{
    let Some(string) = string_end(line, escape, marks, from) else {
        return None;
    };
    Some(Scalar {
        kind: Kind::Text,
        end: string.end,
        is_lone: string.is_lone,
        is_long: false,
    })
}
