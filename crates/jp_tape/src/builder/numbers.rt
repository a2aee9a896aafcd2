//! Numbers: where one ends.

ghost use Rattle.std.specs.Prelude.{◌≡◌, ℕ, ◌+◌, ◌-◌, ◌^◌, ◌<◌, ◌≤◌, Bool, true, false, length, List, Some, None, IfSome, IfNone, ℤ};
ghost use Rattle.jp_model.specs.Characters.{is_digit};
ghost use Rattle.jp_model.specs.Json.Places.{Reads, byte_at, bytes_between};
ghost use Rattle.jp_model.specs.Json.Numbers.{AreDigits, IsInt, SpellsNumber, minus_bytes, fraction_bytes, numeral_of, is_long_exponent};
ghost use Rattle.jp_lanes.specs.First.{IsFirst, is_other};
ghost use Rattle.jp_tape.specs.Places.{Ended};
ghost use Rattle.jp_tape.specs.Parts.{HasParts};
ghost use Rattle.jp_tape.specs.Ahead.{IsSolid};

use super::scan::{digits_end, is_at, is_number_at, is_number_byte, number_bytes_end};
use jp_decimal::{Decimal, NumberFault};
use jp_lanes::digits_ends;

/// The end of a number, and whether its exponent is too long.
#[derive(Clone, Copy)]
pub(super) struct NumberEnd {
    pub(super) end: usize,
    pub(super) is_long: bool,
}

/// The place after a minus sign at `from`, or `from` if there is none.
#[inline(always)]
fn behind_minus(line: &[u8], from: usize) -> usize
    requires inside { from < length line.now }
    ensures { (negative : Bool) × Reads line.now from result (minus_bytes negative) }
{
    if line[from] == b'-' { from + 1 } else { from }
}

/// Whether the digits from `from` up to `end` are an int: some, and no zero in front of others.
#[inline(always)]
fn is_int(line: &[u8], from: usize, end: usize) -> bool
    requires order { from ≤ end }
    requires within { end ≤ length line.now }
    requires digits { (k : ℕ) → from ≤ k → k < end → is_digit (byte_at line.now k) ≡ true }
    ensures some { result ≡ true → from < end }
    ensures int { result ≡ true → (digits : List ℕ) × IsInt digits × Reads line.now from end digits }
{
    if end == from {
        return false;
    }
    if line[from] == b'0' {
        return end == from + 1;
    }
    true
}

/// The end of the int at `from`, which has no sign.
#[inline(always)]
fn int_end(line: &[u8], from: usize) -> Option<usize>
    requires within { from ≤ length line.now }
    ensures some { IfSome result (λ to. from < to) }
    ensures found { IfSome result (λ to. (digits : List ℕ) × IsInt digits × Reads line.now from to digits) }
{
    let end = digits_end(line, from);
    if is_int(line, from, end) {
        Some(end)
    } else {
        None
    }
}

/// The end of the fraction part at `from`, or `from` if there is no point.
#[inline(always)]
fn fraction_end(line: &[u8], from: usize) -> Option<usize>
    requires within { from ≤ length line.now }
    ensures { IfSome result (λ to. (digits : List ℕ) × AreDigits digits × Reads line.now from to (fraction_bytes digits)) }
{
    if !is_at(line, from, b'.') {
        return Some(from);
    }
    let end = digits_end(line, from + 1);
    if end == from + 1 {
        return None;
    }
    Some(end)
}

/// The place, unless a byte of a number is there.
#[inline(always)]
fn ended_at(line: &[u8], at: usize) -> Option<usize>
    requires { at < length line.now }
    ensures { IfSome result (λ to. (to ≡ at) × Ended line.now at) }
{
    if is_number_byte(line[at]) {
        None
    } else {
        Some(at)
    }
}

/// The end of the number whose int is at `from`, by the first two places without a digit, where it has no exponent, and no byte
/// of a number follows it.
#[inline(always)]
fn parts_end_by(line: &[u8], from: usize, point: usize, next: usize) -> Option<usize>
    requires first { IsFirst is_other line.now from point }
    requires second { IsFirst is_other line.now (point + 1) next }
    requires inside { next < length line.now }
    ensures { IfSome result (λ to. HasParts line.now from to) }
{
    if !is_int(line, from, point) {
        return None;
    }
    if line[point] != b'.' {
        return ended_at(line, point);
    }
    if next == point + 1 {
        return None;
    }
    ended_at(line, next)
}

/// The end of the number whose int is at `from`, part by part.
#[inline(always)]
fn parts_end_plainly(line: &[u8], from: usize) -> Option<usize>
    requires { from ≤ length line.now }
    ensures { IfSome result (λ to. HasParts line.now from to) }
{
    let Some(point) = int_end(line, from) else {
        return None;
    };
    let Some(end) = fraction_end(line, point) else {
        return None;
    };
    if is_number_at(line, end) {
        return None;
    }
    Some(end)
}

/// The end of the number at `from`, where it has no exponent, and no byte of a number follows it. Few numbers have more bytes
/// than are looked at together.
#[inline(always)]
pub(super) fn plain_number_end(line: &[u8], from: usize) -> Option<usize>
    requires inside { from < length line.now }
    ensures within { IfSome result (λ to. (from < to) × (to ≤ length line.now)) }
    ensures solid { IfSome result (λ to. IsSolid line.now from to) }
    ensures found { IfSome result (λ to. (m e : ℤ) × SpellsNumber line.now from to m e × Ended line.now to × (is_long_exponent (numeral_of (bytes_between line.now from to)) ≡ false)) }
{
    let start = behind_minus(line, from);
    match digits_ends(line, start) {
        Some((point, next)) => parts_end_by(line, start, point, next),
        None => parts_end_plainly(line, start),
    }
}

/// The end of the number at `from`, however it is spelled, where no byte of a number follows it.
#[inline(never)]
pub(super) fn any_number_end(line: &[u8], from: usize) -> Option<NumberEnd>
    requires inside { from < length line.now }
    requires room { length line.now < 2 ^ 32 }
    ensures within { IfSome result (λ r. (from < r.end) × (r.end ≤ length line.now)) }
    ensures solid { IfSome result (λ r. IsSolid line.now from r.end) }
    ensures found { IfSome result (λ r. (m e : ℤ) × SpellsNumber line.now from r.end m e × Ended line.now r.end × (is_long_exponent (numeral_of (bytes_between line.now from r.end)) ≡ r.is_long)) }
    ensures none { IfNone result ((to : ℕ) (m e : ℤ) → SpellsNumber line.now from to m e → Ended line.now to → ⊥) }
{
    let end = number_bytes_end(line, from);
    match Decimal::read(&line[from..end]) {
        Ok(_) => Some(NumberEnd {
            end,
            is_long: false,
        }),
        Err(NumberFault::Exponent) => Some(NumberEnd { end, is_long: true }),
        Err(NumberFault::Shape) => None,
    }
}
