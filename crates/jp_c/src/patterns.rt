//! Patterns of a query or a condition that match nothing, since they are not valid.

ghost use Rattle.std.specs.Prelude.{◌≡◌, ◌++◌, None, drop, false, IfErr, IfOk, length, slice_get, take, true};
ghost use Rattle.jp_patterns.specs.Patterns.{texts_of};
ghost use Rattle.jp_c.specs.Faults.{Tells};
ghost use Rattle.jp_c.specs.Patterns.{IsToldBy, IsPatternAt};

use jp_patterns::{invalid_patterns, invalid_patterns_of};
use jp_query::{Refusal, read_condition, read_query};
use std::alloc::Global;

/// Puts a text into a room, as far as it has room.
fn put_text(text: &[u8], room: &mut [u8])
    ensures { room.new ≡ take (length room.old) text.now ++ drop (length text.now) room.old }
{
    let count = text.len().min(room.len());
    room[..count].copy_from_slice(&text[..count]);
}

/// Puts the pattern of a number into a room, as far as it has room, and its whole length into `length`; false where there is none.
fn put_pattern(patterns: &[&str], number: u64, length: &mut u64, room: &mut [u8]) -> bool
    ensures told { result ≡ true → IsPatternAt number (texts_of patterns.now) length.new room.old room.new }
    ensures absent { result ≡ false → slice_get (texts_of patterns.now) number ≡ None }
    ensures length { result ≡ false → length.new ≡ length.old }
    ensures room { result ≡ false → room.new ≡ room.old }
{
    let Some(pattern) = patterns.get(number as usize) else {
        return false;
    };
    *length = pattern.len() as u64;
    put_text(pattern.as_bytes(), room);
    true
}

/// Tells the literal pattern of a number, from 0, among those of a query, or of a condition where that is wanted, that are not valid;
/// false where there is none.
///
/// # Errors
///
/// The text is refused, or memory ran out.
pub(crate) fn tell_pattern(
    alloc: Global,
    text: &[u8],
    is_condition: bool,
    number: u64,
    length: &mut u64,
    room: &mut [u8],
) -> Result<bool, Refusal>
    ensures told { IfOk result (λ found. IsToldBy found is_condition text.now number length.old length.new room.old room.new) }
    ensures refused { IfErr result (λ refusal. Tells is_condition text.now refusal) }
    ensures length { IfErr result (λ _. length.new ≡ length.old) }
    ensures room { IfErr result (λ _. room.new ≡ room.old) }
{
    if is_condition {
        let condition = read_condition(alloc, text)?;
        let patterns = invalid_patterns_of(alloc, condition.expression())?;
        Ok(put_pattern(&patterns, number, length, room))
    } else {
        let query = read_query(alloc, text)?;
        let patterns = invalid_patterns(alloc, query.segments())?;
        Ok(put_pattern(&patterns, number, length, room))
    }
}
