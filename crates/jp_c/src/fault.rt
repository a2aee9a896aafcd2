//! Where a query or a condition goes wrong.

ghost use Rattle.std.specs.Prelude.{◌≡◌, ◌≤◌, length, drop, IfOk, MatchOption};
ghost use Rattle.jp_model.specs.declared.QueryFault.TheVariants.{Syntax};
ghost use Rattle.jp_query.specs.Places.{IsPlace};
ghost use Rattle.jp_c.specs.Faults.{IsRefusedBy, IsTextRead, Tells, number_of as number_at};

use jp_model::QueryFault;
use jp_query::{FaultPlace, Refusal, read_condition, read_query};
use std::alloc::{AllocError, Global};

/// The number of a fault.
pub(crate) fn number_of(fault: QueryFault) -> u32
    ensures { result ≡ number_at fault }
{
    match fault {
        QueryFault::Size => 1,
        QueryFault::Syntax => 2,
        QueryFault::Integer => 3,
        QueryFault::Number => 4,
        QueryFault::Function => 5,
        QueryFault::Types => 6,
    }
}

/// Why a text is not read as a query, or as a condition where that is wanted; None where it is read.
fn refusal_of(alloc: Global, text: &[u8], is_condition: bool) -> Option<Refusal>
    ensures { MatchOption result (IsTextRead is_condition text.now) (λ refusal. Tells is_condition text.now refusal) }
{
    if is_condition {
        match read_condition(alloc, text) {
            Ok(_) => None,
            Err(refusal) => Some(refusal),
        }
    } else {
        match read_query(alloc, text) {
            Ok(_) => None,
            Err(refusal) => Some(refusal),
        }
    }
}

/// The first fault of a text as a query, or as a condition where that is wanted, and its place; None where it has none.
///
/// # Errors
///
/// Memory ran out.
pub(crate) fn fault_of(
    alloc: Global,
    text: &[u8],
    is_condition: bool,
) -> Result<Option<FaultPlace>, AllocError>
    ensures { IfOk result (λ found. MatchOption found (IsTextRead is_condition text.now) (λ found. IsRefusedBy is_condition text.now found.fault × IsPlace text.now found.place)) }
{
    match refusal_of(alloc, text, is_condition) {
        None => Ok(None),
        Some(Refusal::Fault(found)) => Ok(Some(found)),
        Some(Refusal::Memory) => Err(AllocError),
    }
}

/// Puts what the grammar has at the place of a fault of the syntax into a room, in words, and answers how many bytes they are there.
pub(crate) fn put_words(found: &FaultPlace, room: &mut [u8]) -> usize
    ensures within { result ≤ length room.old }
    ensures others { drop result room.new ≡ drop result room.old }
    ensures syntax { (found.now.fault ≡ Syntax → ⊥) → result ≡ 0 }
{
    let (QueryFault::Syntax, Some(expected)) = (found.fault, found.expected) else {
        return 0;
    };
    let words = expected.words().as_bytes();
    let count = words.len().min(room.len());
    room[..count].copy_from_slice(&words[..count]);
    count
}
