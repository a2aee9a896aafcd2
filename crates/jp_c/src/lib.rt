//! jpq for C: a handle that has a collection, the scripts that are run over it, and what they answer. The calls and their
//! statuses are described in `c/jpq.h`.
//!
//! Public calls:
//!
//! - `jpq_open`, `jpq_close`: a collection is loaded into a handle, and freed
//! - `jpq_ask`: a script is run over it
//! - `jpq_left`, `jpq_read`: how much of the answer is left, and its next bytes
//! - `jpq_run`: a collection is loaded and a script run over it, in one call
//! - `jpq_filter`: the rows of the lines of a text that answer a condition and queries
//! - `jpq_survey`: what is in the lines of a text for which a condition holds
//! - `jpq_values`: the values of a text that is not JSON Lines, one on each line
//! - `jpq_line`, `jpq_marks`: a line of the collection; where the nodes that a query selects stand in it
//! - `jpq_fault`: where a query or a condition goes wrong
//! - `jpq_pattern`: the patterns of a query or a condition that match nothing, since they are not valid
#![tactic(auto)]

ghost use Rattle.std.specs.Prelude.{◌≡◌, ◌≢◌, ◌<◌, ◌≤◌, ◌⊎◌, [], false, true, length, Option, None, Some, IfSome};
ghost use Rattle.jp_model.specs.Lines.{is_framed};
ghost use Rattle.jp_c.specs.Asked.{IsFilteredBy, IsForeign, IsRefusedCondition, IsRefusedFor, rows_of};
ghost use Rattle.jp_c.specs.Calls.{IsStatusOfAsk, IsStatusOfFilter, IsStatusOfLine, IsStatusOfMarks, IsStatusOfOpen, IsStatusOfRun, IsStatusOfSurvey, IsStatusOfValues, framing_of as framing_at, setup_of};
ghost use Rattle.jp_c.specs.Faults.{IsRefusedBySome, IsStatusOfFault, IsTextRead, TellsFault};
ghost use Rattle.jp_c.specs.Lines.{AreMarkedIn, IsRefusedText, KeepsLines, line_of};
ghost use Rattle.jp_c.specs.Patterns.{HasNoPattern, IsStatusOfPattern, TellsPattern};
ghost use Rattle.jp_c.specs.Sessions.{HasAnswered, HasAnsweredFirst, IsOpened, IsRead, IsRun, IsRunInPart, KeepsCollection, left_of};
ghost use Rattle.jp_c.specs.Surveyed.{IsSurveyed};
ghost use Rattle.jp_c.specs.Values.{AreValues, units_of};

mod answers;
mod fault;
mod filter;
mod handle;
mod lines;
mod parts;
mod patterns;
mod question;
mod searching;
mod session;
mod survey;
mod values;

use fault::{fault_of, number_of, put_words};
use handle::Jpq;
use jp_lines::is_framed_text;
use jp_model::{Framing, Watched};
use jp_query::Refusal;
use jp_store::Store;
use lines::ShowFault;
use patterns::tell_pattern;
use question::FilterFault;
use session::Session;
use std::alloc::Global;

/// The work is done.
const DONE: u32 = 0;

/// The handle is not open.
const SHUT: u32 = 1;

/// The number of the framing, of what is to be shown, or of the units is not one of those listed.
const NUMBER: u32 = 2;

/// The condition or a query is refused.
const QUESTION: u32 = 3;

/// There is no line of this number.
const LINE: u32 = 4;

/// The text begins with the mark of another format.
const FORMAT: u32 = 5;

/// There is no pattern of this number.
const NONE: u32 = 6;

/// The collection has more bytes than it may have.
const SIZE: u32 = 12;

/// Bytes other than white space come before the first separator of a sequence.
const FRAMING: u32 = 13;

/// The script has more than 4,294,967,295 bytes.
const SCRIPT: u32 = 14;

/// A growth was refused.
const MEMORY: u32 = 16;

/// The framing of a number.
fn framing_of(number: u32) -> Option<Framing>
    ensures { result ≡ framing_at number }
{
    match number {
        0 => Some(Framing::Lines),
        1 => Some(Framing::Sequence),
        _ => None,
    }
}

/// Loads a collection of at most `most` bytes into the handle. What it had is freed.
///
/// The framing is 0 for lines and 1 for a text sequence (RFC 7464), and else the status is 2. It is 12 where the collection has
/// more bytes, 13 where bytes other than white space come before the first separator of a sequence, and 16 where it is neither
/// and a growth was refused; at each of these the handle is not open. Bytes in memory are read, and no read of them fails.
#[unsafe(no_mangle)]
pub extern "C" fn jpq_open(
    alloc: Global,
    collection: &[u8],
    framing: u32,
    most: u32,
    handle: &mut Jpq,
) -> u32
    ensures listed { IsStatusOfOpen result }
    ensures number { framing_at framing ≡ None → result ≡ 2 }
    ensures no_number { result ≡ 2 → framing_at framing ≡ None }
    ensures size { IfSome (framing_at framing) (λ framing. most < length collection.now → result ≡ 12) }
    ensures too_long { result ≡ 12 → most < length collection.now }
    ensures framing { IfSome (framing_at framing) (λ framing. length collection.now ≤ most → is_framed framing collection.now ≡ false → result ≡ 13) }
    ensures unframed { IfSome (framing_at framing) (λ framing. result ≡ 13 → (length collection.now ≤ most) × (is_framed framing collection.now ≡ false)) }
    ensures opened { IfSome (framing_at framing) (λ framing. result ≡ 0 → IsOpened (setup_of framing most) collection.now handle.new.session) }
    ensures stopped { 0 < result → handle.new.session ≡ None }
{
    drop(handle.take(alloc));
    let Some(framing) = framing_of(framing) else {
        return NUMBER;
    };
    if collection.len() > most as usize {
        return SIZE;
    }
    if !is_framed_text(framing, collection) {
        return FRAMING;
    }
    let mut collection = Watched::new(collection);
    let store = match Store::load(alloc, framing, most, &mut collection) {
        Ok(store) => store,
        Err(_) => return MEMORY,
    };
    match Box::new(alloc, Session::new(alloc, store)) {
        Ok(session) => {
            handle.put(session, alloc);
            DONE
        }
        Err(_) => MEMORY,
    }
}

/// Runs the commands of a script over the collection, and keeps what they answer. What was left of the answer before is
/// dropped.
///
/// The status is 1 where the handle is not open, 14 where the script has more than 4,294,967,295 bytes, of which none is run
/// then and nothing changes, and 16 where a growth was refused while a command line was held, or for the answer. Then some
/// first commands were run, what they changed stays, and a beginning of their answers is left to be read.
#[unsafe(no_mangle)]
pub extern "C" fn jpq_ask(alloc: Global, handle: &mut Jpq, script: &[u8]) -> u32
    ensures listed { IsStatusOfAsk result }
    ensures shut { handle.old.session ≡ None → (result ≡ 1) × (handle.new.session ≡ None) }
    ensures is_shut { result ≡ 1 → handle.old.session ≡ None }
    ensures size { handle.old.session ≢ None → 4294967295 < length script.now → result ≡ 14 }
    ensures long { result ≡ 14 → (4294967295 < length script.now) × (handle.new.session ≡ handle.old.session) }
    ensures done { result ≡ 0 → HasAnswered handle.old.session handle.new.session script.now }
    ensures stopped { 1 < result → result ≢ 14 → HasAnsweredFirst handle.old.session handle.new.session script.now }
{
    let Some(mut session) = handle.take(alloc) else {
        return SHUT;
    };
    if script.len() > u32::MAX as usize {
        handle.put(session, alloc);
        return SCRIPT;
    }
    let ended = session.ask(alloc, script);
    handle.put(session, alloc);
    match ended {
        Ok(()) => DONE,
        Err(_) => MEMORY,
    }
}

/// How many bytes of the answer were not read; 0 where the handle is not open.
#[unsafe(no_mangle)]
pub extern "C" fn jpq_left(alloc: Global, handle: &mut Jpq) -> usize
    ensures value { result ≡ length (left_of handle.old.session) }
    ensures same { handle.new.session ≡ handle.old.session }
{
    let Some(session) = handle.take(alloc) else {
        return 0;
    };
    let left = session.left();
    handle.put(session, alloc);
    left
}

/// Copies the bytes of the answer that come next into the room, as many as both have, and answers how many.
#[unsafe(no_mangle)]
pub extern "C" fn jpq_read(alloc: Global, handle: &mut Jpq, room: &mut [u8]) -> usize
    ensures { IsRead result handle.old.session handle.new.session room.old room.new }
{
    let Some(mut session) = handle.take(alloc) else {
        return 0;
    };
    let count = session.read(room);
    handle.put(session, alloc);
    count
}

/// The number of the first fault of a text as a query, or as a condition where that is wanted, and 0 where it has none.
///
/// The faults are 1 for the size, 2 for the syntax, 3 for an integer, 4 for a number, 5 for a function and 6 for types. `place` is
/// where it is, in bytes from 0; and at a fault of the syntax the first `words` bytes of the room say what the grammar has there,
/// as many as it has room for. The status is 16 where a growth was refused; at 0 and 16 all three stay as they were.
#[unsafe(no_mangle)]
pub extern "C" fn jpq_fault(
    alloc: Global,
    text: &[u8],
    is_condition: bool,
    place: &mut u64,
    words: &mut u64,
    room: &mut [u8],
) -> u32
    ensures listed { IsStatusOfFault result }
    ensures read { result ≡ 0 → IsTextRead is_condition text.now }
    ensures only { IsTextRead is_condition text.now → (result ≡ 0) ⊎ (result ≡ 16) }
    ensures refused { 0 < result → result < 16 → TellsFault is_condition text.now result place.new words.new room.old room.new }
    ensures same { (result ≡ 0) ⊎ (result ≡ 16) → (place.new ≡ place.old) × (words.new ≡ words.old) × (room.new ≡ room.old) }
{
    match fault_of(alloc, text, is_condition) {
        Ok(None) => DONE,
        Ok(Some(found)) => {
            *place = found.place as u64;
            *words = put_words(&found, room) as u64;
            number_of(found.fault)
        }
        Err(_) => MEMORY,
    }
}

/// The literal pattern of `match` and `search` of a number, from 0, among those of a query, or of a condition where that is wanted,
/// that are not valid I-Regexps (RFC 9485), and so match nothing (RFC 9535, sections 2.4.6 and 2.4.7). They count in the order in which
/// they stand in the text. Its UTF-8 goes into the room, as far as that has room, and its whole length into `length`.
///
/// The status is 3 where the text is refused, 6 where there is no pattern of this number, and 16 where a growth was refused. Then
/// both stay as they were.
#[unsafe(no_mangle)]
pub extern "C" fn jpq_pattern(
    alloc: Global,
    text: &[u8],
    is_condition: bool,
    number: u64,
    length: &mut u64,
    room: &mut [u8],
) -> u32
    ensures listed { IsStatusOfPattern result }
    ensures told { result ≡ 0 → TellsPattern is_condition text.now number length.new room.old room.new }
    ensures absent { result ≡ 6 → HasNoPattern is_condition text.now number }
    ensures refused { result ≡ 3 → IsRefusedBySome is_condition text.now }
    ensures same { 0 < result → (length.new ≡ length.old) × (room.new ≡ room.old) }
{
    match tell_pattern(alloc, text, is_condition, number, length, room) {
        Ok(true) => DONE,
        Ok(false) => NONE,
        Err(Refusal::Fault(_)) => QUESTION,
        Err(Refusal::Memory) => MEMORY,
    }
}

/// Searches the lines of a text (JSON Lines) by a condition, unless it is empty, and by queries, one on each line that is not
/// empty, and keeps the rows to be read. Without a query it is `$`. The collection stays as it is.
///
/// What is shown of the lines that match: 0 nothing, 1 the line, 2 paths and values, 3 a row of CSV, 4 a row of TSV, 5 the line in
/// canonical form, 6 paths and values in it, 7 values in it, 8 values as they are spelled, 9 values with strings as text. At 3 and 4
/// each query is a column, and singular; else a line matches only where a query selects a node of it. `numbered` puts the number
/// of the line, from 1, in front of each row.
///
/// The status is 1 where the handle is not open, 2 where `shown` is none of these, 3 where the condition or a query is refused, 5
/// where the text begins with the mark of another format, and 16 where a growth was refused. Then nothing is left to be read.
#[unsafe(no_mangle)]
pub extern "C" fn jpq_filter(
    alloc: Global,
    handle: &mut Jpq,
    text: &[u8],
    condition: &[u8],
    queries: &[u8],
    shown: u32,
    numbered: bool,
) -> u32
    ensures listed { IsStatusOfFilter result }
    ensures shut { handle.old.session ≡ None → result ≡ 1 }
    ensures is_shut { result ≡ 1 → handle.old.session ≡ None }
    ensures number { handle.old.session ≢ None → rows_of shown ≡ None → result ≡ 2 }
    ensures no_number { result ≡ 2 → rows_of shown ≡ None }
    ensures found { result ≡ 0 → IsFilteredBy text.now condition.now queries.now (rows_of shown) numbered (left_of handle.new.session) }
    ensures refused { result ≡ 3 → IsRefusedFor condition.now queries.now (rows_of shown) }
    ensures foreign { result ≡ 5 → IsForeign text.now }
    ensures nothing { 0 < result → left_of handle.new.session ≡ [] }
    ensures collection { KeepsCollection handle.old.session handle.new.session }
{
    let Some(mut session) = handle.take(alloc) else {
        return SHUT;
    };
    let found = session.filter(alloc, text, condition, queries, shown, numbered);
    handle.put(session, alloc);
    match found {
        Ok(()) => DONE,
        Err(FilterFault::Number) => NUMBER,
        Err(FilterFault::Question) => QUESTION,
        Err(FilterFault::Format) => FORMAT,
        Err(FilterFault::Memory) => MEMORY,
    }
}

/// Surveys the lines of a text (JSON Lines) for which a condition holds, or all that have a value where it is empty: keeps a row to
/// be read for each path of the values of these lines and each kind of value there, with in how many of the lines there is one, how
/// many there are, the path, and the kind, with tabs between them. The collection stays as it is.
///
/// An object with more than `fold` names at its path is folded: its members have the step `[**]` together, and a hyphen stands in
/// place of how many lines.
///
/// The status is 1 where the handle is not open, 3 where the condition is refused, 5 where the text begins with the mark of another
/// format, and 16 where a growth was refused. Then nothing is left to be read.
#[unsafe(no_mangle)]
pub extern "C" fn jpq_survey(
    alloc: Global,
    handle: &mut Jpq,
    text: &[u8],
    condition: &[u8],
    fold: u64,
) -> u32
    ensures listed { IsStatusOfSurvey result }
    ensures shut { handle.old.session ≡ None → result ≡ 1 }
    ensures is_shut { result ≡ 1 → handle.old.session ≡ None }
    ensures found { result ≡ 0 → IsSurveyed text.now condition.now fold (left_of handle.new.session) }
    ensures refused { result ≡ 3 → IsRefusedCondition condition.now }
    ensures foreign { result ≡ 5 → IsForeign text.now }
    ensures nothing { 0 < result → left_of handle.new.session ≡ [] }
    ensures collection { KeepsCollection handle.old.session handle.new.session }
{
    let Some(mut session) = handle.take(alloc) else {
        return SHUT;
    };
    let found = session.survey(alloc, text, condition, fold);
    handle.put(session, alloc);
    match found {
        Ok(()) => DONE,
        Err(FilterFault::Question) => QUESTION,
        Err(FilterFault::Format) => FORMAT,
        Err(_) => MEMORY,
    }
}

/// Keeps the values of a text to be read, one on each line: of its lines (0), of the JSON texts in it, one after another (1), or of
/// the elements of those that are arrays (2). What is refused is left out, and `refused` is how many are. The collection stays as
/// it is.
///
/// The status is 1 where the handle is not open, 2 where `units` is none of these, 5 where the text begins with the mark of another
/// format, and 16 where a growth was refused. Then nothing is left to be read, and `refused` stays as it was.
#[unsafe(no_mangle)]
pub extern "C" fn jpq_values(
    alloc: Global,
    handle: &mut Jpq,
    text: &[u8],
    units: u32,
    refused: &mut u64,
) -> u32
    ensures listed { IsStatusOfValues result }
    ensures shut { handle.old.session ≡ None → result ≡ 1 }
    ensures is_shut { result ≡ 1 → handle.old.session ≡ None }
    ensures number { handle.old.session ≢ None → units_of units ≡ None → result ≡ 2 }
    ensures no_number { result ≡ 2 → units_of units ≡ None }
    ensures found { result ≡ 0 → AreValues text.now (units_of units) (left_of handle.new.session) refused.new }
    ensures foreign { result ≡ 5 → IsForeign text.now }
    ensures nothing { 0 < result → left_of handle.new.session ≡ [] }
    ensures same { 0 < result → refused.new ≡ refused.old }
    ensures collection { KeepsCollection handle.old.session handle.new.session }
{
    let Some(mut session) = handle.take(alloc) else {
        return SHUT;
    };
    let found = session.values(alloc, text, units);
    handle.put(session, alloc);
    match found {
        Ok(count) => {
            *refused = count;
            DONE
        }
        Err(FilterFault::Number) => NUMBER,
        Err(FilterFault::Format) => FORMAT,
        Err(_) => MEMORY,
    }
}

/// Keeps the bytes of a line of the collection to be read. Lines count from 1.
///
/// The status is 1 where the handle is not open, 4 where there is no line of this number, and 16 where a growth was refused. Then
/// nothing is left to be read.
#[unsafe(no_mangle)]
pub extern "C" fn jpq_line(alloc: Global, handle: &mut Jpq, number: u64) -> u32
    ensures listed { IsStatusOfLine result }
    ensures shut { handle.old.session ≡ None → result ≡ 1 }
    ensures is_shut { result ≡ 1 → handle.old.session ≡ None }
    ensures line { result ≡ 0 → line_of number handle.old.session ≡ Some (left_of handle.new.session) }
    ensures absent { handle.old.session ≢ None → line_of number handle.old.session ≡ None → result ≡ 4 }
    ensures is_absent { result ≡ 4 → line_of number handle.old.session ≡ None }
    ensures nothing { 0 < result → left_of handle.new.session ≡ [] }
    ensures collection { KeepsCollection handle.old.session handle.new.session }
{
    let Some(mut session) = handle.take(alloc) else {
        return SHUT;
    };
    let shown = session.show_line(alloc, number);
    handle.put(session, alloc);
    match shown {
        Ok(()) => DONE,
        Err(ShowFault::Line) => LINE,
        Err(_) => MEMORY,
    }
}

/// Keeps a row for each node that a query selects in a line of the collection, in its order: the byte of the line at which the
/// node's text begins and the one after its end, from 0, and its normalized path, with tabs between them. Lines count from 1,
/// and a blank or a refused line has no rows.
///
/// The status is 1 where the handle is not open, 3 where the query is refused, 4 where there is no line of this number, and 16
/// where a growth was refused. Then nothing is left to be read.
#[unsafe(no_mangle)]
pub extern "C" fn jpq_marks(alloc: Global, handle: &mut Jpq, number: u64, query: &[u8]) -> u32
    ensures listed { IsStatusOfMarks result }
    ensures shut { handle.old.session ≡ None → result ≡ 1 }
    ensures is_shut { result ≡ 1 → handle.old.session ≡ None }
    ensures marks { result ≡ 0 → AreMarkedIn query.now number handle.old.session (left_of handle.new.session) }
    ensures refused { result ≡ 3 → IsRefusedText query.now }
    ensures absent { result ≡ 4 → line_of number handle.old.session ≡ None }
    ensures nothing { 0 < result → left_of handle.new.session ≡ [] }
    ensures lines { KeepsLines handle.old.session handle.new.session }
{
    let Some(mut session) = handle.take(alloc) else {
        return SHUT;
    };
    let shown = session.show_marks(alloc, number, query);
    handle.put(session, alloc);
    match shown {
        Ok(()) => DONE,
        Err(ShowFault::Query) => QUESTION,
        Err(ShowFault::Line) => LINE,
        Err(ShowFault::Memory) => MEMORY,
    }
}

/// Frees what the handle has. A second call does nothing.
#[unsafe(no_mangle)]
pub extern "C" fn jpq_close(alloc: Global, handle: &mut Jpq)
    ensures { handle.new.session ≡ None }
{
    drop(handle.take(alloc));
}

/// `jpq_open`, and then `jpq_ask`, in one call: the program's whole run. The status is that of the first that is not 0.
///
/// At 2, 12 and 13 the handle is not open; at 14 it has the collection, and no answer; at 16 it is not open, or some first
/// commands were run, what they changed stays, and a beginning of their answers is left to be read.
#[unsafe(no_mangle)]
pub extern "C" fn jpq_run(
    alloc: Global,
    collection: &[u8],
    framing: u32,
    most: u32,
    script: &[u8],
    handle: &mut Jpq,
) -> u32
    ensures listed { IsStatusOfRun result }
    ensures number { framing_at framing ≡ None → result ≡ 2 }
    ensures no_number { result ≡ 2 → framing_at framing ≡ None }
    ensures size { IfSome (framing_at framing) (λ framing. most < length collection.now → result ≡ 12) }
    ensures too_long { result ≡ 12 → most < length collection.now }
    ensures framing { IfSome (framing_at framing) (λ framing. length collection.now ≤ most → is_framed framing collection.now ≡ false → result ≡ 13) }
    ensures unframed { IfSome (framing_at framing) (λ framing. result ≡ 13 → (length collection.now ≤ most) × (is_framed framing collection.now ≡ false)) }
    ensures shut { (result ≡ 2) ⊎ (result ≡ 12) ⊎ (result ≡ 13) → handle.new.session ≡ None }
    ensures long { IfSome (framing_at framing) (λ framing. result ≡ 14 → (4294967295 < length script.now) × IsOpened (setup_of framing most) collection.now handle.new.session) }
    ensures done { IfSome (framing_at framing) (λ framing. result ≡ 0 → IsRun (setup_of framing most) collection.now script.now handle.new.session) }
    ensures stopped { IfSome (framing_at framing) (λ framing. result ≡ 16 → IsRunInPart (setup_of framing most) collection.now script.now handle.new.session) }
{
    let status = jpq_open(alloc, collection, framing, most, handle);
    if status != DONE {
        return status;
    }
    jpq_ask(alloc, handle, script)
}
