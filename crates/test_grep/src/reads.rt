//! The reads of a search.

use super::devices::{Behind, Reads, Taking};
use jp_grep::{
    Form, Format, Framing, Input, Origin, Pieces, Queries, Question, SearchFault, Shown, Spelling,
    Summary, TextSink, Units, Wanted, search,
};
use jp_model::Watched;
use jp_query::{Refusal, read_query};
use std::alloc::{AllocError, Global};
use std::test::Fail;

/// The lines of a stream, the texts of a sequence, JSON texts, and the elements of arrays.
const LINES: Units = Units::Lines(Framing::Lines);

const SEQUENCE: Units = Units::Lines(Framing::Sequence);

const TEXTS: Units = Units::Pieces(Pieces::Texts);

const ELEMENTS: Units = Units::Pieces(Pieces::Elements);

/// How a search ended.
#[derive(Drop)]
struct Ended {
    /// How many lines were selected, or the fault.
    found: Result<u64, SearchFault>,
    /// How many reads were made.
    reads: u64,
    /// What was written, and what was told.
    rows: Vec<u8>,
    messages: Vec<u8>,
}

/// The question whether a line has a member `a`.
fn question(alloc: Global) -> Result<Question, AllocError> {
    let mut question = Question::new(alloc, Wanted::Matching, Queries::Filter);
    match read_query(alloc, b"$.a") {
        Ok(query) => question.add_query(alloc, Origin::Root, &query)?,
        Err(Refusal::Memory | Refusal::Fault(_)) => return Err(AllocError),
    }
    Ok(question)
}

/// Searches the pieces for at most `most` lines.
fn searched(
    alloc: Global,
    units: Units,
    most: u64,
    pieces: &'static [&'static [u8]],
    behind: Behind,
) -> Result<Ended, AllocError> {
    let question = question(alloc)?;
    let form = Form {
        units,
        shown: Shown::Line { faults: false },
        spelling: Spelling::Source,
        summary: Summary::Nothing,
        name: "x",
        told_name: "x",
        named: false,
        null: false,
        numbered: false,
        coloured: false,
        marked: false,
        silent: false,
        most,
        trailing: 0,
    };
    let mut input = Input::new(Watched::new(Reads::new(pieces, behind)));
    let mut rows = TextSink::new(alloc, Taking::new(alloc));
    let mut messages = Watched::new(Taking::new(alloc));
    let found = search(
        alloc,
        &question,
        &form,
        &mut input,
        &mut rows,
        &mut messages,
    );
    Ok(Ended {
        found: match found {
            Ok(found) => Ok(found.counts.selected),
            Err(fault) => Err(fault),
        },
        reads: input.into_reader().calls(),
        rows: rows.finish().into_inner().held,
        messages: messages.into_inner().held,
    })
}

#[test]
fn no_read_follows_the_last_line_that_is_wanted(rt: HostRuntime) -> Result<(), Fail> {
    const PIECES: &[&[u8]] = &[b"1\n{\"a\"", b":1}\n{\"a\":2}\n"];
    let ended = searched(rt.alloc(), LINES, 1, PIECES, Behind::Fault)?;
    assert_eq!(rt; ended.found, Ok(1));
    assert_eq!(rt; ended.reads, 2);
    assert_eq!(rt; ended.rows.as_slice(), b"{\"a\":1}\n".as_slice());
    Ok(())
}

#[test]
fn no_read_is_made_where_no_line_is_wanted(rt: HostRuntime) -> Result<(), Fail> {
    let ended = searched(rt.alloc(), LINES, 0, &[], Behind::Fault)?;
    assert_eq!(rt; ended.found, Ok(0));
    assert_eq!(rt; ended.reads, 0);
    Ok(())
}

#[test]
fn no_read_follows_the_mark_of_a_format(rt: HostRuntime) -> Result<(), Fail> {
    const PIECES: &[&[u8]] = &[b"\x1F", b"\x8B"];
    for units in [LINES, SEQUENCE, TEXTS, ELEMENTS] {
        let ended = searched(rt.alloc(), units, 9, PIECES, Behind::Fault)?;
        assert_eq!(rt; ended.found, Err(SearchFault::Foreign(Format::Gzip)));
        assert_eq!(rt; ended.reads, 2);
        assert!(rt; ended.rows.is_empty() && ended.messages.is_empty());
    }
    Ok(())
}

#[test]
fn the_beginning_of_a_mark_is_read_on(rt: HostRuntime) -> Result<(), Fail> {
    const PIECES: &[&[u8]] = &[b"BZh9", b"1AY&S", b"\n"];
    let ended = searched(rt.alloc(), LINES, 9, PIECES, Behind::End)?;
    assert_eq!(rt; ended.found, Ok(0));
    assert_eq!(rt;
        ended.messages.as_slice(),
        b"jpgrep: x:1: grammar\n".as_slice()
    );
    let ended = searched(rt.alloc(), SEQUENCE, 9, PIECES, Behind::Fault)?;
    assert_eq!(rt; ended.found, Err(SearchFault::Framing));
    assert_eq!(rt; ended.reads, 3);
    Ok(())
}

#[test]
fn no_read_follows_bytes_that_frame_no_sequence(rt: HostRuntime) -> Result<(), Fail> {
    const BLANKS: &[&[u8]] = &[b"      ", b"       ", b" \n x"];
    let ended = searched(rt.alloc(), SEQUENCE, 9, BLANKS, Behind::Fault)?;
    assert_eq!(rt; ended.found, Err(SearchFault::Framing));
    assert_eq!(rt; ended.reads, 3);
    const NO_MARK: &[&[u8]] = &[b"\xEF", b"\xBB", b"\""];
    let ended = searched(rt.alloc(), SEQUENCE, 9, NO_MARK, Behind::Fault)?;
    assert_eq!(rt; ended.found, Err(SearchFault::Framing));
    assert_eq!(rt; ended.reads, 3);
    Ok(())
}

#[test]
fn a_byte_order_mark_may_come_byte_by_byte(rt: HostRuntime) -> Result<(), Fail> {
    const PIECES: &[&[u8]] = &[b"\xEF", b"\xBB", b"\xBF", b" ", b"\x1E", b"{\"a\":1}\n"];
    let ended = searched(rt.alloc(), SEQUENCE, 9, PIECES, Behind::End)?;
    assert_eq!(rt; ended.found, Ok(1));
    assert_eq!(rt; ended.rows.as_slice(), b"\x1E{\"a\":1}\n".as_slice());
    const HALF: &[&[u8]] = &[b"\xEF", b"\xBB"];
    let ended = searched(rt.alloc(), SEQUENCE, 9, HALF, Behind::End)?;
    assert_eq!(rt; ended.found, Err(SearchFault::Framing));
    Ok(())
}

#[test]
fn a_read_that_fails_is_told_behind_the_lines_that_ended(rt: HostRuntime) -> Result<(), Fail> {
    const PIECES: &[&[u8]] = &[b"{\"a\":1}\n{\"a\":2}"];
    let ended = searched(rt.alloc(), LINES, 9, PIECES, Behind::Fault)?;
    assert_eq!(rt; ended.found, Err(SearchFault::Read));
    assert_eq!(rt; ended.rows.as_slice(), b"{\"a\":1}\n".as_slice());
    Ok(())
}

#[test]
fn a_text_is_answered_before_the_next_read(rt: HostRuntime) -> Result<(), Fail> {
    const PIECES: &[&[u8]] = &[b"{\n\"a\": ", b"1}{\"a\":2", b"}"];
    let ended = searched(rt.alloc(), TEXTS, 1, PIECES, Behind::Fault)?;
    assert_eq!(rt; ended.found, Ok(1));
    assert_eq!(rt; ended.reads, 2);
    assert_eq!(rt; ended.rows.as_slice(), b"{\"a\": 1}\n".as_slice());
    Ok(())
}

#[test]
fn an_element_is_answered_where_a_read_fails_behind_it(rt: HostRuntime) -> Result<(), Fail> {
    const PIECES: &[&[u8]] = &[b"[{\"a\":1}\n", b", {\"a\":2}"];
    let ended = searched(rt.alloc(), ELEMENTS, 9, PIECES, Behind::Fault)?;
    assert_eq!(rt; ended.found, Err(SearchFault::Read));
    assert_eq!(rt; ended.rows.as_slice(), b"{\"a\":1}\n".as_slice());
    let ended = searched(rt.alloc(), ELEMENTS, 9, PIECES, Behind::End)?;
    assert_eq!(rt; ended.found, Ok(1));
    assert_eq!(rt;
        ended.messages.as_slice(),
        b"jpgrep: x:2: truncated, from line 2\n".as_slice()
    );
    Ok(())
}
