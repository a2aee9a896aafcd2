//! Lines that nest deep, and lines about the lengths at which the form of a tape changes.

use super::{Fail, Seen, has_tape, is_refused, nodes_of, read};
use crate::{Cursor, Kind};
use jp_model::{Framing, LineFault, Span};
use std::alloc::{AllocError, Global};

/// `opened` opening brackets of arrays, and after them `closed` closing ones.
fn nested(alloc: Global, opened: usize, closed: usize) -> Result<Vec<u8>, AllocError> {
    let mut line = Vec::new(alloc);
    for _ in 0..opened {
        line.push(b'[')?;
    }
    for _ in 0..closed {
        line.push(b']')?;
    }
    Ok(line)
}

#[test]
fn depth_is_bounded_and_not_recursive(rt: HostRuntime) -> Result<(), Fail> {
    let alloc = rt.alloc();
    let most = nested(alloc, 512, 512)?;
    assert!(rt; has_tape(alloc, &most));
    let more = nested(alloc, 513, 513)?;
    assert!(rt; is_refused(alloc, &more, LineFault::Depth));
    let many = nested(alloc, 1000000, 1000000)?;
    assert!(rt; is_refused(alloc, &many, LineFault::Depth));
    let open = nested(alloc, 1000000, 0)?;
    assert!(rt; is_refused(alloc, &open, LineFault::Grammar));
    Ok(())
}

/// An object of one member, after `blanks` blanks.
fn behind_blanks(alloc: Global, blanks: u32) -> Result<Vec<u8>, AllocError> {
    let mut line = Vec::new(alloc);
    for _ in 0..blanks {
        line.push(b' ')?;
    }
    for byte in b"{\"a\":1}" {
        line.push(*byte)?;
    }
    Ok(line)
}

#[test]
fn words_are_kept_at_each_limit(rt: HostRuntime) -> Result<(), Fail> {
    let alloc = rt.alloc();
    // The lines have 1,023 and 1,024 bytes, and 2,097,151 and 2,097,152.
    for blanks in [1016_u32, 1017, 2097144, 2097145] {
        let line = behind_blanks(alloc, blanks)?;
        let tape = read(alloc, &line, Framing::Lines)?;
        let object = Seen {
            kind: Kind::Object,
            span: Span {
                start: blanks,
                end: blanks + 7,
            },
            name: None,
            index: 0,
            after: 2,
        };
        let member = Seen {
            kind: Kind::Number,
            span: Span {
                start: blanks + 5,
                end: blanks + 6,
            },
            name: Some(Span {
                start: blanks + 2,
                end: blanks + 3,
            }),
            index: 0,
            after: 2,
        };
        assert!(rt;
            nodes_of(alloc, Cursor::root(&tape, &line))?.as_slice() == [object, member].as_slice()
        );
    }
    Ok(())
}

#[test]
fn blanks_behind_a_text_change_no_word(rt: HostRuntime) -> Result<(), Fail> {
    let alloc = rt.alloc();
    let mut line = nested(alloc, 511, 511)?;
    let tape = read(alloc, &line, Framing::Lines)?;
    let short = nodes_of(alloc, Cursor::root(&tape, &line))?;
    line.extend_from_slice(b"  ")?;
    let tape = read(alloc, &line, Framing::Lines)?;
    let long = nodes_of(alloc, Cursor::root(&tape, &line))?;
    assert!(rt; short == long);
    Ok(())
}
