//! What stands in a row in colours, and that something does.

use crate::{Part, push_marked, push_painted};
use jp_model::Span;
use std::test::Fail;

const LINE: &[u8] = b" [1,\"a\",[2]]\r";

/// Its value.
const VALUE: Span = Span { start: 1, end: 12 };

#[test]
fn paints_parts(rt: HostRuntime) -> Result<(), Fail> {
    let mut text = Vec::new(rt.alloc());
    push_painted(true, Part::Name, b"log", &mut text)?;
    push_painted(true, Part::Sign, b":", &mut text)?;
    push_painted(true, Part::Place, b"7", &mut text)?;
    push_painted(false, Part::Sign, b":", &mut text)?;
    // As `grep --color=always -Hn` of GNU grep 3.11 writes them.
    let wanted: &[u8] =
        b"\x1b[35m\x1b[Klog\x1b[m\x1b[K\x1b[36m\x1b[K:\x1b[m\x1b[K\x1b[32m\x1b[K7\x1b[m\x1b[K:";
    assert_eq!(rt; text.as_slice(), wanted);
    Ok(())
}

#[test]
fn marks_nodes(rt: HostRuntime) -> Result<(), Fail> {
    let mut text = Vec::new(rt.alloc());
    let mut spans = [
        Span { start: 9, end: 10 },
        Span { start: 2, end: 3 },
        Span { start: 8, end: 11 },
        Span { start: 2, end: 3 },
    ];
    push_marked(LINE, VALUE, &mut spans, &mut text)?;
    let wanted: &[u8] = b"[\x1b[01;31m\x1b[K1\x1b[m\x1b[K,\"a\",\x1b[01;31m\x1b[K[2]\x1b[m\x1b[K]";
    assert_eq!(rt; text.as_slice(), wanted);
    Ok(())
}

#[test]
fn marks_a_whole_line(rt: HostRuntime) -> Result<(), Fail> {
    let mut text = Vec::new(rt.alloc());
    let mut spans = [Span { start: 9, end: 10 }, Span { start: 1, end: 12 }];
    push_marked(LINE, VALUE, &mut spans, &mut text)?;
    let wanted: &[u8] = b"\x1b[01;31m\x1b[K[1,\"a\",[2]]\x1b[m\x1b[K";
    assert_eq!(rt; text.as_slice(), wanted);
    Ok(())
}

#[test]
fn marks_nothing(rt: HostRuntime) -> Result<(), Fail> {
    let mut text = Vec::new(rt.alloc());
    push_marked(LINE, VALUE, &mut [Span { start: 0, end: 1 }], &mut text)?;
    assert_eq!(rt; text.as_slice(), &LINE[1..12]);
    Ok(())
}
