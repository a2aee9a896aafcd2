//! Tests of lines and faults.

use super::*;
use std::alloc::{AllocError, Global};
use std::test::Fail;

/// The lines of a collection, each with a bar after it.
fn barred(alloc: Global, collection: &[u8]) -> Result<Vec<u8>, AllocError> {
    let mut barred = Vec::new(alloc);
    for line in Lines::new(collection) {
        barred.extend_from_slice(line)?;
        barred.push(b'|')?;
    }
    Ok(barred)
}

#[test]
fn lines_are_cut(rt: HostRuntime) -> Result<(), Fail> {
    let collections: [(&[u8], &[u8]); 8] = [
        (b"", b""),
        (b"\n", b"|"),
        (b"1\n2\n", b"1|2|"),
        (b"1\n\n2", b"1||2|"),
        (b"1\r\n \r\n", b"1\r| \r|"),
        (b"\xEF\xBB\xBF1\n\xEF\xBB\xBF2", b"1|\xEF\xBB\xBF2|"),
        (b"\xEF\xBB\xBF", b""),
        (b"\xEF\xBB\n", b"\xEF\xBB|"),
    ];
    for (collection, want) in collections {
        assert_eq!(rt; barred(rt.alloc(), collection)?.as_slice(), want);
    }
    Ok(())
}

#[test]
fn blank_lines_are_white_space_alone(rt: HostRuntime) {
    let lines: [(&[u8], bool); 8] = [
        (b"", true),
        (b" \t\r\n", true),
        (b"\r", true),
        (b" 1", false),
        (b"\x0C", false),
        (b"\x0B", false),
        (b"\xC2\xA0", false),
        (b"\xEF\xBB\xBF", false),
    ];
    for (line, want) in lines {
        assert_eq!(rt; is_blank(line), want, "of {line:?}");
    }
}

#[test]
fn faults_have_words_and_numbers(rt: HostRuntime) {
    for (fault, word, number) in [
        (LineFault::Utf8, "utf8", 1),
        (LineFault::Grammar, "grammar", 2),
        (LineFault::Depth, "depth", 3),
        (LineFault::Surrogate, "surrogate", 4),
        (LineFault::Number, "number", 5),
        (LineFault::Duplicate, "duplicate", 6),
        (LineFault::Truncated, "truncated", 7),
    ] {
        assert_eq!(rt; fault.word(), word);
        assert_eq!(rt; fault as u8, number);
    }
    for (fault, word, number) in [
        (QueryFault::Size, "size", 1),
        (QueryFault::Syntax, "syntax", 2),
        (QueryFault::Integer, "integer", 3),
        (QueryFault::Number, "number", 4),
        (QueryFault::Function, "function", 5),
        (QueryFault::Types, "types", 6),
    ] {
        assert_eq!(rt; fault.word(), word);
        assert_eq!(rt; fault as u8, number);
    }
}
