//! Which texts are queries (RFC 9535), and which fault each other text has.

use jp_model::QueryFault;
use jp_query::{ParseFault, parse};
use std::alloc::{AllocError, Global};
use std::test::Fail;

mod conditions;
mod examples;
mod paths;
mod places;
mod relative;

/// What the parser says of a text: nothing where it is a query.
fn fault_of(alloc: Global, text: &[u8]) -> Option<ParseFault> {
    match parse(alloc, text) {
        Ok(_) => None,
        Err(fault) => Some(fault),
    }
}

/// A command line has no line feed, so it cannot be a blank in a script's query.
#[test]
fn line_feeds_are_blanks_of_the_grammar(rt: HostRuntime) {
    let texts: [&[u8]; 11] = [
        b"$[?@ .a ['b'] [0]\n== \t$.c]",
        b"$._a1\r\n\t ..b",
        b"$\n.a",
        b"$\r\n.a",
        b"$[\t-1\n]",
        b"$[ 1\n:\t2\r:  -3 , 0 ]",
        b"$[?\n@.a]",
        b"$[?1\n<=\n@.a]",
        b"$[?!\t(\n! @.a\r) ]",
        b"$[?@.a\n||\n@.b && @.c]",
        b"$[?length(\n@ .a\t)==1]",
    ];
    for text in texts {
        assert_eq!(rt; fault_of(rt.alloc(), text), None);
    }
}

#[test]
fn line_feeds_are_refused_elsewhere(rt: HostRuntime) {
    let texts: [&[u8]; 5] = [
        b"$['\n']",
        b"\n$",
        b"$.a\n",
        b"$[?count\n(@.a)==1]",
        b"$.\na",
    ];
    for text in texts {
        let fault = ParseFault::Refused(QueryFault::Syntax);
        assert_eq!(rt; fault_of(rt.alloc(), text), Some(fault));
    }
}

/// The front, then the part repeated, and then the back as often as `ends` says.
fn repeated(
    alloc: Global,
    front: &[u8],
    part: &[u8],
    times: usize,
    back: &[u8],
    ends: usize,
) -> Result<Vec<u8>, AllocError> {
    let mut text = Vec::new(alloc);
    text.extend_from_slice(front)?;
    for _ in 0..times {
        text.extend_from_slice(part)?;
    }
    for _ in 0..ends {
        text.extend_from_slice(back)?;
    }
    Ok(text)
}

#[test]
fn size_is_limited(rt: HostRuntime) -> Result<(), Fail> {
    let alloc = rt.alloc();
    let flat = repeated(alloc, b"$", b"[0]", 512, b"", 0)?;
    assert_eq!(rt; fault_of(alloc, flat.as_slice()), None);
    let more = repeated(alloc, b"$", b"[0]", 513, b"", 0)?;
    assert_eq!(rt;
        fault_of(alloc, more.as_slice()),
        Some(ParseFault::Refused(QueryFault::Size))
    );
    let deep = repeated(alloc, b"$[?@", b"[?@", 511, b"]", 512)?;
    assert_eq!(rt; fault_of(alloc, deep.as_slice()), None);
    let long = repeated(alloc, b"$.", b"a", 65_533, b"", 0)?;
    assert_eq!(rt; fault_of(alloc, long.as_slice()), None);
    let longer = repeated(alloc, b"$.", b"a", 65_534, b"", 0)?;
    assert_eq!(rt;
        fault_of(alloc, longer.as_slice()),
        Some(ParseFault::Refused(QueryFault::Size))
    );
    Ok(())
}
