//! Which texts are rel-queries (RFC 9535, section 2.3.5.1), and where other texts go wrong.

use jp_model::QueryFault;
use jp_query::{Expected, FaultPlace, Refusal, read_query, read_relative_query};
use std::alloc::{AllocError, Global};
use std::test::Fail;

/// The fault of a text as a rel-query, and its place.
fn fault_of(alloc: Global, text: &[u8]) -> Option<Refusal> {
    match read_relative_query(alloc, text) {
        Ok(_) => None,
        Err(refusal) => Some(refusal),
    }
}

/// A refusal for a fault at a place, and what is expected there.
fn fault_at(fault: QueryFault, place: usize, expected: Option<Expected>) -> Option<Refusal> {
    Some(Refusal::Fault(FaultPlace {
        fault,
        place,
        expected,
    }))
}

/// The text with an identifier in front of it.
fn behind(alloc: Global, identifier: u8, text: &str) -> Result<Vec<u8>, AllocError> {
    let mut whole = Vec::from_slice(alloc, &[identifier])?;
    whole.extend_from_slice(text.as_bytes())?;
    Ok(whole)
}

#[test]
fn rel_queries_are_read(rt: HostRuntime) {
    let texts: [(&str, usize); 6] = [
        ("@", 0),
        ("@.sku", 1),
        ("@['a'][0]", 2),
        ("@..a[?@.b>$.c]", 2),
        ("@ .a\t[1:2]", 2),
        ("@[?count(@.*) == 1, ?match($.a, 'x')]", 1),
    ];
    for (text, count) in texts {
        let segments = match read_relative_query(rt.alloc(), text.as_bytes()) {
            Ok(query) => Some(query.segments().len()),
            Err(_) => None,
        };
        assert_eq!(rt; (text, segments), (text, Some(count)));
    }
}

#[test]
fn places_of_texts_that_are_no_rel_queries(rt: HostRuntime) {
    let texts: [(&str, QueryFault, usize, Option<Expected>); 15] = [
        ("", QueryFault::Syntax, 0, Some(Expected::Current)),
        ("$", QueryFault::Syntax, 0, Some(Expected::Current)),
        ("$.a", QueryFault::Syntax, 0, Some(Expected::Current)),
        (" @", QueryFault::Syntax, 0, Some(Expected::Current)),
        ("sku", QueryFault::Syntax, 0, Some(Expected::Current)),
        ("@ ", QueryFault::Syntax, 2, Some(Expected::Segment)),
        ("@@", QueryFault::Syntax, 1, Some(Expected::Segment)),
        ("@.", QueryFault::Syntax, 2, Some(Expected::Name)),
        ("@[", QueryFault::Syntax, 2, Some(Expected::Selector)),
        (
            "@.\u{e9}['a'",
            QueryFault::Syntax,
            8,
            Some(Expected::Bracket),
        ),
        ("@.a[9007199254740992]", QueryFault::Integer, 4, None),
        (
            "$.a[9007199254740992]",
            QueryFault::Syntax,
            0,
            Some(Expected::Current),
        ),
        ("@[?@==1e9999999999999999]", QueryFault::Number, 6, None),
        ("@[?size(@)==1]", QueryFault::Function, 3, None),
        ("@.a[?length(@.*)==1]", QueryFault::Types, 5, None),
    ];
    for (text, fault, place, expected) in texts {
        let found = fault_of(rt.alloc(), text.as_bytes());
        assert_eq!(rt; (text, found), (text, fault_at(fault, place, expected)));
    }
}

#[test]
fn places_of_rel_queries_beyond_limits_and_utf_8(rt: HostRuntime) -> Result<(), Fail> {
    let mut text = Vec::from_slice(rt.alloc(), b"@.")?;
    for _ in 0..65_533 {
        text.push(b'a')?;
    }
    assert_eq!(rt; fault_of(rt.alloc(), &text), None);
    text.push(b'a')?;
    let found = fault_of(rt.alloc(), &text);
    assert_eq!(rt; found, fault_at(QueryFault::Size, 65_535, None));
    let brackets = [b'['; 513];
    let found = fault_of(rt.alloc(), &brackets);
    assert_eq!(rt; found, fault_at(QueryFault::Size, 512, None));
    for (bytes, place) in [(b"@.\xC3a", 2), (b"\xFF@.a", 0), (b"$.a\xC3", 3)] {
        let found = fault_of(rt.alloc(), bytes);
        assert_eq!(rt;
            found,
            fault_at(QueryFault::Syntax, place, Some(Expected::Utf8))
        );
    }
    Ok(())
}

#[test]
fn rel_queries_are_refused_as_queries_are(rt: HostRuntime) -> Result<(), Fail> {
    let texts: [&str; 20] = [
        " ",
        "a",
        ".",
        "..",
        ". a",
        "[01]",
        "[-0]",
        "['a' 'b']",
        "['\u{1F600}",
        "['\\uD83x']",
        ".items[?@.price = 90]",
        "[?@.* == 1]",
        "[?(@.a]",
        "[?@.a & @.b]",
        "[?length(@.a @.b)]",
        "[?f(1,99999999999999999,@[99999999999999999])]",
        ".a1e9999999999999999[?@==1e9999999999999999]",
        "[?length(@.*)==1||size(@)==1]",
        "[?count(@.b[?value(@.*)])==1]",
        "[?length(@,@)==1]",
    ];
    for text in texts {
        let rooted = behind(rt.alloc(), b'$', text)?;
        let relative = behind(rt.alloc(), b'@', text)?;
        let wanted = match read_query(rt.alloc(), &rooted) {
            Ok(_) => None,
            Err(refusal) => Some(refusal),
        };
        let found = fault_of(rt.alloc(), &relative);
        assert!(rt; found.is_some());
        assert_eq!(rt; (text, found), (text, wanted));
    }
    Ok(())
}
