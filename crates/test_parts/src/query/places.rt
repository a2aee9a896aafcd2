//! Where texts go wrong that are no queries or conditions, and what the grammar has there.

use jp_model::QueryFault;
use jp_query::{Expected, FaultPlace, Refusal, read_condition, read_query};
use std::alloc::Global;
use std::test::Fail;

/// The fault of a text as a query, and its place.
fn fault_of_query(alloc: Global, text: &[u8]) -> Option<Refusal> {
    match read_query(alloc, text) {
        Ok(_) => None,
        Err(refusal) => Some(refusal),
    }
}

/// The fault of a text as a condition, and its place.
fn fault_of_condition(alloc: Global, text: &[u8]) -> Option<Refusal> {
    match read_condition(alloc, text) {
        Ok(_) => None,
        Err(refusal) => Some(refusal),
    }
}

/// A refusal for a fault at a place, and what is expected there.
fn fault_at(fault: QueryFault, place: usize, expected: Option<Expected>) -> Option<Refusal> {
    Some(Refusal::Fault(FaultPlace {
        fault,
        place,
        expected,
    }))
}

#[test]
fn places_of_syntax(rt: HostRuntime) {
    let texts: [(&str, usize, Expected); 47] = [
        ("", 0, Expected::Root),
        ("a", 0, Expected::Root),
        (" $", 0, Expected::Root),
        ("$ ", 2, Expected::Segment),
        ("$.a b", 4, Expected::Segment),
        ("$a", 1, Expected::Segment),
        ("$.", 2, Expected::Name),
        ("$.1", 2, Expected::Name),
        ("$..", 3, Expected::Name),
        ("$. a", 2, Expected::Name),
        ("$[", 2, Expected::Selector),
        ("$[]", 2, Expected::Selector),
        ("$[a]", 2, Expected::Selector),
        ("$['a'", 5, Expected::Bracket),
        ("$['a' 'b']", 6, Expected::Bracket),
        ("$['a',]", 6, Expected::Selector),
        ("$[1:2:3:4]", 7, Expected::Bracket),
        ("$[01]", 3, Expected::Bracket),
        ("$[-]", 3, Expected::Digit),
        ("$[-0]", 3, Expected::Digit),
        ("$[1:-]", 5, Expected::Digit),
        ("$['a", 4, Expected::Quote),
        ("$['a\\q']", 4, Expected::Escape),
        ("$['a\\", 5, Expected::Escape),
        ("$['\\uD83", 8, Expected::Escape),
        ("$['\\uD83x']", 3, Expected::Escape),
        ("$['\\uDC00']", 3, Expected::Escape),
        ("$['a\tb']", 4, Expected::EscapedControl),
        ("$['\u{1F600}", 7, Expected::Quote),
        ("$.items[?@.price = 90]", 17, Expected::ComparisonOrBracket),
        ("$[?@.a =", 8, Expected::ComparisonOrBracket),
        ("$[?@.a == 1 = 2]", 12, Expected::Bracket),
        ("$[?@.* == 1]", 7, Expected::SingularQuery),
        ("$[?(@.a]", 7, Expected::ComparisonOrParenthesis),
        ("$[?(@.a == 1]", 12, Expected::Parenthesis),
        ("$[?@.a == ]", 10, Expected::Operand),
        ("$[?]", 3, Expected::Operand),
        ("$[?1]", 4, Expected::Comparison),
        ("$[?tru", 6, Expected::Operand),
        ("$[?foo]", 3, Expected::Operand),
        ("$[?1==@.", 8, Expected::SingularName),
        ("$[?1==@['a", 10, Expected::Quote),
        ("$[?1==@[*]]", 8, Expected::SingularSelector),
        ("$[?@.a & @.b]", 8, Expected::And),
        ("$[?@.a | @.b]", 8, Expected::Or),
        ("$[?!1]", 4, Expected::Test),
        ("$[?length(@.a @.b)]", 14, Expected::Argument),
    ];
    for (text, place, expected) in texts {
        let found = fault_of_query(rt.alloc(), text.as_bytes());
        let wanted = fault_at(QueryFault::Syntax, place, Some(expected));
        assert_eq!(rt; (text, found), (text, wanted));
    }
}

#[test]
fn places_of_other_faults(rt: HostRuntime) {
    let texts: [(&str, QueryFault, usize); 13] = [
        ("$[9007199254740992]", QueryFault::Integer, 2),
        (
            "$[?@.a==99999999999999999][1,-9007199254740992]",
            QueryFault::Integer,
            29,
        ),
        (
            "$['9007199254740992'][0:9007199254740992]",
            QueryFault::Integer,
            24,
        ),
        (
            "$[?f(1,99999999999999999,@[99999999999999999])]",
            QueryFault::Integer,
            27,
        ),
        (
            "$.a1e9999999999999999[?@==1e9999999999999999]",
            QueryFault::Number,
            26,
        ),
        ("$[?size(@)==1]", QueryFault::Function, 3),
        ("$[?length(@.*)==1||size(@)==1]", QueryFault::Function, 19),
        ("$[?'size(' == @ && count(@.*)]", QueryFault::Types, 19),
        ("$[?length(@.*)==1]", QueryFault::Types, 3),
        ("$[?length(count(1))==1]", QueryFault::Types, 10),
        (
            "$[?length(length(@.a))==1 && match(@,'a')==true]",
            QueryFault::Types,
            29,
        ),
        ("$[?count(@.b[?value(@.*)])==1]", QueryFault::Types, 14),
        ("$[?length(@,@)==1]", QueryFault::Types, 3),
    ];
    for (text, fault, place) in texts {
        let found = fault_of_query(rt.alloc(), text.as_bytes());
        assert_eq!(rt; (text, found), (text, fault_at(fault, place, None)));
    }
}

#[test]
fn places_of_texts_that_are_too_large(rt: HostRuntime) -> Result<(), Fail> {
    let mut text = Vec::from_slice(rt.alloc(), b"$.")?;
    for _ in 0..65_532 {
        text.push(b'a')?;
    }
    text.extend_from_slice("\u{e9}".as_bytes())?;
    let found = fault_of_query(rt.alloc(), &text);
    assert_eq!(rt; found, fault_at(QueryFault::Size, 65_534, None));
    let brackets = [b'['; 513];
    let found = fault_of_query(rt.alloc(), &brackets);
    assert_eq!(rt; found, fault_at(QueryFault::Size, 512, None));
    let found = fault_of_condition(rt.alloc(), &brackets);
    assert_eq!(rt; found, fault_at(QueryFault::Size, 511, None));
    let found = fault_of_query(rt.alloc(), b"$.a\xC3");
    assert_eq!(rt;
        found,
        fault_at(QueryFault::Syntax, 3, Some(Expected::Utf8))
    );
    Ok(())
}

#[test]
fn places_of_conditions(rt: HostRuntime) {
    let texts: [(&str, QueryFault, usize, Option<Expected>); 12] = [
        ("", QueryFault::Syntax, 0, Some(Expected::Operand)),
        (
            "@.a == $[name]",
            QueryFault::Syntax,
            9,
            Some(Expected::SingularSelector),
        ),
        (
            "@..a == 1",
            QueryFault::Syntax,
            5,
            Some(Expected::SingularQuery),
        ),
        ("1 == 1 1", QueryFault::Syntax, 7, Some(Expected::End)),
        (
            "@.a = 1",
            QueryFault::Syntax,
            4,
            Some(Expected::ComparisonOrEnd),
        ),
        (
            "@.a,?@.b",
            QueryFault::Syntax,
            3,
            Some(Expected::ComparisonOrEnd),
        ),
        (
            "@.a][0]",
            QueryFault::Syntax,
            3,
            Some(Expected::ComparisonOrEnd),
        ),
        ("@.a == ", QueryFault::Syntax, 7, Some(Expected::Operand)),
        ("?@.a", QueryFault::Syntax, 0, Some(Expected::Operand)),
        ("@[9007199254740992]", QueryFault::Integer, 2, None),
        ("size(@) == 1", QueryFault::Function, 0, None),
        ("1 == 1 && count(@.a)", QueryFault::Types, 10, None),
    ];
    for (text, fault, place, expected) in texts {
        let found = fault_of_condition(rt.alloc(), text.as_bytes());
        assert_eq!(rt; (text, found), (text, fault_at(fault, place, expected)));
    }
}

#[test]
fn texts_that_are_taken_have_no_place(rt: HostRuntime) {
    for text in ["$", "$[?length(@.a) == 1 && match(@.b, 'x')]"] {
        assert_eq!(rt; fault_of_query(rt.alloc(), text.as_bytes()), None);
    }
    assert_eq!(rt; fault_of_condition(rt.alloc(), b" @.a == 1 "), None);
}
