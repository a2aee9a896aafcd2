//! Which texts are conditions, the logical expressions of a filter (RFC 9535 section 2.3.5) by themselves.

use jp_model::QueryFault;
use jp_query::{ParseFault, parse_condition};
use jp_types::check_condition;
use std::alloc::Global;
use std::test::Fail;

/// What is said of a condition's text: nothing where it is one, and its types fit.
fn fault_of(alloc: Global, text: &[u8]) -> Option<ParseFault> {
    match parse_condition(alloc, text) {
        Ok(condition) => match check_condition(condition) {
            Ok(_) => None,
            Err((fault, _)) => Some(ParseFault::Refused(fault)),
        },
        Err(fault) => Some(fault),
    }
}

#[test]
fn conditions_are_logical_expressions(rt: HostRuntime) {
    let texts: [&[u8]; 5] = [
        b"@.level == \"error\" && @.ms > 200",
        b" \t\r\n@.a\n",
        b"!(@.a || $.b)",
        b"match(@.a, \"]\")",
        b"@[?@.b][0]",
    ];
    for text in texts {
        assert_eq!(rt; fault_of(rt.alloc(), text), None);
    }
}

#[test]
fn what_is_more_or_less_than_an_expression_is_no_condition(rt: HostRuntime) {
    let texts: [&[u8]; 7] = [
        b"",
        b"@.a,?@.b",
        b"@.a][0]",
        b"@.a][?@.b",
        b"@.a]",
        b"@.a][9007199254740992",
        b"?@.a",
    ];
    for text in texts {
        let fault = ParseFault::Refused(QueryFault::Syntax);
        assert_eq!(rt; fault_of(rt.alloc(), text), Some(fault));
    }
}

#[test]
fn conditions_have_the_faults_of_queries(rt: HostRuntime) {
    let texts: [(&[u8], QueryFault); 5] = [
        (b"@[9007199254740992]", QueryFault::Integer),
        (b"@ == 1e1000000000000000", QueryFault::Number),
        (b"size(@) == 1", QueryFault::Function),
        (b"count(@.a)", QueryFault::Types),
        (&[b'('; 512], QueryFault::Size),
    ];
    for (text, fault) in texts {
        assert_eq!(rt;
            fault_of(rt.alloc(), text),
            Some(ParseFault::Refused(fault))
        );
    }
}
