//! Canonical texts by hand.

use crate::tapes::{NoTape, tape_of};
use jp_canon::Printer;
use jp_nodes::Cursor;
use std::alloc::{AllocError, Global};

/// The canonical text of a line's value.
fn canonical(alloc: Global, line: &[u8]) -> Result<Vec<u8>, NoTape> {
    let tape = tape_of(alloc, line)?;
    let mut text = Vec::new(alloc);
    Printer::new(alloc).append(Cursor::root(&tape, line), &mut text)?;
    Ok(text)
}

/// Whether each line has the text beside it, and that text has itself.
fn agree(alloc: Global, texts: &[(&str, &str)]) -> Result<bool, NoTape> {
    for (line, text) in texts {
        let made = canonical(alloc, line.as_bytes())?;
        let again = canonical(alloc, text.as_bytes())?;
        if made.as_slice() != text.as_bytes() || again.as_slice() != text.as_bytes() {
            return Ok(false);
        }
    }
    Ok(true)
}

#[test]
fn numbers_have_the_layout_of_their_value(rt: HostRuntime) -> Result<(), NoTape> {
    let texts = [
        ("0", "0"),
        ("-0", "0"),
        ("0.0", "0"),
        ("-0e5", "0"),
        ("1", "1"),
        ("-1", "-1"),
        ("10", "10"),
        ("1.0", "1"),
        ("24.90", "24.9"),
        ("2.49e1", "24.9"),
        ("-2.49E+1", "-24.9"),
        ("249e-1", "24.9"),
        ("0.1", "0.1"),
        ("0.12", "0.12"),
        ("0.000001", "0.000001"),
        ("12e-7", "0.0000012"),
        ("0.0000001", "1e-7"),
        ("0.00000012", "1.2e-7"),
        ("123456789012345678901", "123456789012345678901"),
        ("1234567890123456789012", "1.234567890123456789012e+21"),
        ("1e20", "100000000000000000000"),
        ("1e21", "1e+21"),
        ("12345678901234567890.5", "12345678901234567890.5"),
        ("123456789012345678901.5", "123456789012345678901.5"),
        ("1234567890123456789012.5", "1.2345678901234567890125e+21"),
        ("1e400", "1e+400"),
        ("100e-400", "1e-398"),
        ("0.1000000000000000055", "0.1000000000000000055"),
        ("100e999999999999990", "1e+999999999999992"),
    ];
    assert!(rt; agree(rt.alloc(), &texts)?);
    Ok(())
}

#[test]
fn exponents_may_be_longer_than_those_that_are_read(rt: HostRuntime) -> Result<(), NoTape> {
    let alloc = rt.alloc();
    let text = canonical(alloc, b"10e999999999999999")?;
    assert_eq!(rt; text.as_slice(), b"1e+1000000000000000".as_slice());
    let text = canonical(alloc, b"0.1e-999999999999999")?;
    assert_eq!(rt; text.as_slice(), b"1e-1000000000000000".as_slice());
    Ok(())
}

#[test]
fn strings_have_the_shortest_escapes(rt: HostRuntime) -> Result<(), NoTape> {
    let texts = [
        (r#""""#, r#""""#),
        (r#""plain é € 😀""#, r#""plain é € 😀""#),
        (r#""\u0041\u00e9\u20AC\uD83D\uDE00""#, r#""Aé€😀""#),
        (r#""\"\\\/""#, r#""\"\\/""#),
        (r#""\b\f\n\r\t""#, r#""\b\f\n\r\t""#),
        (r#""\u0008\u000C\u000A\u000D\u0009""#, r#""\b\f\n\r\t""#),
        (r#""\u0000\u000B\u001F""#, r#""\u0000\u000b\u001f""#),
        (r#""\u007f\u0022\u005C""#, "\"\u{7f}\\\"\\\\\""),
    ];
    assert!(rt; agree(rt.alloc(), &texts)?);
    Ok(())
}

/// The last two are the samples of RFC 8785, sections 3.2.2 and 3.2.3: here the number that is no float has all its digits, and
/// the emoji's name, of the greatest scalar, is the last.
#[test]
fn objects_have_their_members_by_name(rt: HostRuntime) -> Result<(), NoTape> {
    let texts = [
        ("{ }", "{}"),
        ("[ ]", "[]"),
        (
            r#"{"b" : 1, "a" : [ ] , "" : { }}"#,
            r#"{"":{},"a":[],"b":1}"#,
        ),
        (
            r#"{"a":{"d":1,"c":2},"A":[{"z":0,"y":1},2]}"#,
            r#"{"A":[{"y":1,"z":0},2],"a":{"c":2,"d":1}}"#,
        ),
        (
            r#"{"aa":1,"\u0061":2,"a\u0000":3}"#,
            r#"{"a":2,"a\u0000":3,"aa":1}"#,
        ),
        (
            r#"{"numbers":[333333333.33333329,1E30,4.50,2e-3,0.000000000000000000000000001],"string":"\u20ac$\u000F\u000aA'\u0042\u0022\u005c\\\"\/","literals":[null,true,false]}"#,
            r#"{"literals":[null,true,false],"numbers":[333333333.33333329,1e+30,4.5,0.002,1e-27],"string":"€$\u000f\nA'B\"\\\\\"/"}"#,
        ),
        (
            r#"{"\u20ac":"Euro Sign","\r":"Carriage Return","\ufb33":"Hebrew Letter Dalet With Dagesh","1":"One","\ud83d\ude00":"Emoji: Grinning Face","\u0080":"Control","\u00f6":"Latin Small Letter O With Diaeresis"}"#,
            "{\"\\r\":\"Carriage Return\",\"1\":\"One\",\"\u{80}\":\"Control\",\"\u{f6}\":\"Latin Small Letter O With Diaeresis\",\"\u{20ac}\":\"Euro Sign\",\"\u{fb33}\":\"Hebrew Letter Dalet With Dagesh\",\"\u{1f600}\":\"Emoji: Grinning Face\"}",
        ),
    ];
    assert!(rt; agree(rt.alloc(), &texts)?);
    Ok(())
}

/// A text, one byte repeated, and another text.
fn around(
    alloc: Global,
    front: &str,
    byte: u8,
    count: usize,
    back: &str,
) -> Result<Vec<u8>, AllocError> {
    let mut text = Vec::from_slice(alloc, front.as_bytes())?;
    for _ in 0..count {
        text.push(byte)?;
    }
    text.extend_from_slice(back.as_bytes())?;
    Ok(text)
}

#[test]
fn no_digit_of_many_is_lost(rt: HostRuntime) -> Result<(), NoTape> {
    let alloc = rt.alloc();
    let line = around(alloc, "1", b'0', 9_998, "7")?;
    let text = around(alloc, "1.", b'0', 9_998, "7e+9999")?;
    assert!(rt; canonical(alloc, &line)? == text);
    let line = around(alloc, "-12", b'0', 9_998, "")?;
    assert_eq!(rt;
        canonical(alloc, &line)?.as_slice(),
        b"-1.2e+9999".as_slice()
    );
    let line = around(alloc, "0.", b'0', 9_998, "12")?;
    assert_eq!(rt;
        canonical(alloc, &line)?.as_slice(),
        b"1.2e-9999".as_slice()
    );
    Ok(())
}

#[test]
fn values_may_nest_as_deep_as_they_are_read(rt: HostRuntime) -> Result<(), NoTape> {
    let alloc = rt.alloc();
    let mut line = around(alloc, "", b'[', 512, "")?;
    line.extend_from_slice(&around(alloc, "", b']', 512, "")?)?;
    assert!(rt; canonical(alloc, &line)? == line);
    Ok(())
}

/// An object with a given number of members, from the least name on, or from the greatest.
fn numbered(alloc: Global, count: u32, rises: bool) -> Result<Vec<u8>, AllocError> {
    let mut line = Vec::from_slice(alloc, b"{")?;
    for index in 0..count {
        let number = if rises { index } else { count - 1 - index };
        if index > 0 {
            line.push(b',')?;
        }
        let member = format!(in alloc; "\"n{number:05}\":{{\"b\":1,\"a\":2}}")?;
        line.extend_from_slice(member.as_bytes())?;
    }
    line.push(b'}')?;
    Ok(line)
}

#[test]
fn members_of_large_objects_are_sorted(rt: HostRuntime) -> Result<(), NoTape> {
    let alloc = rt.alloc();
    let text = canonical(alloc, &numbered(alloc, 5_000, true)?)?;
    assert!(rt; text.starts_with(b"{\"n00000\":{\"a\":2,\"b\":1},\"n00001\":"));
    assert!(rt; canonical(alloc, &numbered(alloc, 5_000, false)?)? == text);
    Ok(())
}

#[test]
fn text_is_appended_for_node_after_node(rt: HostRuntime) -> Result<(), NoTape> {
    let alloc = rt.alloc();
    let line = b"[{\"b\":1,\"a\":\"x\"},2.0,{\"d\":[],\"c\":null}]".as_slice();
    let tape = tape_of(alloc, line)?;
    let root = Cursor::root(&tape, line);
    let mut text = Vec::from_slice(alloc, b"> ")?;
    let mut printer = Printer::new(alloc);
    for place in 1..root.after() {
        printer.append(root.go_to(place), &mut text)?;
    }
    let wanted = b"> {\"a\":\"x\",\"b\":1}1\"x\"2{\"c\":null,\"d\":[]}[]null".as_slice();
    assert_eq!(rt; text.as_slice(), wanted);
    Ok(())
}
