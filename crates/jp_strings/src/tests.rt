//! Tests of bodies of strings, on texts of each length beside a lane.

use super::*;
use std::alloc::{AllocError, Global};
use std::cmp::Ordering;
use std::test::Fail;

/// A body of `size` letters with an escape after the first `position`.
fn body_with(
    alloc: Global,
    size: usize,
    position: usize,
    escape: &[u8],
) -> Result<Vec<u8>, AllocError> {
    let mut body = Vec::new(alloc);
    for i in 0..size {
        if i == position {
            body.extend_from_slice(escape)?;
        }
        body.push(b'x')?;
    }
    if position >= size {
        body.extend_from_slice(escape)?;
    }
    Ok(body)
}

#[test]
fn faults_are_told(rt: HostRuntime) {
    assert_eq!(rt; test_body(b""), Ok(()));
    assert_eq!(rt; test_body(b"\\x"), Err(StringFault::Shape));
    assert_eq!(rt; test_body(b"\\udc00"), Err(StringFault::Surrogate));
    assert_eq!(rt;
        test_body(b"\\ud800\\ud800\\udc00"),
        Err(StringFault::Surrogate)
    );
    assert_eq!(rt; test_body(b"\\ud800x\\udc00"), Err(StringFault::Surrogate));
    assert_eq!(rt; test_body(b"\\ud800\\udc00"), Ok(()));
    assert_eq!(rt; test_body(b"\\udc00\\u12g4"), Err(StringFault::Shape));
    assert_eq!(rt; test_body(b"\\u123"), Err(StringFault::Shape));
    assert_eq!(rt; test_body(b"\\"), Err(StringFault::Shape));
    assert_eq!(rt; test_body(b"a\"b"), Err(StringFault::Shape));
    assert_eq!(rt; test_body(b"a\tb"), Err(StringFault::Shape));
    assert_eq!(rt; test_body(b"\xed\xa0\x80"), Err(StringFault::Shape));
    assert_eq!(rt;
        test_body(b"\\\"\\\\\\/\\b\\f\\n\\r\\t\\u00E9\xc3\xa9"),
        Ok(())
    );
}

#[test]
fn bodies_of_utf8_are_tested(rt: HostRuntime) {
    assert_eq!(rt; test_utf8_body("é\\n\\ud834\\udd1e".as_bytes()), Ok(()));
    assert_eq!(rt; test_utf8_body("é\\q".as_bytes()), Err(StringFault::Shape));
    assert_eq!(rt;
        test_utf8_body("\\ud834é".as_bytes()),
        Err(StringFault::Surrogate)
    );
}

#[test]
fn plain_bodies_are_texts(rt: HostRuntime) -> Result<(), Fail> {
    let (plain, escaped): (&[u8], &[u8]) = (b"ring twice \xc3\xa9", b"a\\u0062");
    test_body(plain)?;
    test_body(escaped)?;
    assert_eq!(rt; plain_text(plain), Some("ring twice é"));
    assert_eq!(rt; plain_text(escaped), None);
    Ok(())
}

#[test]
fn escapes_stand_anywhere(rt: HostRuntime) -> Result<(), Fail> {
    for size in [0usize, 63, 64, 65] {
        for position in 0..=size {
            let short = body_with(rt.alloc(), size, position, b"\\n")?;
            let long = body_with(rt.alloc(), size, position, b"\\u000a")?;
            let spelled = body_with(rt.alloc(), size, position, b"\n")?;
            let (short, long) = (short.as_slice(), long.as_slice());
            test_body(short)?;
            test_body(long)?;
            assert!(rt; equal(short, long));
            assert_eq!(rt; compare(short, long), Ordering::Equal);
            assert_eq!(rt; unescape(rt.alloc(), long)?.as_bytes(), spelled.as_slice());
        }
    }
    Ok(())
}

#[test]
fn scalars_are_compared(rt: HostRuntime) -> Result<(), Fail> {
    let (last, astral): (&[u8], &[u8]) = (b"\\uffff", b"\\ud800\\udc00");
    test_body(last)?;
    test_body(astral)?;
    assert_eq!(rt; compare(last, astral), Ordering::Less);
    assert!(rt; !equal(last, astral));
    let (escaped, letter): (&[u8], &[u8]) = (b"\\u0061", b"a");
    test_body(escaped)?;
    test_body(letter)?;
    assert!(rt; equal(escaped, letter));
    assert!(rt; spells(escaped, "a") && spells(letter, "a") && !spells(letter, "b"));
    assert_eq!(rt; compare_text(escaped, "b"), Ordering::Less);
    assert_eq!(rt; compare_text(letter, "A"), Ordering::Greater);
    let longer: &[u8] = b"a\\n";
    test_body(longer)?;
    assert_eq!(rt; compare(letter, longer), Ordering::Less);
    assert!(rt; spells(longer, "a\n") && !spells(longer, "a") && !spells(longer, "b"));
    let plain: &[u8] = b"ab";
    test_body(plain)?;
    assert!(rt;
        spells(plain, "ab") && !spells(plain, "a") && !spells(plain, "abc") && !spells(plain, "")
    );
    assert!(rt; !spells(escaped, "\\u0061") && !spells(escaped, ""));
    Ok(())
}

#[test]
fn plain_texts_are_spelled(rt: HostRuntime) -> Result<(), Fail> {
    let text = "ring";
    assert!(rt;
        !is_plain(b"ring\\n") && !is_plain(b"\"ring") && !is_plain(b"\x1f") && is_plain(b"")
    );
    assert!(rt; is_plain(text.as_bytes()));
    let (same, escaped): (&[u8], &[u8]) = (b"ring", b"r\\u0069ng");
    let (other, longer): (&[u8], &[u8]) = (b"rink", b"rings");
    test_body(same)?;
    test_body(escaped)?;
    assert!(rt; spells_known(same, text, true) && spells_known(escaped, text, true));
    test_body(other)?;
    test_body(longer)?;
    assert!(rt; spells_known(escaped, text, false) && !spells_known(longer, text, false));
    assert!(rt; !spells_known(other, text, true) && !spells_known(longer, text, true));
    Ok(())
}

#[test]
fn control_characters_are_escaped(rt: HostRuntime) {
    assert_eq!(rt; &control_escape(0x0B), b"\\u000b");
    assert_eq!(rt; &control_escape(0x1F), b"\\u001f");
}

#[test]
fn scalars_are_yielded(rt: HostRuntime) -> Result<(), Fail> {
    let body: &[u8] = b"x\\ud83d\\ude00\xc3\xa9\\/";
    test_body(body)?;
    assert_eq!(rt; scalar_count(body), 4);
    let mut scalars = Scalars::new(body);
    assert_eq!(rt; scalars.next(), Some('x'));
    assert_eq!(rt; scalars.next(), Some('\u{1F600}'));
    assert_eq!(rt; scalars.next(), Some('é'));
    assert_eq!(rt; scalars.next(), Some('/'));
    assert_eq!(rt; scalars.next(), None);
    assert_eq!(rt; unescape(rt.alloc(), body)?.as_str(), "x\u{1F600}é/");
    Ok(())
}

#[test]
fn bodies_are_unescaped_into_one_buffer(rt: HostRuntime) -> Result<(), Fail> {
    let (first, second): (&[u8], &[u8]) = (b"ring \\\"twice\\\"\\u00e9", b"\\ud83d\\ude00x");
    test_body(first)?;
    test_body(second)?;
    let mut text = String::new(rt.alloc());
    unescape_into(&mut text, first)?;
    assert_eq!(rt; text.as_str(), "ring \"twice\"é");
    unescape_into(&mut text, second)?;
    assert_eq!(rt; text.as_str(), "\u{1F600}x");
    Ok(())
}

#[test]
fn plain_bodies_are_ordered_by_scalars(rt: HostRuntime) -> Result<(), Fail> {
    let bodies = [
        "",
        "a",
        "ab",
        "b",
        "\u{e9}",
        "\u{ffff}",
        "\u{10000}",
        "\u{10ffff}",
    ];
    for (i, first) in bodies.iter().enumerate() {
        test_body(first.as_bytes())?;
        for (j, second) in bodies.iter().enumerate() {
            test_body(second.as_bytes())?;
            assert_eq!(rt; compare(first.as_bytes(), second.as_bytes()), i.cmp(&j));
            assert_eq!(rt; equal(first.as_bytes(), second.as_bytes()), i == j);
        }
    }
    Ok(())
}
