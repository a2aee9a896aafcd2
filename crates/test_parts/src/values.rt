//! Keys of values, and counts that no query can have.

use super::tapes::tape_of;
use jp_syntax::{CompareOp, Literal};
use jp_tape::Cursor;
use jp_values::{Key, Value, compare, key_of, key_of_literal, laws};
use std::alloc::Global;
use std::cmp::Ordering;
use std::test::Fail;

/// The key of a text's value.
fn key(alloc: Global, line: &[u8]) -> Result<Option<Key>, Fail> {
    let tape = tape_of(alloc, line)?;
    Ok(key_of(alloc, Cursor::root(&tape, line))?)
}

/// The order of the keys of two texts, where both have one.
fn key_order(alloc: Global, left: &[u8], right: &[u8]) -> Result<Option<Ordering>, Fail> {
    match (key(alloc, left)?, key(alloc, right)?) {
        (Some(left), Some(right)) => Ok(Some(left.order(&right))),
        _ => Ok(None),
    }
}

#[test]
fn counts_are_compared_as_numbers(rt: HostRuntime) -> Result<(), Fail> {
    let line = b"[18446744073709551615, 20e-1]".as_slice();
    let tape = tape_of(rt.alloc(), line)?;
    let root = Cursor::root(&tape, line);
    if root.after() < 3 {
        return Err("too few nodes".into());
    }
    let most = Value::Node(root.go_to(1));
    let two = Value::Node(root.go_to(2));
    assert!(rt; compare(CompareOp::Equal, most, Value::Count(u64::MAX)));
    assert!(rt; compare(CompareOp::Greater, Value::Count(u64::MAX), two));
    assert!(rt; compare(CompareOp::Equal, Value::Count(2), two));
    assert!(rt; compare(CompareOp::Less, Value::Count(0), Value::Count(1)));
    assert!(rt; !compare(CompareOp::Equal, Value::Count(2), Value::Node(root)));
    Ok(())
}

#[test]
fn keys_are_ordered_as_values(rt: HostRuntime) -> Result<(), Fail> {
    let alloc = rt.alloc();
    assert_eq!(rt; key_order(alloc, b"1.0", b"100e-2")?, Some(Ordering::Equal));
    assert_eq!(rt; key_order(alloc, b"0e5", b"-0")?, Some(Ordering::Equal));
    assert_eq!(rt; key_order(alloc, b"-10", b"-9.5")?, Some(Ordering::Less));
    assert_eq!(rt; key_order(alloc, b"null", b"false")?, Some(Ordering::Less));
    assert_eq!(rt;
        key_order(alloc, b"true", b"false")?,
        Some(Ordering::Greater)
    );
    assert_eq!(rt; key_order(alloc, b"true", b"-1e99")?, Some(Ordering::Less));
    assert_eq!(rt; key_order(alloc, b"1e99", b"\"\"")?, Some(Ordering::Less));
    assert_eq!(rt;
        key_order(alloc, b"\"\\u0061\"", b"\"a\"")?,
        Some(Ordering::Equal)
    );
    assert_eq!(rt;
        key_order(alloc, b"\"\\uffff\"", b"\"\\ud800\\udc00\"")?,
        Some(Ordering::Less)
    );
    assert_eq!(rt;
        key_order(alloc, b"\"\x7f\"", b"\"\xc2\x80\"")?,
        Some(Ordering::Less)
    );
    assert!(rt; key(alloc, b"[1]")?.is_none());
    assert!(rt; key(alloc, b"{}")?.is_none());
    laws::keys_are_ordered_as_values();
    Ok(())
}

#[test]
fn scalars_alone_have_keys_and_copies_are_equal(rt: HostRuntime) -> Result<(), Fail> {
    let alloc = rt.alloc();
    assert!(rt; key(alloc, b"[]")?.is_none());
    assert!(rt; key(alloc, b"null")? == Some(Key::Null));
    for line in [b"1.0".as_slice(), b"\"a\"", b"true"] {
        let Some(found) = key(alloc, line)? else {
            return Err("no key".into());
        };
        let copy = found.copy(alloc)?;
        assert!(rt; copy == found && copy.is_same(&found));
    }
    Ok(())
}

#[test]
fn literals_have_the_keys_of_their_values(rt: HostRuntime) -> Result<(), Fail> {
    let alloc = rt.alloc();
    let text = Literal::Text(String::from_str(alloc, "\u{1f600}")?);
    let written = key_of_literal(alloc, &text)?;
    let found = key(alloc, b"\"\\ud83d\\ude00\"")?;
    assert!(rt;
        match &found {
            Some(found) => found.is_same(&written) && *found == written,
            None => false,
        }
    );
    let copy = written.copy(alloc)?;
    assert!(rt; copy == written);
    assert!(rt; key_of_literal(alloc, &Literal::Null)? == Key::Null);
    assert!(rt; key_of_literal(alloc, &Literal::True)? > Key::False);
    assert!(rt; !written.is_same(&Key::True));
    Ok(())
}
