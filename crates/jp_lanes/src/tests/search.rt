//! The searches, at each position.

use crate::{digits_end, equal_bytes, first_escape, first_special, has_special};
use std::alloc::{AllocError, Global};
use std::test::Fail;

#[test]
fn the_first_special_byte_is_found(rt: HostRuntime) -> Result<(), Fail> {
    assert_eq!(rt; first_special(b"", 0), 0);
    assert!(rt; !has_special(b"") && has_special(b"\\"));
    let mut bytes = Vec::new(rt.alloc());
    for _ in 0..200 {
        bytes.push(b'x')?;
    }
    assert_eq!(rt; first_special(bytes.as_slice(), 0), 200);
    let specials = [b'"', b'\\', 0x1f];
    for i in 0..200usize {
        let mut marked = bytes.clone()?;
        assert_eq!(rt; marked.len(), 200);
        marked[i] = specials[i % 3];
        assert_eq!(rt; first_special(marked.as_slice(), 0), i);
        if i < 199 {
            assert_eq!(rt; first_special(marked.as_slice(), i + 1), 200);
        }
    }
    Ok(())
}

/// Whether the special byte at each position of a text of that length is found, and none if there is none.
fn each_position_is_found(alloc: Global, size: usize) -> Result<bool, AllocError> {
    let mut bytes = Vec::new(alloc);
    for _ in 0..size {
        bytes.push(b'x')?;
    }
    let specials = [b'"', b'\\', 0x1f];
    for position in 0..bytes.len() {
        bytes[position] = specials[position % 3];
        let found = first_special(&bytes, 0) == position
            && first_special(&bytes, position) == position;
        let has = has_special(&bytes);
        bytes[position] = b' ';
        if !found || !has || has_special(&bytes) || first_special(&bytes, position) != bytes.len() {
            return Ok(false);
        }
    }
    Ok(first_special(&bytes, bytes.len()) == bytes.len())
}

#[test]
fn a_special_byte_is_found_in_short_texts(rt: HostRuntime) -> Result<(), Fail> {
    for size in 0..131usize {
        assert!(rt; each_position_is_found(rt.alloc(), size)?);
    }
    Ok(())
}

/// Whether a reverse solidus or a control character at each position of a text of that length is found, from the front and from
/// the position after it.
fn each_escape_is_found(alloc: Global, size: usize) -> Result<bool, AllocError> {
    let mut bytes = Vec::new(alloc);
    for _ in 0..size {
        bytes.push(b'"')?;
    }
    let escapes = [b'\\', 0, 0x1f];
    for position in 0..bytes.len() {
        bytes[position] = escapes[position % 3];
        let found = first_escape(&bytes, 0) == position
            && first_escape(&bytes, position) == position
            && first_escape(&bytes, position + 1) == bytes.len();
        bytes[position] = b' ';
        if !found {
            return Ok(false);
        }
    }
    Ok(first_escape(&bytes, 0) == bytes.len() && first_escape(&bytes, bytes.len()) == bytes.len())
}

#[test]
fn an_escape_is_found_in_texts_of_any_length(rt: HostRuntime) -> Result<(), Fail> {
    for size in 0..135usize {
        assert!(rt; each_escape_is_found(rt.alloc(), size)?);
    }
    Ok(())
}

#[test]
fn digits_end_at_the_first_other_byte(rt: HostRuntime) -> Result<(), Fail> {
    let digits = b"0123456789012345678901234567890123456789";
    for end in 0..41usize {
        assert_eq!(rt; digits_end(&digits[..end], 0), end);
        for other in [b'/', b':', 0, 0xff] {
            let mut bytes = Vec::new(rt.alloc());
            bytes.extend_from_slice(&digits[..end])?;
            bytes.push(other)?;
            bytes.extend_from_slice(digits)?;
            for from in 0..end {
                assert_eq!(rt; digits_end(&bytes, from), end);
            }
            assert_eq!(rt; digits_end(&bytes, end), end);
        }
    }
    Ok(())
}

#[test]
fn one_byte_tells_apart(rt: HostRuntime) -> Result<(), Fail> {
    assert!(rt; equal_bytes(b"", b""));
    assert!(rt; !equal_bytes(b"a", b""));
    let mut bytes = Vec::new(rt.alloc());
    for _ in 0..200 {
        bytes.push(b'x')?;
    }
    assert!(rt; equal_bytes(bytes.as_slice(), bytes.as_slice()));
    for i in 0..200usize {
        let mut other = bytes.clone()?;
        assert_eq!(rt; other.len(), 200);
        other[i] = b'y';
        assert!(rt; !equal_bytes(bytes.as_slice(), other.as_slice()));
    }
    Ok(())
}
