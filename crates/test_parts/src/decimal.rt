//! What the numbers of `jp_decimal` answer: which texts are read (RFC 8259 section 6), how two compare, and which key each has.

use jp_decimal::{Decimal, NumberFault, laws};
use std::alloc::{AllocError, Global};
use std::cmp::Ordering;
use std::test::Fail;

/// The number of a text that is not too long to be read.
fn number(text: &[u8]) -> Result<Decimal<'_>, Fail> {
    if text.len() >= 1 << 32 {
        return Err("too long".into());
    }
    Ok(Decimal::read(text)?)
}

/// Bytes in front, as many zeros, and bytes after.
fn with_zeros(
    alloc: Global,
    front: &[u8],
    zeros: usize,
    behind: &[u8],
) -> Result<Vec<u8>, AllocError> {
    let mut text = Vec::from_slice(alloc, front)?;
    for _zero in 0..zeros {
        text.push(b'0')?;
    }
    text.extend_from_slice(behind)?;
    Ok(text)
}

#[test]
fn long_numbers_are_compared_with_short_ones(rt: HostRuntime) -> Result<(), Fail> {
    let zeros = 10_000;
    let whole = with_zeros(rt.alloc(), b"1", zeros, b"")?;
    let fraction = with_zeros(rt.alloc(), b"0.", zeros, b"1e10001")?;
    let more = with_zeros(rt.alloc(), b"1", zeros - 1, b"1")?;
    let none = with_zeros(rt.alloc(), b"0.", zeros, b"")?;
    let whole = number(&whole)?;
    assert!(rt; whole.equal(&Decimal::read(b"1e10000")?));
    let fraction = number(&fraction)?;
    assert!(rt; fraction.equal(&Decimal::read(b"1")?));
    let more = number(&more)?;
    assert_eq!(rt; more.compare(&whole), Ordering::Greater);
    assert_eq!(rt; Decimal::read(b"1e10000")?.compare(&more), Ordering::Less);
    assert!(rt; number(&none)?.equal(&Decimal::read(b"-0")?));
    Ok(())
}

#[test]
fn other_bytes_are_refused(rt: HostRuntime) {
    assert!(rt; matches!(Decimal::read(b"01"), Err(NumberFault::Shape)));
    assert!(rt; matches!(Decimal::read(b"1."), Err(NumberFault::Shape)));
    assert!(rt; matches!(Decimal::read(b"1 "), Err(NumberFault::Shape)));
    assert!(rt; matches!(Decimal::read(b""), Err(NumberFault::Shape)));
    assert!(rt;
        matches!(
            Decimal::read(b"1e1000000000000000"),
            Err(NumberFault::Exponent)
        )
    );
}

#[test]
fn one_value_has_one_key(rt: HostRuntime) -> Result<(), Fail> {
    let alloc = rt.alloc();
    let one = Decimal::read(b"1.0")?.canonical(alloc)?;
    let same = Decimal::read(b"100e-2")?.canonical(alloc)?;
    assert!(rt; one == same);
    assert!(rt; one.is_same(&same));
    let zero = Decimal::read(b"0e5")?.canonical(alloc)?;
    let minus_zero = Decimal::read(b"-0")?.canonical(alloc)?;
    assert!(rt; zero == minus_zero);
    assert!(rt; !one.is_same(&zero));
    Ok(())
}

#[test]
fn keys_are_ordered(rt: HostRuntime) -> Result<(), Fail> {
    let alloc = rt.alloc();
    let zero = Decimal::read(b"0")?.canonical(alloc)?;
    let below = Decimal::read(b"-12.5")?.canonical(alloc)?;
    let above = Decimal::read(b"0.5e-20")?.canonical(alloc)?;
    assert!(rt; below < zero);
    assert!(rt; zero < above);
    assert_eq!(rt; below.order(&above), Ordering::Less);
    laws::keys_are_ordered_as_values();
    Ok(())
}

#[test]
fn a_copy_is_the_same_key(rt: HostRuntime) -> Result<(), Fail> {
    let alloc = rt.alloc();
    let key = Decimal::read(b"-12.5e7")?.canonical(alloc)?;
    assert!(rt; key.copy(alloc)? == key);
    Ok(())
}
