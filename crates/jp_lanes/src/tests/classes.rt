//! The classes of each byte in each lane.

ghost use Rattle.std.specs.Prelude.{◌<◌};

use crate::{are_ascii, classify, pad, separators};
use std::process::Abort;

/// A byte in a lane, with letters in the others.
fn is_told(rt: &impl Abort, byte: u8, lane: usize)
    requires { lane < 64 }
{
    let mut block = [b'a'; 64];
    block[lane] = byte;
    let classes = classify(&block);
    let bit = |is: bool| if is { 1u64 << lane } else { 0 };
    assert_eq!(rt; classes.backslash, bit(byte == b'\\'));
    assert_eq!(rt; classes.quote, bit(byte == b'"'));
    assert_eq!(rt;
        classes.structural,
        bit(matches!(byte, b'{' | b'}' | b'[' | b']' | b':' | b','))
    );
    assert_eq!(rt;
        classes.white,
        bit(matches!(byte, b' ' | b'\t' | b'\n' | b'\r'))
    );
    assert_eq!(rt; classes.control, bit(byte < 0x20));
    assert_eq!(rt; classes.line_feed, bit(byte == b'\n'));
    assert_eq!(rt; separators(&block), bit(byte == 0x1E));
    assert_eq!(rt; are_ascii(&block), byte < 0x80);
}

#[test]
fn each_byte_is_told_in_each_lane(rt: HostRuntime) {
    for lane in 0..64 {
        for byte in 0..=u8::MAX {
            is_told(&rt, byte, lane);
        }
    }
}

#[test]
fn a_short_block_ends_in_zeros(rt: HostRuntime) {
    let block = pad(b"ab");
    assert_eq!(&rt; block[..4], *b"ab\0\0".as_slice());
    assert_eq!(&rt; block[63], 0);
}
