//! The first reverse solidus or control character.

ghost use Rattle.std.specs.Prelude.{◌≡◌, ◌+◌, ◌<◌, ◌≤◌, map, length};
ghost use Rattle.std.specs.Simd.Lanes.{mask_l, chunk};
ghost use Rattle.jp_lanes.specs.First.{IsFirst, is_escape as is_escape_byte};

use crate::widths::{BLOCK, QUARTER, SIXTEENTH};
use std::simd::prelude::*;

/// Whether a byte is a reverse solidus, or a control character below 0x20.
fn is_escape(byte: u8) -> bool
    ensures { result ≡ is_escape_byte byte }
{
    byte == b'\\' || byte < 0x20
}

/// Bit i tells whether lane i is an escape.
#[inline(always)]
fn escape_lanes<const N: usize>(lanes: Simd<u8, N>) -> u64
    requires { N ≤ 64 }
    ensures { result ≡ mask_l (map is_escape_byte lanes.entry) }
{
    let backslashes = lanes.simd_eq(Simd::splat(b'\\'));
    let controls = lanes.simd_lt(Simd::splat(0x20));
    (backslashes | controls).to_bitmask()
}

/// Bit i tells whether the byte i after a position is an escape.
#[inline(always)]
fn escapes_at<const N: usize>(bytes: &[u8], at: usize) -> u64
    requires few { N ≤ 64 }
    requires inside { at + N ≤ length bytes.now }
    ensures { result ≡ mask_l (map is_escape_byte (chunk at N bytes.now)) }
{
    escape_lanes(Simd::<u8, N>::from_slice(&bytes[at..]))
}

/// The first escape among fewer than N last bytes, which are looked at together with some before them.
#[inline(always)]
fn first_escape_of_rest<const N: usize>(bytes: &[u8], from: usize) -> usize
    requires few { N ≤ 64 }
    requires block { N ≤ length bytes.now }
    requires within { from ≤ length bytes.now }
    requires rest { length bytes.now < from + N }
    ensures { IsFirst is_escape_byte bytes.now from result }
{
    if from == bytes.len() {
        return from;
    }
    let last = bytes.len() - N;
    let escapes = escapes_at::<N>(bytes, last) >> (from - last);
    if escapes == 0 {
        return bytes.len();
    }
    from + escapes.trailing_zeros() as usize
}

/// The first escape, N bytes at a time.
#[inline(always)]
fn first_escape_by<const N: usize>(bytes: &[u8], from: usize) -> usize
    requires some { 0 < N }
    requires few { N ≤ 64 }
    requires block { N ≤ length bytes.now }
    requires within { from ≤ length bytes.now }
    ensures { IsFirst is_escape_byte bytes.now from result }
{
    let mut at = from;
    while bytes.len() - at >= N {
        let escapes = escapes_at::<N>(bytes, at);
        if escapes != 0 {
            return at + escapes.trailing_zeros() as usize;
        }
        at += N;
    }
    first_escape_of_rest::<N>(bytes, at)
}

/// The first escape, byte by byte.
fn first_escape_plainly(bytes: &[u8], from: usize) -> usize
    requires { from ≤ length bytes.now }
    ensures { IsFirst is_escape_byte bytes.now from result }
{
    let mut at = from;
    while at < bytes.len() && !is_escape(bytes[at]) {
        at += 1;
    }
    at
}

/// The first position at or after `from` where a reverse solidus or a control character is (RFC 8259, section 7), or the length
/// if there is none.
#[inline(never)]
pub fn first_escape(bytes: &[u8], from: usize) -> usize
    requires { from ≤ length bytes.now }
    ensures { IsFirst is_escape_byte bytes.now from result }
{
    if bytes.len() >= BLOCK {
        return first_escape_by::<BLOCK>(bytes, from);
    }
    if bytes.len() >= QUARTER {
        return first_escape_by::<QUARTER>(bytes, from);
    }
    if bytes.len() >= SIXTEENTH {
        return first_escape_by::<SIXTEENTH>(bytes, from);
    }
    first_escape_plainly(bytes, from)
}
