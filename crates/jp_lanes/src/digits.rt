//! Where digits end.

ghost use Rattle.std.specs.Prelude.{◌≡◌, ◌+◌, ◌<◌, ◌≤◌, IfSome, map, length};
ghost use Rattle.std.specs.Simd.Lanes.{mask_l, chunk};
ghost use Rattle.jp_model.specs.Characters.{is_digit as is_digit_byte};
ghost use Rattle.jp_lanes.specs.First.{IsFirst, is_other};

use crate::widths::QUARTER;
use std::simd::prelude::*;

/// Whether a byte is an ASCII digit.
fn is_digit(byte: u8) -> bool
    ensures { result ≡ is_digit_byte byte }
{
    byte >= b'0' && byte <= b'9'
}

/// Bit i tells whether lane i is no digit.
#[inline(always)]
fn other_lanes(lanes: Simd<u8, QUARTER>) -> u64
    ensures { result ≡ mask_l (map is_other lanes) }
{
    let below = lanes.simd_lt(Simd::splat(b'0'));
    let above = lanes.simd_gt(Simd::splat(b'9'));
    (below | above).to_bitmask()
}

/// Where digits end, byte by byte.
fn digits_end_plainly(bytes: &[u8], from: usize) -> usize
    requires { from ≤ length bytes.now }
    ensures { IsFirst is_other bytes.now from result }
{
    let mut at = from;
    while at < bytes.len() && is_digit(bytes[at]) {
        at += 1;
    }
    at
}

/// The first position at or after `from` with no digit (RFC 8259, section 6), or the length. Few numbers have more digits than
/// are looked at together.
#[inline(always)]
pub fn digits_end(bytes: &[u8], from: usize) -> usize
    requires { from ≤ length bytes.now }
    ensures { IsFirst is_other bytes.now from result }
{
    if bytes.len() - from < QUARTER {
        return digits_end_plainly(bytes, from);
    }
    let others = other_lanes(Simd::<u8, QUARTER>::from_slice(&bytes[from..]));
    if others == 0 {
        return digits_end_plainly(bytes, from + QUARTER);
    }
    from + others.trailing_zeros() as usize
}

/// The first position at or after `from` with no digit (RFC 8259, section 6), and the first one after that, where both are
/// among the bytes that are looked at together.
#[inline(always)]
pub fn digits_ends(bytes: &[u8], from: usize) -> Option<(usize, usize)>
    requires { from ≤ length bytes.now }
    ensures first { IfSome result (λ ends. IsFirst is_other bytes.now from ends.0) }
    ensures second { IfSome result (λ ends. IsFirst is_other bytes.now (ends.0 + 1) ends.1) }
    ensures inside { IfSome result (λ ends. ends.1 < length bytes.now) }
{
    if bytes.len() - from < QUARTER {
        return None;
    }
    let others = other_lanes(Simd::<u8, QUARTER>::from_slice(&bytes[from..]));
    if others == 0 {
        return None;
    }
    let first = others.trailing_zeros() as usize;
    let later = others >> first >> 1;
    if later == 0 {
        return None;
    }
    Some((
        from + first,
        from + first + 1 + later.trailing_zeros() as usize,
    ))
}
