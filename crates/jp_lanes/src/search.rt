//! The first special byte of a string, and equality of bytes.
ghost use Rattle.std.specs.Prelude.{◌≡◌, ◌↔◌, ℕ, ◌+◌, ◌<◌, ◌≤◌, IsTrue, true, false, map, length, slice_index};
ghost use Rattle.std.specs.Simd.Lanes.{mask_l, chunk};
ghost use Rattle.jp_lanes.specs.Search.{HasSpecial, IsFirstSpecial, is_special as is_special_byte};

use crate::widths::{BLOCK, EIGHTH, QUARTER, SIXTEENTH};
use std::simd::prelude::*;

/// Whether a byte has to be escaped: a quotation mark, a reverse solidus or a control character (RFC 8259, section 7).
fn is_special(byte: u8) -> bool
    ensures { result ≡ is_special_byte byte }
{
    byte == b'"' || byte == b'\\' || byte < 0x20
}

/// Bit i tells whether lane i is special.
#[inline(always)]
fn special_lanes<const N: usize>(lanes: Simd<u8, N>) -> u64
    requires { N ≤ 64 }
    ensures { result ≡ mask_l (map is_special_byte lanes.entry) }
{
    let quotes = lanes.simd_eq(Simd::splat(b'"'));
    let backslashes = lanes.simd_eq(Simd::splat(b'\\'));
    let controls = lanes.simd_lt(Simd::splat(0x20));
    (quotes | backslashes | controls).to_bitmask()
}

/// How many of the N bytes at a position come before the first special one.
#[inline(always)]
fn plain_run<const N: usize>(bytes: &[u8], at: usize) -> usize
    requires few { N ≤ 64 }
    requires inside { at + N ≤ length bytes.now }
    ensures most { result ≤ N }
    ensures plain { (k : ℕ) → at ≤ k → k < at + result
        → is_special_byte (slice_index bytes.now k) ≡ false }
    ensures stops { result < N → IsTrue (is_special_byte (slice_index bytes.now (at + result))) }
{
    let special = special_lanes(Simd::<u8, N>::from_slice(&bytes[at..]));
    if special == 0 {
        return N;
    }
    special.trailing_zeros() as usize
}

/// The first position at or after `from` where a quotation mark, a reverse solidus or a control
/// character is (RFC 8259, section 7), or the length if there is none.
pub fn first_special(bytes: &[u8], from: usize) -> usize
    requires { from ≤ length bytes.now }
    ensures order { from ≤ result }
    ensures within { result ≤ length bytes.now }
    ensures plain { (k : ℕ) → from ≤ k → k < result
        → is_special_byte (slice_index bytes.now k) ≡ false }
    ensures stops { result < length bytes.now
        → IsTrue (is_special_byte (slice_index bytes.now result)) }
{
    let mut at = from;
    while bytes.len() - at >= QUARTER {
        let run = plain_run::<QUARTER>(bytes, at);
        if run < QUARTER {
            return at + run;
        }
        at += QUARTER;
    }
    first_special_of_few(bytes, at)
}

/// The first special byte where fewer bytes are left than are looked at together: the last ones are, with some before them. It
/// is not inlined, so that the search of longer runs is.
#[inline(never)]
fn first_special_of_few(bytes: &[u8], from: usize) -> usize
    requires within { from ≤ length bytes.now }
    requires few { length bytes.now < from + 16 }
    ensures { IsFirstSpecial bytes.now from result }
{
    if bytes.len() < QUARTER {
        return first_special_of_fewer(bytes, from);
    }
    if from == bytes.len() {
        return from;
    }
    let last = bytes.len() - QUARTER;
    let special = special_lanes(Simd::<u8, QUARTER>::from_slice(&bytes[last..])) >> (from - last);
    if special == 0 {
        return bytes.len();
    }
    from + special.trailing_zeros() as usize
}

/// The first special byte where there are few bytes: eight at once, then four, and then byte by byte.
fn first_special_of_fewer(bytes: &[u8], from: usize) -> usize
    requires { from ≤ length bytes.now }
    ensures { IsFirstSpecial bytes.now from result }
{
    let mut at = from;
    if bytes.len() - at >= EIGHTH {
        let run = plain_run::<EIGHTH>(bytes, at);
        if run < EIGHTH {
            return at + run;
        }
        at += EIGHTH;
    }
    if bytes.len() - at >= SIXTEENTH {
        let run = plain_run::<SIXTEENTH>(bytes, at);
        if run < SIXTEENTH {
            return at + run;
        }
        at += SIXTEENTH;
    }
    first_special_plainly(bytes, at)
}

/// The first special byte, byte by byte.
fn first_special_plainly(bytes: &[u8], from: usize) -> usize
    requires { from ≤ length bytes.now }
    ensures { IsFirstSpecial bytes.now from result }
{
    let mut at = from;
    while at < bytes.len() && !is_special(bytes[at]) {
        at += 1;
    }
    at
}

/// Whether a special byte is among the first N bytes, or among the last N, which may be some of them.
#[inline(always)]
fn has_special_at_ends<const N: usize>(bytes: &[u8]) -> bool
    requires few { N ≤ 64 }
    requires least { N ≤ length bytes.now }
    requires most { length bytes.now ≤ N + N }
    ensures none { result ≡ false → (k : ℕ) → k < length bytes.now → is_special_byte (slice_index bytes.now k) ≡ false }
    ensures some { IsTrue result → HasSpecial bytes.now }
{
    plain_run::<N>(bytes, 0) < N || plain_run::<N>(bytes, bytes.len() - N) < N
}

/// Whether a quotation mark, a reverse solidus or a control character (RFC 8259, section 7) is among the bytes. Few bytes are
/// looked at by their ends.
#[inline(always)]
pub fn has_special(bytes: &[u8]) -> bool
    ensures none { result ≡ false → (k : ℕ) → k < length bytes.now → is_special_byte (slice_index bytes.now k) ≡ false }
    ensures some { IsTrue result → HasSpecial bytes.now }
{
    if bytes.len() > QUARTER {
        return first_special(bytes, 0) < bytes.len();
    }
    if bytes.len() >= EIGHTH {
        return has_special_at_ends::<EIGHTH>(bytes);
    }
    if bytes.len() >= SIXTEENTH {
        return has_special_at_ends::<SIXTEENTH>(bytes);
    }
    first_special_plainly(bytes, 0) < bytes.len()
}

/// Whether two runs have the same N bytes at a position.
#[inline(always)]
fn equal_blocks<const N: usize>(a: &[u8], b: &[u8], at: usize) -> bool
    requires few { N ≤ 64 }
    requires first { at + N ≤ length a.now }
    requires second { at + N ≤ length b.now }
    ensures { IsTrue result ↔ (chunk at N a.now ≡ chunk at N b.now) }
{
    let first = Simd::<u8, N>::from_slice(&a[at..]);
    let second = Simd::<u8, N>::from_slice(&b[at..]);
    first.simd_ne(second).to_bitmask() == 0
}

/// Whether two runs have the same first N bytes, and the same last N, which may be some of them.
#[inline(always)]
fn equal_ends<const N: usize>(a: &[u8], b: &[u8]) -> bool
    requires few { N ≤ 64 }
    requires size { length a.now ≡ length b.now }
    requires least { N ≤ length a.now }
    requires most { length a.now ≤ N + N }
    ensures { IsTrue result ↔ (a.now ≡ b.now) }
{
    equal_blocks::<N>(a, b, 0) && equal_blocks::<N>(a, b, a.len() - N)
}

/// Whether two runs of one length differ in the first N bytes, or in the last N.
#[inline(always)]
fn end_blocks_differ<const N: usize>(a: &[u8], b: &[u8]) -> bool
    requires few { N ≤ 64 }
    requires size { length a.now ≡ length b.now }
    requires least { N ≤ length a.now }
    ensures { result ≡ true → a.now ≡ b.now → ⊥ }
{
    if !equal_blocks::<N>(a, b, 0) {
        return true;
    }
    !equal_blocks::<N>(a, b, a.len() - N)
}

/// Whether two runs of bytes are known to differ: in their lengths, or in some of their first or last bytes. That is told by one
/// or two looks, however long they are, and not of runs that differ elsewhere alone.
#[inline(always)]
pub fn ends_differ(a: &[u8], b: &[u8]) -> bool
    ensures { result ≡ true → a.now ≡ b.now → ⊥ }
{
    if a.len() != b.len() {
        return true;
    }
    if a.len() >= EIGHTH {
        return end_blocks_differ::<EIGHTH>(a, b);
    }
    if a.len() >= SIXTEENTH {
        return end_blocks_differ::<SIXTEENTH>(a, b);
    }
    if a.is_empty() {
        return false;
    }
    let last = a.len() - 1;
    if a[0] != b[0] {
        return true;
    }
    a[last] != b[last]
}

/// Whether two runs of one length are equal, where they are short: most names of a line are.
#[inline(always)]
fn equal_few(a: &[u8], b: &[u8]) -> bool
    requires size { length a.now ≡ length b.now }
    requires few { length a.now ≤ 16 }
    ensures { IsTrue result ↔ (a.now ≡ b.now) }
{
    if a.len() >= EIGHTH {
        return equal_ends::<EIGHTH>(a, b);
    }
    if a.len() >= SIXTEENTH {
        return equal_ends::<SIXTEENTH>(a, b);
    }
    a == b
}

/// Whether two runs of any length are equal. It is not inlined.
#[inline(never)]
fn equal_many(a: &[u8], b: &[u8]) -> bool
    requires { length a.now ≡ length b.now }
    ensures { IsTrue result ↔ (a.now ≡ b.now) }
{
    let mut at = 0;
    while a.len() - at >= BLOCK {
        if !equal_blocks::<BLOCK>(a, b, at) {
            return false;
        }
        at += BLOCK;
    }
    a[at..] == b[at..]
}

/// Whether two runs of bytes are the same.
#[inline(always)]
pub fn equal_bytes(a: &[u8], b: &[u8]) -> bool
    ensures { IsTrue result ↔ (a.now ≡ b.now) }
{
    if a.len() != b.len() {
        return false;
    }
    if a.len() <= QUARTER {
        return equal_few(a, b);
    }
    equal_many(a, b)
}
