//! Bytes that are passed over, since none of them ends the open piece: block by block where a bracket of the piece is open, and
//! byte by byte where none is.

ghost use Rattle.std.specs.Prelude.{◌≡◌, ◌==◌, ◌||◌, ◌+◌, ◌<◌, ◌≤◌, ℕ, true, false, length, map, take};
ghost use Rattle.std.specs.Simd.Lanes.{mask_l};
ghost use Rattle.jp_lanes.specs.Word.{bit};
ghost use Rattle.jp_cut.specs.Machine.{is_closing as is_closing_byte, is_opening as is_opening_byte};
ghost use Rattle.jp_cut.specs.Passing.{Keeps, Passes, StaysOpen, behind_all, open_before};

use crate::machine::{Known, Pieces, Turn, is_inside, step_on};
use jp_masks::{Carry, scan_block};
use std::simd::prelude::*;

/// How many bytes a block has.
pub const BLOCK: usize = 64;

/// What was passed over of some bytes of a piece, and what is known after it.
#[derive(Clone, Copy, Debug, PartialEq, Eq)]
pub struct Passed {
    /// How many bytes were passed over.
    pub len: usize,
    pub known: Known,
}

/// The brackets among 64 bytes, in strings too: bit k of a word tells whether byte k is one.
#[derive(Clone, Copy)]
struct Brackets {
    opening: u64,
    closing: u64,
}

/// The lanes that are one of two bytes.
#[inline(always)]
fn either(lanes: u8x64, first: u8, second: u8) -> u64
    ensures { result ≡ mask_l (map (λ byte. (byte == first) || (byte == second)) lanes) }
{
    let firsts = lanes.simd_eq(u8x64::splat(first));
    let seconds = lanes.simd_eq(u8x64::splat(second));
    (firsts | seconds).to_bitmask()
}

/// The brackets among 64 bytes.
#[inline(always)]
fn find_brackets(bytes: &[u8; 64]) -> Brackets
    ensures opening { result.opening ≡ mask_l (map is_opening_byte bytes.now) }
    ensures closing { result.closing ≡ mask_l (map is_closing_byte bytes.now) }
{
    let lanes = u8x64::from_array(*bytes);
    Brackets {
        opening: either(lanes, b'[', b'{'),
        closing: either(lanes, b']', b'}'),
    }
}

/// The first position from one on whose bit is set, or 64.
#[inline(always)]
fn first_bit(word: u64, from: usize) -> usize
    requires { from < BLOCK }
    ensures from { from ≤ result }
    ensures within { result ≤ BLOCK }
    ensures between { (i : ℕ) → from ≤ i → i < result → bit word i ≡ false }
    ensures there { result < BLOCK → bit word result ≡ true }
{
    let rest = word >> from;
    if rest == 0 {
        return BLOCK;
    }
    from + rest.trailing_zeros() as usize
}

/// The position among 64 bytes of the bracket that closes the last open one of a piece, or 64 if one stays open. The bits tell
/// which bytes open a bracket and which close one.
fn find_end(depth: usize, opening: u64, closing: u64) -> usize
    requires some { 0 < depth }
    requires few { depth + BLOCK ≤ usize.MAX }
    ensures within { result ≤ BLOCK }
    ensures stays { (i : ℕ) → i ≤ result → 0 < open_before opening closing depth i }
    ensures closes { result < BLOCK
        → (open_before opening closing depth result ≡ 1) × (bit closing result ≡ true) }
{
    let mut now = depth;
    let mut from = 0;
    while from < BLOCK {
        let at = first_bit(opening | closing, from);
        if at == BLOCK {
            return BLOCK;
        }
        if opening >> at & 1 == 1 {
            now += 1;
        } else if now == 1 {
            return at;
        } else {
            now -= 1;
        }
        from = at + 1;
    }
    BLOCK
}

/// Passes over the bytes of a block before a bracket that closes the last one of the piece. After a reverse solidus, which no
/// JSON text has in front of a bracket, none is passed over.
#[inline(always)]
fn pass_to_end(known: Known, block: &[u8; 64], end: usize) -> Passed
    requires within { end < BLOCK }
    requires stays { StaysOpen known (take end block.now) }
    requires one { (behind_all known (take end block.now)).depth ≡ 1 }
    requires outside { (behind_all known (take end block.now)).inside ≡ false }
    ensures within { result.len < BLOCK }
    ensures passes { Passes known (take result.len block.now) result.known }
{
    if end == 0 || block[end - 1] == b'\\' {
        return Passed { len: 0, known };
    }
    Passed {
        len: end,
        known: Known {
            place: known.place,
            depth: 1,
            inside: false,
            escaped: false,
        },
    }
}

/// Passes over a block, or over the bytes of it before the one that closes the last bracket of the piece.
#[inline(always)]
fn pass_block(known: Known, block: &[u8; 64]) -> Passed
    requires some { 0 < known.depth }
    requires few { known.depth + BLOCK ≤ usize.MAX }
    ensures within { result.len ≤ BLOCK }
    ensures passes { Passes known (take result.len block.now) result.known }
{
    let first = Carry {
        escaped: known.escaped,
        inside: known.inside,
        may_begin: false,
    };
    let found = scan_block(block, None, first);
    let brackets = find_brackets(block);
    let opening = found.marks & brackets.opening;
    let closing = found.marks & brackets.closing;
    let closed = closing.count_ones() as usize;
    if known.depth <= closed {
        let end = find_end(known.depth, opening, closing);
        if end < BLOCK {
            return pass_to_end(known, block, end);
        }
    }
    let opened = opening.count_ones() as usize;
    Passed {
        len: BLOCK,
        known: Known {
            place: known.place,
            depth: known.depth + opened - closed,
            inside: found.next.inside,
            escaped: found.next.escaped,
        },
    }
}

/// Passes over bytes of a piece that leave a bracket of it open: whole blocks, and of the one in which the last bracket closes
/// the bytes before that.
#[inline(never)]
fn pass_open(known: Known, bytes: &[u8]) -> Passed
    requires some { 0 < known.depth }
    requires few { known.depth + length bytes.now ≤ usize.MAX }
    ensures within { result.len ≤ length bytes.now }
    ensures passes { Passes known (take result.len bytes.now) result.known }
    ensures depth { result.known.depth ≤ known.depth + result.len }
{
    let mut passed = Passed { len: 0, known };
    while let Some(block) = bytes[passed.len..].first_chunk::<BLOCK>() {
        let part = pass_block(passed.known, block);
        passed.len += part.len;
        passed.known = part.known;
        if part.len < BLOCK {
            return passed;
        }
    }
    passed
}

/// Passes over bytes of a piece, up to one that ends it or that opens a bracket of it.
#[inline(never)]
fn pass_kept(pieces: Pieces, known: Known, bytes: &[u8]) -> Passed
    requires none { known.depth ≡ 0 }
    ensures within { result.len ≤ length bytes.now }
    ensures keeps { Keeps pieces known (take result.len bytes.now) result.known }
    ensures none { result.known.depth ≡ 0 }
{
    let mut now = known;
    for (index, byte) in bytes.iter().enumerate() {
        let next = step_on(pieces, now, *byte);
        match next.turn {
            Turn::Kept if next.known.depth == 0 => now = next.known,
            _ => {
                return Passed {
                    len: index,
                    known: now,
                };
            }
        }
    }
    Passed {
        len: bytes.len(),
        known: now,
    }
}

/// Passes over bytes that are of the open piece and do not end it: all of them, or fewer.
#[inline(always)]
pub fn pass_on(pieces: Pieces, known: Known, bytes: &[u8]) -> Passed
    requires few { known.depth + length bytes.now ≤ usize.MAX }
    ensures within { result.len ≤ length bytes.now }
    ensures keeps { Keeps pieces known (take result.len bytes.now) result.known }
    ensures depth { result.known.depth ≤ known.depth + result.len }
{
    if known.depth == 0 {
        pass_kept(pieces, known, bytes)
    } else if is_inside(known.place) {
        pass_open(known, bytes)
    } else {
        Passed { len: 0, known }
    }
}
