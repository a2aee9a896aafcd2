//! One block of 64 bytes: its marks, and what the next block has to know.

ghost use Rattle.std.specs.Prelude.{◌≡◌, ◌==◌, ℕ, ◌+◌, ◌-◌, ◌%◌, ◌^◌, ◌<◌, ◌≤◌, ◌++◌, true, map, take, length, slice_index};
ghost use Rattle.jp_lanes.specs.Word.{bit, Says};
ghost use Rattle.jp_masks.specs.Ends.{is_end};
ghost use Rattle.jp_masks.specs.Positions.{set_bits, byte_bits, HasByteBits};
ghost use Rattle.jp_masks.specs.Runs.{odd_run, parity, restarted, carried, escaped_at};
ghost use Rattle.jp_masks.specs.Machine.{before, is_marked};

use crate::byte_bits::SET_BITS;
use jp_lanes::{classify, separators};
use jp_model::Framing;
use std::simd::prelude::*;

/// How many bytes a block has, and so how many positions at most.
pub const BLOCK: usize = 64;

/// What is known before a byte: whether a backslash escapes it, whether it is inside a string, and whether a token may
/// begin there.
#[derive(Clone, Copy, Drop)]
pub struct Carry {
    /// Whether a reverse solidus escapes the byte.
    pub escaped: bool,
    /// Whether a string is open.
    pub inside: bool,
    /// Whether a token may begin at the byte.
    pub may_begin: bool,
}

impl Carry {
    /// What is known at the start of a line.
    pub const START: Carry = Carry {
        escaped: false,
        inside: false,
        may_begin: true,
    };
}

/// The bits before which an odd run of set bits is. `full` says for the 1, 2, 4 .. bits before each whether all are
/// set, and `odd` whether those that are set without a gap are odd in number.
fn odd_runs(word: u64) -> u64
    ensures { Says result (odd_run word) }
{
    let full = word << 1;
    let odd = full & !(full << 1);
    let full = full & (full << 1);
    let odd = odd | (full & (odd << 2));
    let full = full & (full << 2);
    let odd = odd | (full & (odd << 4));
    let full = full & (full << 4);
    let odd = odd | (full & (odd << 8));
    let full = full & (full << 8);
    let odd = odd | (full & (odd << 16));
    let full = full & (full << 16);
    odd | (full & (odd << 32))
}

/// The xor of each bit and those below it.
fn prefix_xor(word: u64) -> u64
    ensures { Says result (λ i. parity word (i + 1)) }
{
    let sums = word ^ (word << 1);
    let sums = sums ^ (sums << 2);
    let sums = sums ^ (sums << 4);
    let sums = sums ^ (sums << 8);
    let sums = sums ^ (sums << 16);
    sums ^ (sums << 32)
}

/// All bits as `flag`.
fn spread(flag: bool) -> u64
    ensures { Says result (λ i. flag) }
{
    if flag { u64::MAX } else { 0 }
}

/// Each bit moved up by one, and `flag` below them.
fn carry_in(word: u64, flag: bool) -> u64
    ensures { Says result (carried word flag) }
{
    (word << 1) | flag as u64
}

/// At each bit of `ends` that is found set in the word, it and all above it are flipped.
fn restart(word: u64, ends: u64) -> u64
    ensures { Says result (restarted word ends) }
{
    let mut kept = word;
    let mut found = kept & ends;
    while found != 0 {
        kept ^= u64::MAX << found.trailing_zeros();
        found = kept & ends;
    }
    kept
}

/// The bit of the last byte.
fn top_bit(word: u64) -> bool
    ensures { result ≡ bit word 63 }
{
    word >> 63 == 1
}

/// The bytes that a backslash escapes.
fn escaped_bytes(backslash: u64, first: bool) -> u64
    ensures { Says result (escaped_at backslash first) }
{
    if backslash == 0 {
        return first as u64;
    }
    let first = first as u64;
    odd_runs(backslash & !first) | first
}

/// The bytes that end a line: none where one line stands alone.
fn ends_of(framing: Option<Framing>, line_feeds: u64, bytes: &[u8; 64]) -> u64
    requires { Says line_feeds (λ i. slice_index bytes.now i == 0x0A) }
    ensures { Says result (λ i. is_end framing (slice_index bytes.now i)) }
{
    match framing {
        None => 0,
        Some(Framing::Lines) => line_feeds,
        Some(Framing::Sequence) => separators(bytes),
    }
}

/// What one block has, and what is known after it. A byte that ends a line may be among the marks, and is not one.
#[derive(Clone, Copy, Drop)]
pub struct Found {
    /// The bytes at which tokens begin, and quotation marks that close a string: bit k is byte k.
    pub marks: u64,
    /// The bytes that end a line.
    pub ends: u64,
    /// What is known at the first byte of the next block.
    pub next: Carry,
}

/// The marks of one block, by what is known before its first byte, and what is known after its last.
#[inline(always)]
pub fn scan_block(bytes: &[u8; 64], framing: Option<Framing>, first: Carry) -> Found
    ensures marks { Says result.marks (λ i. is_marked (before framing first bytes.now i) (slice_index bytes.now i)) }
    ensures ends { Says result.ends (λ i. is_end framing (slice_index bytes.now i)) }
    ensures carry { result.next ≡ before framing first bytes.now 64 }
{
    let classes = classify(bytes);
    let ends = ends_of(framing, classes.line_feed, bytes);
    let escaped = escaped_bytes(classes.backslash, first.escaped);
    let quotes = classes.quote & !escaped;
    let strings = prefix_xor(quotes) ^ spread(first.inside);
    let inside_after = restart(strings, ends);
    let inside = carry_in(inside_after, first.inside);
    let breaks = classes.white | classes.structural | quotes | ends;
    let may_begin = carry_in(breaks, first.may_begin);
    let other = may_begin & !(classes.white | classes.quote);
    let marks = quotes | (!inside & (classes.structural | other));
    let next = Carry {
        escaped: top_bit(classes.backslash & !escaped),
        inside: top_bit(inside_after),
        may_begin: top_bit(breaks),
    };
    Found { marks, ends, next }
}

/// How many positions are written at once: one for each bit of a byte.
const LANES: usize = 8;

/// The numbers of the set bits of a byte, lowest first, and others after them, as a table has them.
#[inline(always)]
#[tactic(auto, unfolding(crate::specs::Positions::HasByteBits))]
fn bit_numbers(table: &[[u8; LANES]; 256], byte: u8) -> [u8; LANES]
    requires { HasByteBits table.now }
    ensures { take (length (byte_bits byte)) result ≡ byte_bits byte }
{
    table[byte as usize]
}

/// Writes the positions of the set bits of a byte, whose lowest bit is at `base`, lowest first from an index on, and returns
/// how many they are. What stood after them up to the eighth position is lost.
#[inline(always)]
fn write_byte(positions: &mut [u32], at: usize, base: u32, byte: u8) -> usize
    requires { at + LANES ≤ length positions.old }
    ensures written { take (at + result) positions.new ≡ take at positions.old ++ map (λ i. (base + i) % 2 ^ 32) (byte_bits byte) }
    ensures count { result ≡ length (byte_bits byte) }
    ensures long { length positions.new ≡ length positions.old }
{
    let numbers: Simd<u8, LANES> = Simd::from_array(bit_numbers(&SET_BITS, byte));
    let found = numbers.cast::<u32>() + Simd::splat(base);
    found.copy_to_slice(&mut positions[at..]);
    byte.count_ones() as usize
}

/// Writes the positions of the set bits of a block that begins at `base`, lowest first and each modulo 2^32, and returns how
/// many they are. A byte writes eight positions, so the last one ends within those of the block.
#[inline(always)]
fn write_positions(positions: &mut [u32], base: u32, word: u64) -> usize
    requires room { BLOCK ≤ length positions.old }
    ensures written { take result positions.new ≡ map (λ i. (base + i) % 2 ^ 32) (set_bits word) }
    ensures within { result ≤ BLOCK }
    ensures long { length positions.new ≡ length positions.old }
{
    let mut count = 0;
    let mut rest = word;
    for byte in 0..BLOCK / LANES {
        if rest == 0 {
            return count;
        }
        let from = base.wrapping_add((byte * LANES) as u32);
        let bits = (rest % (1 << LANES)) as u8;
        count += write_byte(positions, count, from, bits);
        rest >>= LANES;
    }
    count
}

/// Writes the same positions from the first set bit on, each counted from `start`, which none is before. The block may begin
/// before `start`: the sums are modulo 2^32.
#[inline(always)]
pub fn write_block(positions: &mut [u32], base: u32, start: u32, word: u64) -> usize
    requires room { BLOCK ≤ length positions.old }
    requires fits { (i : ℕ) → i < 64 → bit word i ≡ true → base + i < 2 ^ 32 }
    requires order { (i : ℕ) → i < 64 → bit word i ≡ true → start ≤ base + i }
    ensures written { take result positions.new ≡ map (λ i. base + i - start) (set_bits word) }
    ensures within { result ≤ BLOCK }
    ensures long { length positions.new ≡ length positions.old }
{
    if word == 0 {
        return 0;
    }
    let skipped = word.trailing_zeros();
    let from = base.wrapping_sub(start).wrapping_add(skipped);
    write_positions(positions, from, word >> skipped)
}
