//! The classes of 64 bytes, by lane compares, and the padding of a short block.

ghost use Rattle.std.specs.Prelude.{◌≡◌, ◌↔◌, ◌==◌, ◌-◌, ◌≤◌, ◌++◌, IsTrue, nat_lt, map, length, replicate, slice_index};
ghost use Rattle.std.specs.Simd.Lanes.{mask_l};
ghost use Rattle.std.specs.Str.{IsAscii};
ghost use Rattle.jp_model.specs.Characters.{is_white, is_structural, is_backslash, is_quote, is_control};
ghost use Rattle.jp_lanes.specs.Word.{Says};

use std::simd::prelude::*;

/// The classes of 64 bytes: bit i of each word tells whether byte i is of the class.
#[derive(Clone, Copy, Debug, PartialEq, Eq)]
pub struct Classes {
    /// The escape character `\` (RFC 8259, section 7).
    pub backslash: u64,
    /// The quotation mark (RFC 8259, section 7).
    pub quote: u64,
    /// The six structural characters `{ } [ ] : ,` (RFC 8259, section 2).
    pub structural: u64,
    /// Space, tab, line feed and carriage return (RFC 8259, section 2).
    pub white: u64,
    /// U+0000 to U+001F (RFC 8259, section 7).
    pub control: u64,
    /// The line feed, which ends a line (profile).
    pub line_feed: u64,
}

/// Whether each lane is that byte.
fn equal_to(lanes: u8x64, byte: u8) -> u64
    ensures { Says result (λ i. slice_index lanes i == byte) }
{
    lanes.simd_eq(u8x64::splat(byte)).to_bitmask()
}

/// Whether each lane is white. A tab and a carriage return differ in one bit.
fn white_of(lanes: u8x64) -> u64
    ensures { Says result (λ i. is_white (slice_index lanes i)) }
{
    let joined = lanes | u8x64::splat(b'\t' ^ b'\r');
    let blank = lanes.simd_eq(u8x64::splat(b' '));
    let line_feed = lanes.simd_eq(u8x64::splat(b'\n'));
    let tab_or_return = joined.simd_eq(u8x64::splat(b'\r'));
    (blank | line_feed | tab_or_return).to_bitmask()
}

/// Whether each lane is structural. A brace and its bracket differ in one bit.
fn structural_of(lanes: u8x64) -> u64
    ensures { Says result (λ i. is_structural (slice_index lanes i)) }
{
    let joined = lanes | u8x64::splat(b'[' ^ b'{');
    let opens = joined.simd_eq(u8x64::splat(b'{'));
    let closes = joined.simd_eq(u8x64::splat(b'}'));
    let colon = lanes.simd_eq(u8x64::splat(b':'));
    let comma = lanes.simd_eq(u8x64::splat(b','));
    (opens | closes | colon | comma).to_bitmask()
}

/// Whether each lane is a control character.
fn control_of(lanes: u8x64) -> u64
    ensures { Says result (λ i. is_control (slice_index lanes i)) }
{
    lanes.simd_lt(u8x64::splat(0x20)).to_bitmask()
}

/// The classes of 64 bytes. Bytes that no class has are in no word.
#[inline(always)]
pub fn classify(bytes: &[u8; 64]) -> Classes
    ensures backslash { Says result.backslash (λ i. is_backslash (slice_index bytes.now i)) }
    ensures quote { Says result.quote (λ i. is_quote (slice_index bytes.now i)) }
    ensures structural { Says result.structural (λ i. is_structural (slice_index bytes.now i)) }
    ensures white { Says result.white (λ i. is_white (slice_index bytes.now i)) }
    ensures control { Says result.control (λ i. is_control (slice_index bytes.now i)) }
    ensures line_feed { Says result.line_feed (λ i. slice_index bytes.now i == 0x0A) }
{
    let lanes = u8x64::from_array(*bytes);
    Classes {
        backslash: equal_to(lanes, b'\\'),
        quote: equal_to(lanes, b'"'),
        structural: structural_of(lanes),
        white: white_of(lanes),
        control: control_of(lanes),
        line_feed: equal_to(lanes, b'\n'),
    }
}

/// The separators of 64 bytes: bit i tells whether byte i is RS, 1E, which begins a text of a sequence (RFC 7464, section 2.2).
/// Few collections are sequences.
#[inline(never)]
pub fn separators(bytes: &[u8; 64]) -> u64
    ensures { Says result (λ i. slice_index bytes.now i == 0x1E) }
{
    equal_to(u8x64::from_array(*bytes), 0x1E)
}

/// Bit i tells whether lane i is above 7F.
fn high_of(lanes: u8x64) -> u64
    ensures { result ≡ mask_l (map (nat_lt 0x7F) lanes) }
{
    lanes.simd_gt(u8x64::splat(0x7F)).to_bitmask()
}

/// Whether each of 64 bytes is an ASCII character.
#[inline(always)]
pub fn are_ascii(bytes: &[u8; 64]) -> bool
    ensures { IsTrue result ↔ IsAscii bytes.now }
{
    high_of(u8x64::from_array(*bytes)) == 0
}

/// At most 64 bytes as a block: the bytes, and zeros after them.
pub fn pad(bytes: &[u8]) -> [u8; 64]
    requires { length bytes.now ≤ 64 }
    ensures { result ≡ bytes.now ++ replicate (64 - length bytes.now) 0 }
{
    let mut block = [0; 64];
    block[..bytes.len()].copy_from_slice(bytes);
    block
}
