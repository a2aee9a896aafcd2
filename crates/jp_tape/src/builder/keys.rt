//! The slots that names fall on by their bytes: names that share none differ.

ghost use Rattle.std.specs.Prelude.{◌≡◌, ◌<◌, ◌≤◌, ◌+◌, ◌^◌, length, false};
ghost use Rattle.jp_tape.specs.Keys.{four_at as the_four, mixed, key_of, slot_of, slot_in, hit_again, shares_slot, AreHit, AreAlone};
ghost use Rattle.jp_tape.specs.Names.{IsKept, AreKept};

use super::kept::KeptName;

/// The four bytes at a place.
#[inline(always)]
#[tactic(auto, unfolding(crate::specs::Keys::four_at))]
fn four_at(bytes: &[u8], at: usize) -> u64
    requires { at + 4 ≤ length bytes.now }
    ensures { result ≡ the_four bytes.now at }
{
    u32::from_le_bytes([bytes[at], bytes[at + 1], bytes[at + 2], bytes[at + 3]]) as u64
}

/// An odd number whose bits are spread, so that a product's upper bits depend on all bits of the other factor.
const SPREAD: u64 = 0xD6E8_FEB8_6659_FD93;

/// A number that depends on all bits of three numbers.
#[inline(always)]
#[tactic(auto, unfolding(crate::specs::Keys::mixed))]
fn mix(first: u64, middle: u64, last: u64) -> u64
    ensures { result ≡ mixed first middle last }
{
    first
        .wrapping_mul(SPREAD)
        .wrapping_add(middle)
        .wrapping_mul(SPREAD)
        .wrapping_add(last)
        .wrapping_mul(SPREAD)
}

/// The key of a name.
#[inline(always)]
#[tactic(auto, unfolding(crate::specs::Keys::key_of))]
fn key(name: &[u8]) -> u64
    ensures { result ≡ key_of name.now }
{
    let length = name.len();
    if length >= 4 {
        let last = length - 4;
        return mix(
            four_at(name, 0),
            four_at(name, last / 2),
            four_at(name, last),
        );
    }
    if length == 0 {
        return 0;
    }
    mix(
        name[0] as u64,
        name[length / 2] as u64,
        name[length - 1] as u64,
    )
}

/// Which of `slots` slots a name falls on.
#[inline(always)]
#[tactic(auto, unfolding(crate::specs::Keys::slot_of))]
fn slot(name: &[u8], slots: usize) -> usize
    requires some { 0 < slots }
    requires few { slots ≤ 2 ^ 32 }
    ensures value { result ≡ slot_of slots name.now }
    ensures within { result < slots }
{
    ((key(name) >> 32) * slots as u64 >> 32) as usize
}

/// How often a slot was hit, after one more hit: once, or more often, which is 2.
#[inline(always)]
fn hit(hits: u8) -> u8
    ensures { result ≡ hit_again hits }
{
    if hits == 0 { 1 } else { 2 }
}

/// Counts how many names fall on each slot: none, one, or more, which is 2. Returns whether two share one.
#[inline(always)]
pub(super) fn count_hits(line: &[u8], names: &[KeptName], hits: &mut [u8]) -> bool
    requires kept { AreKept line.now names.now }
    requires some { 0 < length hits.old }
    requires few { length hits.old ≤ 2 ^ 32 }
    ensures size { length hits.new ≡ length hits.old }
    ensures hit { AreHit (slot_in line.now (length hits.new)) names.now (length names.now) hits.new }
    ensures alone { result ≡ false → AreAlone (slot_in line.now (length hits.new)) names.now (length names.now) hits.new }
{
    let mut is_shared = false;
    for name in names {
        let slot = slot(name.bytes(line), hits.len());
        let again = hit(hits[slot]);
        hits[slot] = again;
        is_shared |= again == 2;
    }
    is_shared
}

/// Whether a name shares its slot with another.
#[inline(always)]
pub(super) fn is_shared(line: &[u8], name: KeptName, hits: &[u8]) -> bool
    requires kept { IsKept line.now name }
    requires some { 0 < length hits.now }
    requires few { length hits.now ≤ 2 ^ 32 }
    ensures { result ≡ shares_slot (slot_in line.now (length hits.now)) hits.now name }
{
    hits[slot(name.bytes(line), hits.len())] == 2
}
