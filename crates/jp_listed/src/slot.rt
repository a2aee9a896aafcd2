//! Where a text stands among others.

ghost use Rattle.std.specs.Prelude.{◌≡◌, ◌<◌, ◌≤◌, ◌+◌, ◌/◌, All, IfOk, IsPermutation, length};
ghost use Rattle.std.specs.List.{AllWithin, HoldsAt};
ghost use Rattle.std.specs.List.Sorted.{IsNonDecreasingBy};
ghost use Rattle.jp_model.specs.Lines.{closed_lines};
ghost use Rattle.jp_listed.specs.Hashes.{hash_of};
ghost use Rattle.jp_listed.specs.Slots.{AreStarts, Ascend, IsHashed, has_text, order_with, slot_order, text_at, texts_at};

use crate::hash::hash;
use memchr::memchr;
use std::alloc::{AllocError, Global};
use std::cmp::Ordering;

/// A text that is kept: its hash, and where it stands among the bytes of all.
#[derive(Clone, Copy)]
pub(crate) struct Slot {
    pub(crate) hash: u64,
    /// Its first byte.
    pub(crate) start: usize,
    /// The byte after its last.
    pub(crate) end: usize,
}

impl Slot {
    /// The text, and none where it does not stand among the bytes.
    fn text(self, bytes: &[u8]) -> &[u8]
        ensures { result.now ≡ text_at bytes.now self }
    {
        if self.start <= self.end && self.end <= bytes.len() {
            &bytes[self.start..self.end]
        } else {
            &[]
        }
    }

    /// Its order with a text of this hash: by the hashes, and then by the texts.
    fn compare_with(self, bytes: &[u8], hash: u64, text: &[u8]) -> Ordering
        ensures { result ≡ order_with bytes.now hash text.now self }
    {
        match self.hash.cmp(&hash) {
            Ordering::Equal => self.text(bytes).cmp(text),
            other => other,
        }
    }

    /// Its order with another.
    fn compare(self, bytes: &[u8], other: Slot) -> Ordering
        ensures { result ≡ slot_order bytes.now self other }
    {
        self.compare_with(bytes, other.hash, other.text(bytes))
    }
}

/// Where the lines stand that a line feed ends among some bytes.
pub(crate) fn find_slots(alloc: Global, bytes: &[u8]) -> Result<Vec<Slot>, AllocError>
    ensures texts { IfOk result (λ slots. texts_at bytes.now slots.items ≡ closed_lines bytes.now) }
    ensures hashed { IfOk result (λ slots. All (IsHashed bytes.now) slots.items) }
{
    let mut slots = Vec::new(alloc);
    let mut start = 0;
    while let Some(length) = memchr(b'\n', &bytes[start..]) {
        let end = start + length;
        let hash = hash(&bytes[start..end]);
        slots.push(Slot { hash, start, end })?;
        start = end + 1;
    }
    Ok(slots)
}

/// Sorts slots by hash and text.
pub(crate) fn sort_slots(bytes: &[u8], slots: &mut Vec<Slot>)
    ensures permutation { IsPermutation slots.old.items slots.new.items }
    ensures sorted { Ascend bytes.now slots.new.items }
{
    slots.sort_unstable_by(
        |slot, other|
            ensures { result ≡ slot_order bytes.entry.now slot.now other.now }
        { slot.compare(bytes, *other) },
    );
}

/// Whether one of some slots, which are in order, has a text of this hash.
pub(crate) fn has_slot(bytes: &[u8], slots: &[Slot], hash: u64, text: &[u8]) -> bool
    requires sorted { Ascend bytes.now slots.now }
    requires hashed { All (IsHashed bytes.now) slots.now }
    requires hash { hash ≡ hash_of text.now }
    ensures { result ≡ has_text (texts_at bytes.now slots.now) text.now }
{
    let found = slots.binary_search_by(
        |slot|
            ensures { result ≡ order_with bytes.entry.now hash text.entry.now slot.now }
        { slot.compare_with(bytes, hash, text) },
    );
    found.is_ok()
}

/// The first of some slots, from one on, that does not belong to an earlier bucket.
fn first_of_bucket(slots: &[Slot], from: usize, width: u64, bucket: usize) -> usize
    requires within { from ≤ length slots.now }
    requires wide { 0 < width }
    ensures from { from ≤ result }
    ensures within { result ≤ length slots.now }
    ensures before { AllWithin (λ slot. slot.hash / width < bucket) slots.now from result }
    ensures there { result < length slots.now → HoldsAt (λ slot. bucket ≤ slot.hash / width) slots.now result }
{
    let mut first = from;
    while first < slots.len() && slots[first].hash / width < bucket as u64 {
        first += 1;
    }
    first
}

/// The first slot of each of `count` buckets of hashes, among slots whose hashes do not fall.
pub(crate) fn find_starts(
    alloc: Global,
    slots: &[Slot],
    count: usize,
    width: u64,
) -> Result<Vec<usize>, AllocError>
    requires rising { IsNonDecreasingBy (λ slot. slot.hash) slots.now }
    requires wide { 0 < width }
    ensures starts { IfOk result (λ starts. AreStarts width slots.now starts.items) }
    ensures count { IfOk result (λ starts. length starts.items ≡ count) }
{
    let mut starts = Vec::new(alloc);
    let mut first = 0;
    for bucket in 0..count {
        first = first_of_bucket(slots, first, width, bucket);
        starts.push(first)?;
    }
    Ok(starts)
}
