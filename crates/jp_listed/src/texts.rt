//! A set of texts.

ghost use Rattle.std.specs.Prelude.{◌≡◌, ◌<◌, ◌≤◌, ◌+◌, ◌/◌, ℕ, List, All, IfOk, length};
ghost use Rattle.jp_model.specs.Lines.{closed_lines};
ghost use Rattle.jp_listed.specs.Hashes.{hash_of};
ghost use Rattle.jp_listed.specs.Slots.{AreStarts, AreWhole, Ascend, IsHashed, IsStart, has_text, texts_at};

use crate::hash::hash;
use crate::slot::{Slot, find_slots, find_starts, has_slot, sort_slots};
use std::alloc::{AllocError, Global};

/// How many texts are in a bucket, where their hashes are spread evenly.
const BUCKET: usize = 8;

/// A set of texts.
#[derive(Drop)]
pub(crate) struct Texts {
    /// The texts, each with a line feed after it.
    bytes: Vec<u8>,
    /// Where each of them stands, in order.
    slots: Vec<Slot>,
    /// The first slot of each bucket of hashes, and after them the number of slots.
    starts: Vec<usize>,
    /// How many hashes belong to a bucket.
    width: u64,
    ghost sorted: { Ascend bytes.items slots.items },
    ghost hashed: { All (IsHashed bytes.items) slots.items },
    ghost wide: { 0 < width },
    ghost cut: { AreStarts width slots.items starts.items },
    ghost whole: { AreWhole width starts.items },
}

impl Texts {
    ghost use Rattle.jp_listed.specs.Texts.{texts_of};

    /// The lines of some bytes that a line feed ends.
    ///
    /// # Errors
    ///
    /// Memory ran out.
    pub(crate) fn of_lines(alloc: Global, bytes: Vec<u8>) -> Result<Texts, AllocError>
        ensures { IfOk result (λ texts. (text : List ℕ) → has_text (texts_of texts) text ≡ has_text (closed_lines bytes.items) text) }
    {
        let mut slots = find_slots(alloc, &bytes)?;
        sort_slots(&bytes, &mut slots);
        let buckets = slots.len() / BUCKET + 2;
        let width = u64::MAX / buckets as u64 + 1;
        let starts = find_starts(alloc, &slots, buckets + 1, width)?;
        Ok(Texts {
            bytes,
            slots,
            starts,
            width,
        })
    }

    /// Where the bucket of a hash begins among the slots, and where it ends.
    fn range_of(&self, hash: u64) -> (usize, usize)
        ensures begins { IsStart self.now.width self.now.slots.items (hash / self.now.width) result.0 }
        ensures ends { IsStart self.now.width self.now.slots.items (hash / self.now.width + 1) result.1 }
        ensures ascends { result.0 ≤ result.1 }
        ensures within { result.1 ≤ length self.now.slots.items }
    {
        let bucket = (hash / self.width) as usize;
        (self.starts[bucket], self.starts[bucket + 1])
    }

    /// The slots of the texts that may have a hash.
    fn bucket_of(&self, hash: u64) -> &[Slot]
        ensures sorted { Ascend self.now.bytes.items result.now }
        ensures hashed { All (IsHashed self.now.bytes.items) result.now }
        ensures all { (text : List ℕ) → hash ≡ hash_of text → has_text (texts_at self.now.bytes.items result.now) text ≡ has_text (texts_of self.now) text }
    {
        let (start, end) = self.range_of(hash);
        &self.slots[start..end]
    }

    /// Whether a text is one of them.
    pub(crate) fn has(&self, text: &[u8]) -> bool
        ensures { result ≡ has_text (texts_of self.now) text.now }
    {
        let hash = hash(text);
        has_slot(&self.bytes, self.bucket_of(hash), hash, text)
    }
}
