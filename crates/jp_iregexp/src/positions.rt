//! The words of sets of positions of a text. They are kept from the first one on: the others are 0, and take no memory.

ghost use Rattle.std.specs.Prelude.{◌≡◌, ◌≢◌, ◌^◌, ℕ, ◌+◌, ◌-◌, ◌*◌, ◌<◌, ◌≤◌, ◌↔◌, OnOk, bit_or, vec_len};
ghost use Rattle.std.specs.Int.{bit_at};
ghost use Rattle.jp_iregexp.specs.Words.{HasBit, word_of};

use crate::Result;

/// A set of positions, as bits of words.
#[derive(Drop)]
pub(crate) struct PositionSet {
    pub(crate) first: usize,
    pub(crate) words: Vec<u64>,
    ghost fits: { first + vec_len words ≤ 2 ^ 57 },
}

impl PositionSet {
    /// A word, whether it is kept or not.
    #[inline(always)]
    pub(crate) fn word(&self, w: usize) -> u64
        ensures { result ≡ word_of self.now.first self.now.words.items w }
    {
        if w < self.first {
            return 0;
        }
        match self.words.get(w - self.first) {
            Some(word) => *word,
            None => 0,
        }
    }

    /// A word of the bits, each of them this far after where it is kept.
    pub(crate) fn moved(&self, w: usize, distance: usize) -> u64
        ensures { (i : ℕ) → i < 64 → bit_at result i ≡ 1 ↔ (distance ≤ w * 64 + i × HasBit self.now.first self.now.words.items (w * 64 + i - distance)) }
    {
        let whole = distance / 64;
        let bits = distance % 64;
        if w < whole {
            return 0;
        }
        let upper = self.word(w - whole) << bits;
        if bits == 0 || w == whole {
            return upper;
        }
        upper | self.word(w - whole - 1) >> (64 - bits)
    }

    /// The bits are put into a word.
    #[inline(always)]
    pub(crate) fn add_word(&mut self, w: usize, bits: u64) -> Result<()>
        requires { w < 2 ^ 57 }
        ensures at { OnOk result (word_of self.new.first self.new.words.items w ≡ bit_or (word_of self.old.first self.old.words.items w) bits) }
        ensures rest { OnOk result ((v : ℕ) → v ≢ w → word_of self.new.first self.new.words.items v ≡ word_of self.old.first self.old.words.items v) }
    {
        if bits == 0 {
            return Ok(());
        }
        if w < self.first || self.words.len() <= w - self.first {
            self.cover(w)?;
        }
        let at = w - self.first;
        self.words[at] |= bits;
        Ok(())
    }

    /// Makes room for a word: it is kept, and so are those between it and the others.
    #[inline(never)]
    fn cover(&mut self, w: usize) -> Result<()>
        requires { w < 2 ^ 57 }
        ensures same { OnOk result ((v : ℕ) → word_of self.new.first self.new.words.items v ≡ word_of self.old.first self.old.words.items v) }
        ensures from { OnOk result (self.new.first ≤ w) }
        ensures to { OnOk result (w < self.new.first + vec_len self.new.words) }
    {
        if self.words.is_empty() {
            self.first = w;
        }
        if w < self.first {
            self.lower(w)?;
        }
        let width = w - self.first + 1;
        for _ in self.words.len()..width {
            self.words.push(0)?;
        }
        Ok(())
    }

    /// Puts words that are 0 in front, so that the words are kept from this one on.
    fn lower(&mut self, first: usize) -> Result<()>
        requires { first ≤ self.old.first }
        ensures same { OnOk result ((v : ℕ) → word_of self.new.first self.new.words.items v ≡ word_of self.old.first self.old.words.items v) }
        ensures first { OnOk result (self.new.first ≡ first) }
    {
        let mut words = vec![in *self.words.allocator(); 0; self.first - first]?;
        words.extend_from_slice(self.words.as_slice())?;
        self.words = words;
        self.first = first;
        Ok(())
    }
}

/// A word's bits up to this one, which may follow the word.
pub(crate) fn first_bits(last: usize) -> u64
    ensures within { (i : ℕ) → i < 64 → bit_at result i ≡ 1 → i ≤ last }
    ensures each { (i : ℕ) → i < 64 → i ≤ last → bit_at result i ≡ 1 }
{
    u64::MAX >> (63 - last.min(63))
}
