//! Which positions are in a set.

ghost use Rattle.std.specs.Prelude.{◌≡◌, ◌^◌, ℕ, ◌-◌, ◌<◌, ◌≤◌, ◌↔◌, ◌⊎◌, IsTrue, IfOk, OnOk, None};
ghost use Rattle.std.specs.Option.{IfSome};
ghost use Rattle.jp_iregexp.specs.Positions.{Has, IsFirstFrom, IsSetOver, IsTail};

use crate::Result;
use crate::positions::{PositionSet, first_bits};
use std::alloc::Global;

impl PositionSet {
    /// No position.
    pub(crate) fn empty(alloc: Global) -> PositionSet
        ensures { (p : ℕ) → ¬ (Has result p) }
    {
        PositionSet {
            first: 0,
            words: Vec::new(alloc),
        }
    }

    /// One position.
    pub(crate) fn one(alloc: Global, p: usize) -> Result<PositionSet>
        requires { p < 2 ^ 63 }
        ensures has { IfOk result (λ set. Has set p) }
        ensures only { IfOk result (λ set. (q : ℕ) → Has set q → q ≡ p) }
    {
        let mut set = PositionSet::empty(alloc);
        set.insert(p)?;
        Ok(set)
    }

    /// Each position of a text of this length.
    pub(crate) fn all(alloc: Global, length: usize) -> Result<PositionSet>
        requires { length < 2 ^ 63 }
        ensures over { IfOk result (λ set. IsSetOver length set) }
        ensures each { IfOk result (λ set. (p : ℕ) → p ≤ length → Has set p) }
    {
        let mut set = PositionSet::empty(alloc);
        for w in 0..length / 64 + 1 {
            set.add_word(w, first_bits(length - w * 64))?;
        }
        Ok(set)
    }

    /// Each position from the first one on, up to the one before the second.
    pub(crate) fn range(alloc: Global, low: usize, high: usize) -> Result<PositionSet>
        requires { high ≤ 2 ^ 63 }
        ensures sound { IfOk result (λ set. (p : ℕ) → Has set p → low ≤ p × p < high) }
        ensures each { IfOk result (λ set. (p : ℕ) → low ≤ p → p < high → Has set p) }
    {
        let mut set = PositionSet::empty(alloc);
        for p in low..high {
            set.insert(p)?;
        }
        Ok(set)
    }

    /// Whether there is a position.
    pub(crate) fn has_any(&self) -> bool
        ensures some { IsTrue result → (p : ℕ) × Has self.now p }
        ensures none { (p : ℕ) → Has self.now p → IsTrue result }
    {
        for word in &self.words {
            if *word != 0 {
                return true;
            }
        }
        false
    }

    /// A position that none in the set is below.
    pub(crate) fn low(&self) -> usize
        ensures { (p : ℕ) → Has self.now p → result ≤ p }
    {
        self.first * 64
    }

    /// A position that each in the set is below.
    pub(crate) fn high(&self) -> usize
        ensures above { (p : ℕ) → Has self.now p → p < result }
        ensures fits { result ≤ 2 ^ 63 }
    {
        (self.first + self.words.len()) * 64
    }

    /// The first position in the set that is not below this one.
    #[inline(never)]
    pub(crate) fn first_from(&self, low: usize) -> Option<usize>
        ensures first { IfSome result (IsFirstFrom self.now low) }
        ensures none { result ≡ None → (p : ℕ) → low ≤ p → Has self.now p → ⊥ }
    {
        for p in low.max(self.low())..self.high() {
            if self.contains(p) {
                return Some(p);
            }
        }
        None
    }

    /// A set of the same positions, with words of its own.
    pub(crate) fn copy(&self, alloc: Global) -> Result<PositionSet>
        ensures { IfOk result (λ set. (p : ℕ) → Has set p ↔ Has self.now p) }
    {
        Ok(PositionSet {
            first: self.first,
            words: Vec::from_slice(alloc, self.words.as_slice())?,
        })
    }

    /// Whether a position is in the set.
    #[inline(always)]
    pub(crate) fn contains(&self, p: usize) -> bool
        ensures { IsTrue result ↔ Has self.now p }
    {
        (self.word(p / 64) >> (p % 64)) & 1 == 1
    }

    /// One more position, which the set may have already.
    #[inline(always)]
    pub(crate) fn insert(&mut self, p: usize) -> Result<()>
        requires { p < 2 ^ 63 }
        ensures same { OnOk result (Has self.new p) }
        ensures old { OnOk result ((q : ℕ) → Has self.old q → Has self.new q) }
        ensures new { OnOk result ((q : ℕ) → Has self.new q → (q ≡ p) ⊎ Has self.old q) }
    {
        self.add_word(p / 64, 1 << (p % 64))?;
        Ok(())
    }

    /// The positions of the other set are put into this one.
    pub(crate) fn add_all(&mut self, other: &PositionSet) -> Result<()>
        ensures old { OnOk result ((q : ℕ) → Has self.old q → Has self.new q) }
        ensures added { OnOk result ((q : ℕ) → Has other.now q → Has self.new q) }
        ensures new { OnOk result ((q : ℕ) → Has self.new q → Has self.old q ⊎ Has other.now q) }
    {
        for (i, word) in other.words.iter().enumerate() {
            self.add_word(other.first + i, *word)?;
        }
        Ok(())
    }

    /// The positions that are not in the other set.
    pub(crate) fn without(&self, alloc: Global, other: &PositionSet) -> Result<PositionSet>
        ensures sound { IfOk result (λ set. (q : ℕ) → Has set q → Has self.now q) }
        ensures complete { IfOk result (λ set. (q : ℕ) → Has self.now q → Has set q ⊎ Has other.now q) }
    {
        let mut set = PositionSet::empty(alloc);
        for (i, word) in self.words.iter().enumerate() {
            let w = self.first + i;
            set.add_word(w, *word & !other.word(w))?;
        }
        Ok(set)
    }

    /// The positions so far after those of this set, as far as the other set has them.
    pub(crate) fn moved_within(
        &self,
        alloc: Global,
        distance: usize,
        other: &PositionSet,
    ) -> Result<PositionSet>
        ensures { IfOk result (λ set. (q : ℕ) → Has set q ↔ (distance ≤ q × Has self.now (q - distance) × Has other.now q)) }
    {
        let low = self.low().saturating_add(distance).max(other.low());
        let high = self.high().saturating_add(distance).min(other.high());
        let end = (high + 63) / 64;
        let first = (low / 64).min(end);
        let mut words = Vec::new(alloc);
        words.reserve(end - first)?;
        for w in first..end {
            words.push(self.moved(w, distance) & other.word(w))?;
        }
        Ok(PositionSet { first, words })
    }

    /// Whether the other set has each of these positions, and no others from the lowest of them on. It goes by words.
    pub(crate) fn is_tail_of(&self, whole: &PositionSet) -> bool
        ensures { IsTrue result → IsTail self.now whole.now }
    {
        let end = (self.first + self.words.len()).max(whole.first + whole.words.len());
        let mut begun = false;
        for w in self.first..end {
            let own = self.word(w);
            let low = if begun { 0 } else { own.trailing_zeros() };
            if low < 64 {
                if own >> low != whole.word(w) >> low {
                    return false;
                }
                begun = true;
            }
        }
        true
    }

    /// Whether both sets keep the same words, and so the same positions. Equal sets may differ in the words that are 0.
    pub(crate) fn is_same(&self, other: &PositionSet) -> bool
        ensures { IsTrue result → (p : ℕ) → Has self.now p ↔ Has other.now p }
    {
        self.first == other.first && self.words.as_slice() == other.words.as_slice()
    }
}
