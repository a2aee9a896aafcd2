//! A set of lines.

ghost use Rattle.std.specs.Prelude.{◌≡◌, ℕ, ◌+◌, ◌*◌, ◌<◌, ◌≤◌, ◌^◌, ◌==◌, [], IfOk, OnOk, cond, get_or, length, max, set};
ghost use Rattle.jp_index.specs.LineSets.{bit_of, bits_of, numbers_in};
ghost use Rattle.jp_index.specs.Numbered.{IsFirstBehind, with_number};

use std::alloc::{AllocError, Global};

/// Some lines of a collection, a bit for each line.
#[derive(Drop)]
pub struct LineSet {
    /// Bit i of word k is that of line 64 k + i.
    words: Vec<u64>,
    /// The number of lines that are in it.
    count: usize,
    ghost few: { length words.items ≤ 2 ^ 26 },
    ghost counted: { count ≡ length (numbers_in words.items) },
}

/// Whether the bit at a position is set.
fn has_bit(words: &[u64], position: usize) -> bool
    requires { position < 64 * length words.now }
    ensures { result ≡ (bit_of words.now position == 1) }
{
    (words[position / 64] >> (position % 64)) & 1 == 1
}

/// Sets the bit at a position, or clears it.
fn set_bit(words: &mut Vec<u64>, position: usize, is_set: bool)
    requires { position < 64 * length words.old.items }
    ensures bits { bits_of words.new.items ≡ set (bits_of words.old.items) position (cond is_set 1 0) }
    ensures length { length words.new.items ≡ length words.old.items }
{
    let bit = 1 << (position % 64);
    if is_set {
        words[position / 64] |= bit;
    } else {
        words[position / 64] &= !bit;
    }
}

/// The first position, from one on, whose bit is set, or the position after all.
fn next_position(words: &[u64], from: usize) -> usize
    requires few { length words.now ≤ 2 ^ 26 }
    requires within { from ≤ 64 * length words.now }
    ensures from { from ≤ result }
    ensures within { result ≤ 64 * length words.now }
    ensures between { (k : ℕ) → from ≤ k → k < result → bit_of words.now k ≡ 0 }
    ensures there { result < 64 * length words.now → bit_of words.now result ≡ 1 }
{
    let mut position = from;
    while position < 64 * words.len() {
        let rest = words[position / 64] >> (position % 64);
        if rest != 0 {
            return position + rest.trailing_zeros() as usize;
        }
        position = (position / 64 + 1) * 64;
    }
    position
}

impl LineSet {
    ghost use Rattle.jp_index.specs.LineSetViews.{room_in, numbers_of};

    /// No line. It allocates nothing.
    pub fn new(alloc: Global) -> LineSet
        ensures { numbers_of result ≡ [] }
    {
        LineSet {
            words: Vec::new(alloc),
            count: 0,
        }
    }

    /// The number of lines that are in it.
    pub fn count(&self) -> usize
        ensures { result ≡ length (numbers_of self.now) }
    {
        self.count
    }

    /// Makes room for the lines up to one, and for no more than 64 after it. The set stays, also after an `Err`.
    pub fn reserve(&mut self, line: u32) -> Result<(), AllocError>
        ensures same { numbers_of self.new ≡ numbers_of self.old }
        ensures room { OnOk result (line < room_in self.new) }
        ensures little { room_in self.new ≤ max (room_in self.old) (line + 64) }
    {
        while 64 * self.words.len() <= line as usize {
            self.words.push(0)?;
        }
        Ok(())
    }

    /// Puts a line in, or takes it out. It allocates nothing.
    pub fn set(&mut self, line: u32, is_in: bool)
        requires { line < room_in self.old }
        ensures lines { numbers_of self.new ≡ with_number line is_in (numbers_of self.old) }
        ensures room { room_in self.new ≡ room_in self.old }
    {
        let position = line as usize;
        let count = self.count - usize::from(has_bit(&self.words, position)) + usize::from(is_in);
        set_bit(&mut self.words, position, is_in);
        self.count = count;
    }

    /// The first of its lines after line `n`. Between them a bit is looked at for each line.
    pub fn first_behind(&self, n: u32) -> Option<u32>
        ensures { IsFirstBehind n (numbers_of self.now) result }
    {
        let end = 64 * self.words.len();
        let position = next_position(&self.words, end.min(n as usize + 1));
        if position < end {
            Some(position as u32)
        } else {
            None
        }
    }

    /// The numbers of its lines, ascending, in the time of their count and of a bit for each line.
    pub fn numbers(&self, alloc: Global) -> Result<Vec<u32>, AllocError>
        ensures { IfOk result (λ numbers. numbers.items ≡ numbers_of self.now) }
    {
        let mut numbers = Vec::new(alloc);
        if self.count == 0 {
            return Ok(numbers);
        }
        let end = 64 * self.words.len();
        let mut position = next_position(&self.words, 0);
        while position < end {
            numbers.push(position as u32)?;
            position = next_position(&self.words, position + 1);
        }
        Ok(numbers)
    }
}
