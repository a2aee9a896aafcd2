//! The positions of marks, in a list whose room is used again.

ghost use Rattle.std.specs.Prelude.{◌≡◌, ℕ, ◌+◌, ◌-◌, ◌^◌, ◌<◌, ◌≤◌, ◌++◌, [], true, map, take, length, OnOk, OnErr};

use crate::block::{BLOCK, write_block};
use std::alloc::{AllocError, Global};

/// So much room is made at once, that of eight blocks. What is not used of it is small.
const ROOM: usize = 8 * BLOCK;

/// The positions that were written, and room after them for others. The room is cleared when it is made, and never again.
#[derive(Drop)]
pub struct Positions {
    room: Vec<u32>,
    filled: usize,
    ghost in_room: { filled ≤ length room.items },
}

impl Positions {
    ghost use Rattle.jp_lanes.specs.Word.{bit};
    ghost use Rattle.jp_masks.specs.Positions.{set_bits};
    ghost use Rattle.jp_masks.specs.Written.{written};

    /// No position, and no room yet.
    pub fn new(alloc: Global) -> Positions
        ensures { written result ≡ [] }
    {
        Positions {
            room: Vec::new(alloc),
            filled: 0,
        }
    }

    /// Forgets all positions and keeps the room.
    pub fn clear(&mut self)
        ensures none { written self.new ≡ [] }
        ensures room { self.new.room ≡ self.old.room }
    {
        self.filled = 0;
    }

    /// How many positions there are.
    pub fn len(&self) -> usize
        ensures { result ≡ length (written self.now) }
    {
        self.filled
    }

    /// Leaves the first positions.
    pub fn truncate(&mut self, count: usize)
        requires { count ≤ length (written self.old) }
        ensures { written self.new ≡ take count (written self.old) }
    {
        self.filled = count;
    }

    /// All positions.
    pub fn as_slice(&self) -> &[u32]
        ensures { result.now ≡ written self.now }
    {
        &self.room[..self.filled]
    }

    /// Makes room for the positions of some blocks.
    #[inline(never)]
    fn grow(&mut self) -> Result<(), AllocError>
        ensures ok { OnOk result (length self.old.room.items + BLOCK ≤ length self.new.room.items) }
        ensures same { written self.new ≡ written self.old }
        ensures count { self.new.filled ≡ self.old.filled }
    {
        self.room.resize(self.room.len() + ROOM, 0)?;
        Ok(())
    }

    /// Makes room for the positions of a block.
    #[inline(always)]
    fn make_room(&mut self) -> Result<(), AllocError>
        ensures ok { OnOk result (self.new.filled + BLOCK ≤ length self.new.room.items) }
        ensures same { written self.new ≡ written self.old }
        ensures count { self.new.filled ≡ self.old.filled }
    {
        if self.room.len() - self.filled < BLOCK {
            return self.grow();
        }
        Ok(())
    }

    /// Adds the positions of the set bits of a block that begins at `base`, lowest first, each counted from `start`. After an
    /// `Err` the positions are as before.
    #[inline(always)]
    pub fn push_block(&mut self, base: u32, start: u32, word: u64) -> Result<(), AllocError>
        requires fits { (i : ℕ) → i < 64 → bit word i ≡ true → base + i < 2 ^ 32 }
        requires order { (i : ℕ) → i < 64 → bit word i ≡ true → start ≤ base + i }
        ensures ok { OnOk result (written self.new ≡ written self.old ++ map (λ i. base + i - start) (set_bits word)) }
        ensures err { OnErr result (written self.new ≡ written self.old) }
    {
        self.make_room()?;
        let count = write_block(&mut self.room[self.filled..], base, start, word);
        self.filled += count;
        Ok(())
    }
}
