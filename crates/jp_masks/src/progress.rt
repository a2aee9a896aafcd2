//! The scan of whole blocks: all that is not about cuts.

ghost use Rattle.std.specs.Prelude.{◌≡◌, ℕ, List, [], ◌+◌, ◌*◌, ◌^◌, ◌<◌, ◌≤◌, ◌++◌, length, flat_map, OnOk, OnErr};

use crate::block::{Carry, scan_block};
use crate::lines::Marks;
use crate::validity::Validity;
use jp_model::Framing;
use std::alloc::AllocError;

/// What is known after the whole blocks that were scanned.
#[derive(Clone, Copy, Drop)]
pub struct Progress {
    pub framing: Framing,
    pub scanned: u32,
    /// Where the open line begins.
    pub start: u32,
    pub carry: Carry,
    pub validity: Validity,
    ghost in_order: { start ≤ scanned },
}

impl Progress {
    ghost use Rattle.jp_model.specs.declared.Framing.{Framing};
    ghost use Rattle.jp_masks.specs.declared.lines.Marks.{Marks};
    ghost use Rattle.jp_masks.specs.Scanned.{InBlocks, IsEmpty, Grows};

    /// At the start of a collection.
    pub fn new(framing: Framing) -> Progress
        ensures start { (sink : Marks) → IsEmpty sink → InBlocks framing [] result sink }
        ensures scanned { result.scanned ≡ 0 }
        ensures framing { result.framing ≡ framing }
    {
        Progress {
            framing,
            scanned: 0,
            start: 0,
            carry: Carry::START,
            validity: Validity::new(),
        }
    }

    /// Takes in a whole block.
    #[inline(always)]
    pub fn step(&mut self, block: &[u8; 64], sink: &mut Marks) -> Result<(), AllocError>
        requires { self.old.scanned + 64 < 2 ^ 32 }
        ensures scanned { (framing : Framing) (whole : List ℕ) → InBlocks framing whole self.old sink.old
            → OnOk result (InBlocks framing (whole ++ block.now) self.new sink.new) }
        ensures counted { OnOk result (self.new.scanned ≡ self.old.scanned + 64) }
        ensures err { OnErr result (self.new ≡ self.old) }
        ensures grown { Grows sink.old sink.new }
    {
        let block_found = scan_block(block, Some(self.framing), self.carry);
        self.start = sink.add_block(
            self.framing,
            self.scanned,
            self.start,
            block_found.marks,
            block_found.ends,
        )?;
        self.carry = block_found.next;
        self.validity.step(block);
        self.scanned += 64;
        Ok(())
    }

    /// Takes in whole blocks in order.
    pub fn scan_blocks(&mut self, blocks: &[[u8; 64]], sink: &mut Marks) -> Result<(), AllocError>
        requires { self.old.scanned + 64 * length blocks.now < 2 ^ 32 }
        ensures scanned { (framing : Framing) (whole : List ℕ) → InBlocks framing whole self.old sink.old
            → OnOk result (InBlocks framing (whole ++ flat_map (λ b. b) blocks.now) self.new sink.new) }
        ensures counted { OnOk result (self.new.scanned ≡ self.old.scanned + 64 * length blocks.now) }
        ensures within { self.new.scanned ≤ self.old.scanned + 64 * length blocks.now }
        ensures grown { Grows sink.old sink.new }
    {
        for block in blocks {
            self.step(block, sink)?;
        }
        Ok(())
    }
}
