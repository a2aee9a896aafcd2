//! Whether what was scanned is UTF-8.

ghost use Rattle.std.specs.Prelude.{ℕ, List, [], ◌++◌, ◌↔◌, IsTrue};
ghost use Rattle.std.specs.Str.{IsUtf8};
ghost use Rattle.jp_masks.specs.Validity.{HasTested};

use jp_lanes::are_ascii;
use simdutf8::Checker;
use std::simd::prelude::*;

/// What is known of the blocks that were tested. Up to the first byte above 7F nothing is asked of the checker.
#[derive(Clone, Copy, Drop)]
pub struct Validity {
    is_ascii: bool,
    checker: Checker,
}

impl Validity {
    /// Nothing was tested.
    pub fn new() -> Validity
        ensures { HasTested result [] }
    {
        Validity {
            is_ascii: true,
            checker: Checker::new(),
        }
    }

    /// Tests the next block.
    #[inline(always)]
    pub fn step(&mut self, block: &[u8; 64])
        ensures { (read : List ℕ) → HasTested self.old read → HasTested self.new (read ++ block.now) }
    {
        if self.is_ascii && are_ascii(block) {
            return;
        }
        self.is_ascii = false;
        self.checker = self.checker.step(u8x64::from_array(*block));
    }

    /// Whether all blocks together are UTF-8.
    pub fn finish(self) -> bool
        ensures { (read : List ℕ) → HasTested self read → IsTrue result ↔ IsUtf8 read }
    {
        self.checker.finish()
    }
}
