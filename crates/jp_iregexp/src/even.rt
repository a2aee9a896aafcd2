//! The turns of a part whose texts all have one length. They are doubled: what a number of turns reach from everywhere, taken
//! twice, is what twice as many reach.

ghost use Rattle.std.specs.Prelude.{◌^◌, ◌<◌, ◌≤◌, IfOk};
ghost use Rattle.jp_iregexp.specs.Evens.{AreRuns};

use crate::positions::PositionSet;
use std::alloc::{AllocError, Global};

/// The positions after `count` steps of this length, one after another, where the end of each step is in the set.
pub(crate) fn doubled(
    alloc: Global,
    once: &PositionSet,
    length: usize,
    count: u32,
) -> Result<PositionSet, AllocError>
    requires some { 0 < count }
    requires fits { length ≤ 2 ^ 31 }
    ensures { IfOk result (λ set. AreRuns once.now length count set) }
{
    let count = count as usize;
    let mut all = once.copy(alloc)?;
    let mut turns = 1;
    while turns <= count - turns {
        all = all.moved_within(alloc, turns * length, &all)?;
        turns *= 2;
    }
    all.moved_within(alloc, (count - turns) * length, &all)
}
