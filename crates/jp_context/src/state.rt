//! The rows that are kept.

ghost use Rattle.std.specs.Prelude.{◌≡◌, [], ◌<◌, ◌≤◌, length};

use crate::shown::Shown;
use std::alloc::Global;
use std::collections::VecDeque;

/// How rows are shown: how many before and after one that is selected, and whether what parts groups of them has a colour.
#[derive(Clone, Copy, Debug)]
pub(crate) struct Layout {
    pub(crate) before: u64,
    pub(crate) after: u64,
    pub(crate) coloured: bool,
}

/// The rows that came, as far as more rows can ask for them.
#[derive(Drop)]
pub(crate) struct Groups {
    pub(crate) alloc: Global,
    pub(crate) layout: Layout,
    /// How many rows are still to follow one that is selected.
    pub(crate) left: u64,
    /// What was shown before the rows that are kept.
    pub(crate) shown: Shown,
    /// The last rows of the stream, where they are not shown yet.
    pub(crate) kept: VecDeque<Vec<u8>>,
    /// Room for the next row that is kept, so that a row that goes leaves its memory to another.
    pub(crate) spare: Vec<u8>,
    ghost few: { length kept.items ≤ layout.before },
    ghost none: { 0 < left → kept.items ≡ [] },
}
