//! What is counted of all lines.

ghost use Rattle.std.specs.Prelude.{◌≡◌, ◌+◌, ◌<◌, ◌≤◌, ◌^◌, OnOk, cond};
ghost use Rattle.jp_index.specs.Numbered.{with_number};

use jp_index::LineSet;
use jp_lines::Line;
use std::alloc::AllocError;

/// What is counted of all lines, so that an edit reads no line but its own.
#[derive(Drop)]
pub(crate) struct Counts {
    /// The bytes of the lines, with one more for each.
    pub(crate) held: u64,
    /// How many lines have a tree.
    pub(crate) trees: u32,
    /// The refused lines.
    pub(crate) refused: LineSet,
}

impl Counts {
    ghost use Rattle.jp_index.specs.LineSetViews.{numbers_of, room_in};
    ghost use Rattle.jp_lines.specs.Stored.{told_of, is_fault_status, is_tree_status};

    /// Makes room for the lines up to one. The counts stay, also after an `Err`.
    pub(crate) fn reserve(&mut self, number: u32) -> Result<(), AllocError>
        ensures held { self.new.held ≡ self.old.held }
        ensures trees { self.new.trees ≡ self.old.trees }
        ensures refused { numbers_of self.new.refused ≡ numbers_of self.old.refused }
        ensures room { OnOk result (number < room_in self.new.refused) }
    {
        self.refused.reserve(number)
    }

    /// Counts a line in the place of another, or of none, which had a tree or not; all are then of this size. It takes no
    /// memory.
    pub(crate) fn change(&mut self, held: u64, number: u32, had_tree: bool, line: &Line)
        requires least { cond had_tree 1 0 ≤ self.old.trees }
        requires most { self.old.trees + 1 < 2 ^ 32 + cond had_tree 1 0 }
        requires room { number < room_in self.old.refused }
        ensures held { self.new.held ≡ held }
        ensures trees { self.new.trees + cond had_tree 1 0 ≡ self.old.trees + cond (is_tree_status (told_of line.now)) 1 0 }
        ensures refused { numbers_of self.new.refused ≡ with_number number (is_fault_status (told_of line.now)) (numbers_of self.old.refused) }
        ensures room { room_in self.new.refused ≡ room_in self.old.refused }
    {
        self.held = held;
        self.trees -= u32::from(had_tree);
        self.trees += u32::from(line.is_tree());
        self.refused.set(number, line.is_refused());
    }
}
