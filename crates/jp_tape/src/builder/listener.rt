//! What is told of a text while it is read: its values, names and brackets, in the order of the line.

ghost use Rattle.std.specs.Prelude.{◌∷◌, ◌-◌, ◌^◌, ◌<◌, ℕ, List, Option, None, Some, IfOk};
ghost use Rattle.jp_model.specs.Json.Tree.{node, container, no_child, Name};
ghost use Rattle.jp_nodes.specs.Kinds.{container_if};
ghost use Rattle.jp_tape.specs.Reading.{FoundScalar, FoundLabel, IsPlainLabel};
ghost use Rattle.jp_tape.specs.Machine.{Frame, entered};
ghost use Rattle.jp_tape.specs.Reader.{Told, Up_to, SuitsIn, after_value, Listens};

use super::tokens::{Label, Scalar};
use std::alloc::AllocError;

/// Who is told. It has room for the values that it is told of: each that begins takes one of what is left.
pub(super) trait Listener {
    /// What it holds stands for what it was told of this line.
    ghost stands: { Self → List ℕ → Told → Type 0 };

    /// A value that is no array and no object begins at `at`.
    fn leaf(&mut self, at: usize, leaf: Scalar)
        requires fits { (at < leaf.end) × (leaf.end < 2 ^ 32) }
        requires listens { Listens (stands self.old) }
        ensures { (line : List ℕ) (frames : List Frame) (own : Option Name) (room : ℕ) (found : FoundScalar line at leaf) → SuitsIn frames own → 0 < room → stands self.old line (Up_to frames own room) → stands self.new line (after_value frames own (node (record { start = at; end = leaf.end }) found.value) (room - 1)) };

    /// An array or an object without children begins at `at`, and ends before `end`.
    fn empty(&mut self, at: usize, end: usize, is_object: bool)
        requires fits { (at < end) × (end < 2 ^ 32) }
        requires listens { Listens (stands self.old) }
        ensures { (line : List ℕ) (frames : List Frame) (own : Option Name) (room : ℕ) → SuitsIn frames own → 0 < room → stands self.old line (Up_to frames own room) → stands self.new line (after_value frames own (node (record { start = at; end = end }) (container (container_if is_object) no_child)) (room - 1)) };

    /// The name of the member whose value comes next.
    fn name(&mut self, name: Label)
        requires listens { (line : List ℕ) × (frames : List Frame) × (room : ℕ) × (0 < room) × stands self.old line (Up_to frames None room) }
        ensures { (line : List ℕ) (from : ℕ) (frames : List Frame) (room : ℕ) (found : FoundLabel line from name) → IsPlainLabel line name → 0 < room → stands self.old line (Up_to frames None room) → stands self.new line (Up_to frames (Some found.name) room) };

    /// An array or an object that has children begins at `at`.
    fn open(&mut self, at: usize, is_object: bool)
        requires fits { at < 2 ^ 32 }
        requires listens { Listens (stands self.old) }
        ensures { (line : List ℕ) (frames : List Frame) (own : Option Name) (room : ℕ) → SuitsIn frames own → 0 < room → stands self.old line (Up_to frames own room) → stands self.new line (Up_to (entered (container_if is_object) at own ∷ frames) None (room - 1)) };

    /// The innermost of them that are open ends before `end`. Its only error is want of memory.
    fn close(&mut self, line: &[u8], end: usize) -> Result<(), AllocError>
        requires fits { end < 2 ^ 32 }
        requires listens { (f : Frame) × (frames : List Frame) × (room : ℕ) × stands self.old line.now (Up_to (f ∷ frames) None room) }
        ensures { IfOk result (λ _. (f : Frame) (frames : List Frame) (room : ℕ) → stands self.old line.now (Up_to (f ∷ frames) None room) → stands self.new line.now (after_value frames f.name (node (record { start = f.start; end = end }) (container f.kind f.done)) room)) };
}

/// All it wants to know is whether there is a text.
#[derive(Drop)]
pub(super) struct Deaf;

impl Listener for Deaf {
    ghost stands = { λ deaf line told. Unit {0} };

    fn leaf(&mut self, _at: usize, _leaf: Scalar) {}

    fn empty(&mut self, _at: usize, _end: usize, _is_object: bool) {}

    fn name(&mut self, _name: Label) {}

    fn open(&mut self, _at: usize, _is_object: bool) {}

    fn close(&mut self, _line: &[u8], _end: usize) -> Result<(), AllocError> {
        Ok(())
    }
}
