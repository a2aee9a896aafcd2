//! Laws of what an index stands for: its lines ascend, and each has one entry at most.

ghost use Rattle.std.specs.Prelude.{ℕ, ◌≤◌, List, length, map};
ghost use Rattle.std.specs.List.Sorted.{IsStrictlyIncreasing};
ghost use Rattle.jp_model.specs.Json.Tree.{Value};
ghost use Rattle.jp_model.specs.Query.Syntax.{CompareOp};
ghost use Rattle.jp_model.specs.Steps.{Step};
ghost use Rattle.jp_index.specs.Entries.{Entry, entries_at, lines_where};
ghost use Rattle.jp_index.specs.Indexes.{IsIndexOf};
ghost use Rattle.jp_index.specs.declared.index.ValueIndex.{ValueIndex};

/// The lines of an index ascend.
pub fn lines_ascend()
    ensures { (index : ValueIndex) (path : List Step) (entries : List Entry) → IsIndexOf index path entries → IsStrictlyIncreasing (map (λ (e : Entry). e.line) entries) }
{}

/// The lines whose node compares so with a value ascend.
pub fn found_lines_ascend()
    ensures { (index : ValueIndex) (path : List Step) (entries : List Entry) (op : CompareOp) (v : Value) → IsIndexOf index path entries → IsStrictlyIncreasing (lines_where op v entries) }
{}

/// A line has one entry at most.
pub fn a_line_has_one_entry()
    ensures { (index : ValueIndex) (path : List Step) (entries : List Entry) (line : ℕ) → IsIndexOf index path entries → length (entries_at line entries) ≤ 1 }
{}
