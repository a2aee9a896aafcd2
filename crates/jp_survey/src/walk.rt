//! The places of nodes of lines.

ghost use Rattle.std.specs.Prelude.{◌≡◌, ◌++◌, ◌∷◌, [], ℕ, IfOk, List, OnOk, true};
ghost use Rattle.jp_nodes.specs.Cursors.{node_of};
ghost use Rattle.jp_survey.specs.Foldings.{folded_by};
ghost use Rattle.jp_survey.specs.Justified.{IsJustified};
ghost use Rattle.jp_survey.specs.Paths.{Line, Path, strides_of};
ghost use Rattle.jp_survey.specs.Places.{has_path};
ghost use Rattle.jp_survey.specs.Seen.{HasBegun};
ghost use Rattle.jp_survey.specs.Trees.{Grows, IsPlaceAt, IsTree, tree_folds, tree_paths};

use crate::tree::Tree;
use jp_nodes::Cursor;
use std::alloc::AllocError;

impl Tree {
    /// The place of a node of a line. It visits the node and its ancestors, at most 512: a line that nests deeper has no tape.
    fn node_place(&mut self, node: Cursor<'_>) -> Result<usize, AllocError>
        requires { IsTree self.old }
        ensures tree { OnOk result (IsTree self.new) }
        ensures grows { OnOk result (Grows self.old self.new) }
        ensures place { IfOk result (λ place. IsPlaceAt self.new place (folded_by (tree_folds self.old) (strides_of (node_of node.entry).location))) }
        ensures justified { (fold : ℕ) (seen : List Path) (rest : Path) → has_path seen (strides_of (node_of node.entry).location ++ rest) ≡ true
            → IsJustified fold seen (tree_paths self.old) (tree_folds self.old) → OnOk result (IsJustified fold seen (tree_paths self.new) (tree_folds self.new)) }
    {
        let Some(parent) = node.parent() else {
            return Ok(0);
        };
        let above = self.node_place(parent)?;
        self.next_place(above, above, node)
    }

    /// Counts a node of the line that has begun, and all that is in it.
    pub(crate) fn count_node(&mut self, node: Cursor<'_>) -> Result<(), AllocError>
        requires { IsTree self.old }
        ensures tree { OnOk result (IsTree self.new) }
        ensures begun { (fold : ℕ) (lines : List Line) (line : Line) → HasBegun fold lines line self.old → OnOk result (HasBegun fold lines (line ++ node_of node.entry ∷ []) self.new) }
    {
        let place = self.node_place(node)?;
        self.count_nodes(place, node)
    }
}
