//! Laws of normalized paths (RFC 9535, section 2.7): a row leads back to its node.

ghost use Rattle.std.specs.Prelude.{◌≡◌, ◌≤◌, ℕ, List, [], ◌∷◌, length, false, None};
ghost use Rattle.jp_model.specs.declared.Framing.{Framing};
ghost use Rattle.jp_model.specs.Json.Faults.{has_duplicate};
ghost use Rattle.jp_model.specs.Json.Status.{parsed, HasStatus};
ghost use Rattle.jp_model.specs.Json.Tree.{Tree};
ghost use Rattle.jp_model.specs.Meaning.Nodes.{Node, root_node};
ghost use Rattle.jp_model.specs.Meaning.Paths.{path_text};
ghost use Rattle.jp_model.specs.Meaning.Selecting.{nodes};
ghost use Rattle.jp_model.specs.Query.Limits.{is_oversized};
ghost use Rattle.jp_model.specs.Query.Singular.{steps_query};
ghost use Rattle.jp_model.specs.Query.Status.{TextSpells, fault_of_query, query, HasQueryStatus};
ghost use Rattle.jp_laws.specs.Nodes.{IsWithin};

/// A row leads back to its node: of a line with a tree, of any framing, and of a node of this tree, the text of the normalized
/// path spells the singular query of the node's location (RFC 9535, appendix A), this query has no fault and is well-typed, it
/// is the status of the text unless the text is too large; and over a tree without equal names, as each line's tree is, it
/// selects exactly that node.
///
/// The line has at most 9,007,199,254,740,991 bytes, so that each index is exact (RFC 9535, section 2.1).
pub fn a_row_leads_back_to_its_node()
    ensures spelled { (f : Framing) (line : List ℕ) (t : Tree) → HasStatus f line (parsed t) → length line ≤ 9007199254740991 → (n : Node) → IsWithin (root_node t) n
        → TextSpells (path_text n.location) (steps_query n.location) }
    ensures sound { (f : Framing) (line : List ℕ) (t : Tree) → HasStatus f line (parsed t) → length line ≤ 9007199254740991 → (n : Node) → IsWithin (root_node t) n
        → fault_of_query (steps_query n.location) ≡ None }
    ensures status { (f : Framing) (line : List ℕ) (t : Tree) → HasStatus f line (parsed t) → length line ≤ 9007199254740991 → (n : Node) → IsWithin (root_node t) n
        → is_oversized (path_text n.location) ≡ false → HasQueryStatus (path_text n.location) (query (steps_query n.location)) }
    ensures selects { (t : Tree) → has_duplicate t ≡ false → (n : Node) → IsWithin (root_node t) n → nodes (steps_query n.location) (root_node t ∷ []) t ≡ n ∷ [] }
{}

/// Two nodes of a line of that length never show one path.
pub fn no_two_nodes_show_one_path()
    ensures { (f : Framing) (line : List ℕ) (t : Tree) → HasStatus f line (parsed t) → length line ≤ 9007199254740991 → (m n : Node) → IsWithin (root_node t) m → IsWithin (root_node t) n
        → path_text m.location ≡ path_text n.location → m ≡ n }
{}
