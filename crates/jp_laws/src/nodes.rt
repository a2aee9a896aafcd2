//! Laws of what queries select: singular queries, and descendants (RFC 9535, sections 2.3.5.1 and 2.5.2).

ghost use Rattle.std.specs.Prelude.{◌≡◌, ◌≢◌, ◌≤◌, ◌↔◌, ℕ, List, [], ◌∷◌, length, map, All, false, true, is_some, codes};
ghost use Rattle.std.specs.List.Sorted.{IsPermutation};
ghost use Rattle.jp_model.specs.Json.Faults.{has_duplicate};
ghost use Rattle.jp_model.specs.Json.Tree.{Tree};
ghost use Rattle.jp_model.specs.Meaning.Nodes.{Node, root_node, children, subtree};
ghost use Rattle.jp_model.specs.Meaning.Selecting.{nodes, truth, compared_value, call_value};
ghost use Rattle.jp_model.specs.Query.Singular.{singular_steps};
ghost use Rattle.jp_model.specs.Query.Syntax.{Segments, Path, exists, single, nodes_argument, argument, no_arguments, call};
ghost use Rattle.jp_model.specs.Query.Typing.{is_singular_path};
ghost use Rattle.jp_laws.specs.Alike.{AlikeTrees};
ghost use Rattle.jp_laws.specs.Nodes.{IsAmong, IsWithin, AreApart, all_descendants};
ghost use Rattle.jp_laws.specs.Reordered.{ReorderedTrees};

use jp_decimal::laws;

/// A tree has equal names just where two children of one of its nodes are at one location: where the locations of each node's
/// children are different there are none, and where those of one node are not, there are.
///
/// That every tree has equal names would leave the laws of trees without them empty, and is refused here.
pub fn equal_names_are_children_at_one_location()
    ensures none { (t : Tree) → ((n : Node) → IsWithin (root_node t) n → AreApart (children n)) → has_duplicate t ≡ false }
    ensures some { (t : Tree) (n : Node) → IsWithin (root_node t) n → (AreApart (children n) → ⊥) → has_duplicate t ≡ true }
{}

/// From nodes whose trees have no equal names a query selects nodes whose trees have none either.
pub fn selected_nodes_have_no_equal_names()
    ensures { (q : Segments) (list : List Node) (t : Tree) → All (λ n. has_duplicate n.tree ≡ false) list → All (λ n. has_duplicate n.tree ≡ false) (nodes q list t) }
{}

/// What a query selects in a tree is the tree's root or below it.
pub fn selected_nodes_are_in_the_tree()
    ensures { (q : Segments) (t : Tree) (n : Node) → IsAmong n (nodes q (root_node t ∷ []) t) → IsWithin (root_node t) n }
{}

/// A singular query selects at most one node of a tree without equal names (RFC 9535, section 2.3.5.1).
pub fn singular_queries_select_one_at_most()
    ensures { (q : Segments) (n : Node) (t : Tree) → is_some (singular_steps q) ≡ true → has_duplicate n.tree ≡ false → length (nodes q (n ∷ []) t) ≤ 1 }
{}

/// So a singular query as a test holds exactly where it has a value in a comparison, which is what `value` answers of it.
pub fn tests_of_singular_queries_are_of_their_values()
    ensures test { (p : Path) (n : Node) (t : Tree) → is_singular_path p ≡ true → has_duplicate n.tree ≡ false → has_duplicate t ≡ false
        → truth (exists p) n t ≡ is_some (compared_value (single p) n t) }
    ensures value { (p : Path) (n : Node) (t : Tree)
        → call_value (call (codes "value") (argument (nodes_argument p) no_arguments)) n t ≡ compared_value (single p) n t }
{}

/// The node and its descendants are visited once each: in a tree without equal names the locations of `subtree` are all
/// different, and a node is among them exactly where it is the node or below it.
pub fn descendants_are_visited_once()
    ensures apart { (n : Node) → has_duplicate n.tree ≡ false → AreApart (subtree n) }
    ensures all { (n m : Node) → IsAmong m (subtree n) ↔ IsWithin n m }
{}

/// In a tree without equal names `$..*` selects each node but the root once.
pub fn all_descendants_are_selected_once()
    ensures apart { (t : Tree) → has_duplicate t ≡ false → AreApart (nodes all_descendants (root_node t ∷ []) t) }
    ensures all { (t : Tree) (m : Node) → IsAmong m (nodes all_descendants (root_node t ∷ []) t) ↔ (IsWithin (root_node t) m × (m.location ≢ [])) }
{}

/// Trees that say the same have nodes at the same locations for every query: it does not matter where a value stands, how its
/// strings and names are escaped, and how its numbers are spelled.
///
/// A `length` of numbers that is that of their digits is refused here.
pub fn spelling_does_not_matter()
    ensures { (q : Segments) (t u : Tree) → AlikeTrees t u → map (λ (n : Node). n.location) (nodes q (root_node t ∷ []) t) ≡ map (λ (n : Node). n.location) (nodes q (root_node u ∷ []) u) }
{
    laws::values_are_in_total_order();
}

/// Trees without equal names that are the same but for the order of members have nodes at the same locations for every query,
/// each as often, but for the order of the nodes (RFC 8259, section 4).
///
/// That the value of several nodes is that of the first, which depends on which member comes first, is refused here.
pub fn nodes_do_not_depend_on_the_order_of_members()
    ensures { (q : Segments) (t u : Tree) → ReorderedTrees t u → has_duplicate t ≡ false → has_duplicate u ≡ false
        → IsPermutation (map (λ (n : Node). n.location) (nodes q (root_node t ∷ []) t))
        (map (λ (n : Node). n.location) (nodes q (root_node u ∷ []) u)) }
{
    laws::values_are_in_total_order();
}
