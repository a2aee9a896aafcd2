//! Laws of canonical text: it is one text for all values that are equal, and says the value (RFC 9535, section 2.3.5.2.2, in
//! the manner of RFC 8785).

ghost use Rattle.std.specs.Prelude.{◌≡◌, ◌↔◌, ℕ, List, true, Some};
ghost use Rattle.jp_canon.specs.Canonical.{canonical_text, value_text};
ghost use Rattle.jp_model.specs.declared.Framing.{Framing};
ghost use Rattle.jp_model.specs.declared.Framing.TheVariants.{Lines as in_lines};
ghost use Rattle.jp_model.specs.Json.Spelling.{Text};
ghost use Rattle.jp_model.specs.Json.Status.{parsed, HasStatus};
ghost use Rattle.jp_model.specs.Json.Tree.{Tree, Value, value_of};
ghost use Rattle.jp_model.specs.Meaning.Compare.{compared};
ghost use Rattle.jp_model.specs.Meaning.Nodes.{Node, root_node};
ghost use Rattle.jp_model.specs.Query.Syntax.{equal};
ghost use Rattle.jp_laws.specs.JsonTexts.{CanBeValue, HasNumbers};
ghost use Rattle.jp_laws.specs.Nodes.{IsWithin};
ghost use Rattle.jp_laws.specs.Ordered.{is_ordered};
ghost use Rattle.jp_laws.specs.Powers.{HasShortPower};
ghost use Rattle.jp_laws.specs.Values.{is_plain};

use jp_decimal::laws;
use jp_model::laws as readings;

/// Two values whose strings and names are scalars, without equal names, have one canonical text exactly where they are equal
/// (RFC 9535, section 2.3.5.2.2); so have any two nodes of the trees of lines.
///
/// A layout that keeps a zero after the point is refused here, and so are members in the order of the line, and numbers of
/// which only the last 64 digits are written.
pub fn canonical_texts_are_equal_where_values_are()
    ensures values { (v w : Value) → CanBeValue v → CanBeValue w → is_plain (Some v) ≡ true → is_plain (Some w) ≡ true
        → (value_text v ≡ value_text w) ↔ (compared equal (Some v) (Some w) ≡ true) }
    ensures nodes { (f g : Framing) (line other : List ℕ) (t u : Tree) → HasStatus f line (parsed t) → HasStatus g other (parsed u)
        → (n m : Node) → IsWithin (root_node t) n → IsWithin (root_node u) m
        → (canonical_text n.tree ≡ canonical_text m.tree) ↔ (compared equal (Some (value_of n.tree)) (Some (value_of m.tree)) ≡ true) }
{
    laws::values_are_in_total_order();
    readings::one_tree();
}

/// The canonical text of a node of a line's tree spells a tree whose value is equal to the node's, and whose canonical text is
/// the same bytes. Where the powers of ten of the first digits of its numbers are below 10^15, it is a line with that tree.
///
/// An exponent that is one too large is refused here.
pub fn canonical_text_says_the_value()
    ensures said { (f : Framing) (line : List ℕ) (t : Tree) → HasStatus f line (parsed t) → (n : Node) → IsWithin (root_node t) n
        → (u : Tree) × Text (canonical_text n.tree) u × (compared equal (Some (value_of u)) (Some (value_of n.tree)) ≡ true) × (canonical_text u ≡ canonical_text n.tree) }
    ensures status { (f : Framing) (line : List ℕ) (t : Tree) → HasStatus f line (parsed t) → (n : Node) → IsWithin (root_node t) n
        → HasNumbers HasShortPower n.tree → (u : Tree) → Text (canonical_text n.tree) u → HasStatus in_lines (canonical_text n.tree) (parsed u) }
{
    laws::values_are_in_total_order();
    readings::one_tree();
}

/// In each object of the tree that the canonical text of a node of a line's tree spells, the names ascend, as strings do
/// (RFC 9535, section 2.3.5.2.2).
///
/// The order of names by UTF-16 code units (RFC 8785, section 3.2.3) is refused here.
pub fn canonical_members_are_in_order()
    ensures { (f : Framing) (line : List ℕ) (t : Tree) → HasStatus f line (parsed t) → (n : Node) → IsWithin (root_node t) n
        → (u : Tree) → Text (canonical_text n.tree) u → is_ordered u ≡ true }
{
    laws::values_are_in_total_order();
    readings::one_tree();
}
