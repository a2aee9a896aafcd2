//! Laws of comparisons (RFC 9535, section 2.3.5.2.2).

ghost use Rattle.std.specs.Prelude.{◌≡◌, ℕ, ℤ, pos, ◌*ℤ◌, ◌-ℤ◌, List, not, ◌||◌, true, Option, Some};
ghost use Rattle.jp_model.specs.declared.Framing.{Framing};
ghost use Rattle.jp_model.specs.Json.Spelling.{Spells};
ghost use Rattle.jp_model.specs.Json.Status.{parsed, HasStatus};
ghost use Rattle.jp_model.specs.Json.Tree.{Tree, Value, number, string, container, object, Children, child, Name, value_of, joined};
ghost use Rattle.jp_model.specs.Meaning.Compare.{compared};
ghost use Rattle.jp_model.specs.Meaning.Nodes.{Node, root_node};
ghost use Rattle.jp_model.specs.Meaning.Selecting.{compared_value};
ghost use Rattle.jp_model.specs.Query.Syntax.{Comparable, CompareOp, equal, not_equal, less, less_equal, greater, greater_equal};
ghost use Rattle.jp_laws.specs.Nodes.{IsWithin};
ghost use Rattle.jp_laws.specs.Values.{exactly_one, has_members, is_plain};

use jp_decimal::laws;

/// `==` is reflexive, symmetric and transitive on values without equal names and on Nothing.
pub fn equality_is_an_equivalence()
    ensures reflexive { (x : Option Value) → is_plain x ≡ true → compared equal x x ≡ true }
    ensures symmetric { (x y : Option Value) → is_plain x ≡ true → is_plain y ≡ true → compared equal x y ≡ compared equal y x }
    ensures transitive { (x y z : Option Value) → compared equal x y ≡ true → compared equal y z ≡ true → compared equal x z ≡ true }
{
    laws::values_are_in_total_order();
}

/// The order of an object's members does not matter: with two neighbours exchanged it is equal to what it was.
pub fn members_may_stand_in_any_order()
    ensures { (front rest : Children) (a b : Name) (x y : Tree) → is_plain (Some (container object (joined front (child (Some a) x (child (Some b) y rest))))) ≡ true
        → compared equal (Some (container object (joined front (child (Some a) x (child (Some b) y rest))))) (Some (container object (joined front (child (Some b) y (child (Some a) x rest))))) ≡ true }
{
    laws::values_are_in_total_order();
}

/// The members of each object of a tree that a line spells have names, as the law of equality asks.
pub fn spelled_members_have_names()
    ensures { (line : List ℕ) (t : Tree) → Spells line t → has_members (value_of t) ≡ true }
{}

/// So `==` is an equivalence wherever a query over a line compares: of each node of a line's tree, each side of a comparison is
/// Nothing or a value without equal names whose members have names.
pub fn sides_of_comparisons_are_plain()
    ensures { (f : Framing) (line : List ℕ) (t : Tree) → HasStatus f line (parsed t) → (n : Node) → IsWithin (root_node t) n → (c : Comparable) → is_plain (compared_value c n t) ≡ true }
{}

/// Of two numbers, and of two strings, exactly one of `<`, `==` and `>` holds.
pub fn order_is_decided()
    ensures numbers { (m e n f : ℤ) → exactly_one (compared less (Some (number m e)) (Some (number n f))) (compared equal (Some (number m e)) (Some (number n f)))
        (compared greater (Some (number m e)) (Some (number n f))) ≡ true }
    ensures strings { (x y : List ℕ) → exactly_one (compared less (Some (string x)) (Some (string y))) (compared equal (Some (string x)) (Some (string y)))
        (compared greater (Some (string x)) (Some (string y))) ≡ true }
{
    laws::values_are_in_total_order();
}

/// What is less than a lesser one is less.
pub fn order_is_transitive()
    ensures { (x y z : Option Value) → compared less x y ≡ true → compared less y z ≡ true → compared less x z ≡ true }
{
    laws::values_are_in_total_order();
}

/// The other operators are derived from `==` and `<` as section 2.3.5.2.2 says; `>=` is also `<=` with its sides changed.
pub fn operators_are_derived()
    ensures not_equal { (x y : Option Value) → compared not_equal x y ≡ not (compared equal x y) }
    ensures less_equal { (x y : Option Value) → compared less_equal x y ≡ (compared less x y || compared equal x y) }
    ensures greater { (x y : Option Value) → compared greater x y ≡ compared less y x }
    ensures greater_equal { (x y : Option Value) → compared greater_equal x y ≡ (compared greater x y || compared equal x y) }
    ensures turned { (x y : Option Value) → is_plain x ≡ true → is_plain y ≡ true → compared greater_equal x y ≡ compared less_equal y x }
{
    laws::values_are_in_total_order();
}

/// A number is its value: `m` times ten to the `e` is `10 m` times ten to the `e - 1` on either side of every operator.
pub fn numbers_are_their_values()
    ensures same { (m e : ℤ) → compared equal (Some (number m e)) (Some (number (m *ℤ pos 10) (e -ℤ pos 1))) ≡ true }
    ensures left { (op : CompareOp) (m e : ℤ) (y : Option Value) → compared op (Some (number (m *ℤ pos 10) (e -ℤ pos 1))) y ≡ compared op (Some (number m e)) y }
    ensures right { (op : CompareOp) (m e : ℤ) (y : Option Value) → compared op y (Some (number (m *ℤ pos 10) (e -ℤ pos 1))) ≡ compared op y (Some (number m e)) }
{
    laws::values_are_in_total_order();
}
