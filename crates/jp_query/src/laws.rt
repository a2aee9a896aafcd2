//! Laws of the definitions of queries, each on a function of its own.

ghost use Rattle.std.specs.Prelude.{◌≡◌, ℕ, ℤ, List, ◌∷◌, Some, true, IsFalse};
ghost use Rattle.jp_model.specs.Query.Limits.{is_oversized, has_exact_integers};
ghost use Rattle.jp_model.specs.Query.Spelling.{SpellsQuery};
ghost use Rattle.jp_model.specs.Query.Status.{QueryStatus, TextSpells, HasQueryStatus};
ghost use Rattle.jp_model.specs.Query.Syntax.{Segments};
ghost use Rattle.jp_query.specs.Integers.{clamp, map_ints};
ghost use Rattle.jp_syntax.specs.Sound.{has_sound_literals};
ghost use Rattle.jp_query.specs.Relative.{HasRelativeStatus};
ghost use Rattle.jp_query.specs.Status.{query_of, read_text, relative_query_of};
ghost use Rattle.jp_syntax.specs.WellFormed.{IsWellFormed};

/// The scalars of a query spell one syntax tree alone (RFC 9535, section 2.1.1).
pub fn one_tree()
    ensures { (x : List ℕ) (a b : Segments) → SpellsQuery x a → SpellsQuery x b → a ≡ b }
{}

/// A text within the limits is read just where it spells a query, as that query with its integers changed (RFC 9535,
/// section 2.1.1).
pub fn texts_are_read_as_they_are_spelled()
    ensures spelled { (of_int : ℤ → ℤ) (text : List ℕ) (q : Segments) → IsFalse (is_oversized text) → TextSpells text q
        → read_text of_int text ≡ Some (map_ints of_int q) }
    ensures read { (of_int : ℤ → ℤ) (text : List ℕ) (r : Segments) → read_text of_int text ≡ Some r
        → (q : Segments) × TextSpells text q × (map_ints of_int q ≡ r) }
{}

/// Integers that are kept near the exact ones leave an exact query as it is, and make no other query exact (RFC 9535,
/// section 2.1).
pub fn clamped_integers_are_told()
    ensures kept { (q : Segments) → has_exact_integers q ≡ has_exact_integers (map_ints clamp q) }
    ensures same { (q : Segments) → has_exact_integers q ≡ true → map_ints clamp q ≡ q }
{}

/// Each number literal of a query that a text within the limits spells can be read as a decimal (RFC 9535, section
/// 2.3.5.1).
pub fn well_formed_queries_are_sound()
    ensures { (q : Segments) → IsWellFormed q → has_sound_literals q ≡ true }
{}

/// Each text has the status that is computed of it, and no other (RFC 9535, section 2.1).
pub fn every_query_text_has_its_status()
    ensures has { (text : List ℕ) → HasQueryStatus text (query_of text) }
    ensures only { (text : List ℕ) (s : QueryStatus) → HasQueryStatus text s → s ≡ query_of text }
{}

/// A rel-query has the status of the query with `$` in the place of its `@` (RFC 9535, section 2.3.5.1).
pub fn rel_queries_are_as_queries()
    ensures { (rest : List ℕ) → relative_query_of (64 ∷ rest) ≡ query_of (36 ∷ rest) }
{}

/// Each text has the status as a rel-query that is computed of it, and no other (RFC 9535, section 2.3.5.1).
pub fn every_rel_query_text_has_its_status()
    ensures has { (text : List ℕ) → HasRelativeStatus text (relative_query_of text) }
    ensures only { (text : List ℕ) (s : QueryStatus) → HasRelativeStatus text s → s ≡ relative_query_of text }
{}
