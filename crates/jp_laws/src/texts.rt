//! Laws of printers that read back: what the definitions can say at all has a text that says it, so that no grammar is too
//! narrow. That none is ambiguous, the laws of `jp_model`, `jp_iregexp` and `jp_query` say: a text spells one thing at most.

ghost use Rattle.std.specs.Prelude.{◌≡◌, ◌≤◌, ◌==◌, ℕ, List, [], ◌∷◌, ◌++◌, false, IsTrue, count_by, encode_utf8_all};
ghost use Rattle.std.specs.Str.{all_scalars};
ghost use Rattle.jp_model.specs.declared.Framing.{Framing};
ghost use Rattle.jp_model.specs.declared.Framing.TheVariants.{Lines as in_lines, Sequence as in_sequence};
ghost use Rattle.jp_model.specs.Json.Faults.{depth, has_duplicate};
ghost use Rattle.jp_model.specs.Json.Status.{parsed, HasStatus};
ghost use Rattle.jp_model.specs.Json.Tree.{Tree};
ghost use Rattle.jp_model.specs.Pattern.Spelling.{SpellsPattern};
ghost use Rattle.jp_model.specs.Pattern.Tree.{Pattern};
ghost use Rattle.jp_model.specs.Query.Spelling.{SpellsQuery};
ghost use Rattle.jp_model.specs.Query.Status.{TextSpells};
ghost use Rattle.jp_model.specs.Query.Syntax.{Segments};
ghost use Rattle.jp_laws.specs.JsonTexts.{CanBeSaid, HasShortExponents, plain, tree_text, unplaced};
ghost use Rattle.jp_laws.specs.PatternTexts.{IsRegexp, pattern_text};
ghost use Rattle.jp_laws.specs.QueryTexts.{CanBeSegments, query_text};

/// Each tree whose strings and names are scalars, whose objects alone have names, all different in each, whose depth is at most
/// 512 and whose exponents are below 10^15 has a text: the status of what is printed of it is that tree, but for where its
/// parts stand; in a sequence with a line feed after it (RFC 8259; RFC 7464, section 2.1). Each tree that is the status of a
/// line is one of these, but that its exponents may be lower still, by the digits after a point.
///
/// A grammar of strings without the escape `\"` is refused here.
pub fn each_tree_has_a_text()
    ensures line { (t : Tree) → CanBeSaid t → HasShortExponents t → depth t ≤ 512 → has_duplicate t ≡ false
        → (u : Tree) × HasStatus in_lines (tree_text plain t) (parsed u) × (unplaced u ≡ unplaced t) }
    ensures sequence { (t : Tree) → CanBeSaid t → HasShortExponents t → depth t ≤ 512 → has_duplicate t ≡ false
        → (u : Tree) × HasStatus in_sequence (tree_text plain t ++ 0x0A ∷ []) (parsed u) × (unplaced u ≡ unplaced t) }
    ensures only { (f : Framing) (line : List ℕ) (t : Tree) → HasStatus f line (parsed t)
        → CanBeSaid t × (depth t ≤ 512) × (has_duplicate t ≡ false) }
{}

/// Each pattern that is branches of pieces, with no empty class, no reversed range or count, and no bound above 999,999,999,
/// has a text: what is printed of it spells it, where that has at most 256 scalars `(` (RFC 9485, section 3). No other pattern
/// has one.
///
/// A table of properties that lacks `Nl` is refused here.
pub fn each_pattern_has_a_text()
    ensures spelled { (r : Pattern) → IsRegexp r → count_by (λ c. c == 0x28) (pattern_text r) ≤ 256
        → SpellsPattern (pattern_text r) r }
    ensures only { (text : List ℕ) (r : Pattern) → SpellsPattern text r → IsRegexp r }
{}

/// Each syntax tree of a query has a text that spells it, where each segment has a selector, `||` and `&&` have two parts or
/// more, queries in comparisons are singular, numbers are spelled as numbers and functions named as functions (RFC 9535,
/// appendix A). Where its scalars are Unicode's, its bytes spell it too. No other syntax tree has one.
///
/// A grammar without parentheses, in which `&&` cannot stand around `||`, is refused here.
pub fn each_query_has_a_text()
    ensures spelled { (q : Segments) → CanBeSegments q → SpellsQuery (query_text q) q }
    ensures only { (x : List ℕ) (q : Segments) → SpellsQuery x q → CanBeSegments q }
    ensures bytes { (q : Segments) → CanBeSegments q → IsTrue (all_scalars (query_text q))
        → TextSpells (encode_utf8_all (query_text q)) q }
{}
