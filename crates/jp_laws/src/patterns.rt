//! A law of patterns (RFC 9535, sections 2.4.6 and 2.4.7): `search` is `match` of the pattern with any text around it.

ghost use Rattle.std.specs.Prelude.{◌≡◌, ◌↔◌, ℕ, List, All, true};
ghost use Rattle.std.specs.Char.{IsScalar};
ghost use Rattle.jp_model.specs.Pattern.Membership.{is_in, occurs_in};
ghost use Rattle.jp_model.specs.Pattern.Tree.{Pattern};
ghost use Rattle.jp_laws.specs.Patterns.{somewhere};

use jp_model::laws;

/// A pattern occurs in a text of scalars just where the text matches the pattern with any text before and after it.
///
/// A search that looks only at the front of the text, where what occurs is what stands there, is refused here.
pub fn occurring_is_matching_somewhere()
    ensures { (r : Pattern) (text : List ℕ) → All IsScalar text → (occurs_in r text ≡ true) ↔ (is_in (somewhere r) text ≡ true) }
{
    laws::membership_is_decided();
    laws::occurrence_is_decided();
}
