//! Laws of what is less and what is equal (RFC 9535, section 2.3.5.2.2): numbers are ordered as whole numbers are, strings
//! from their first scalar on, and nothing else is.

ghost use Rattle.std.specs.Prelude.{◌≡◌, ◌<◌, ◌^◌, ℕ, ℤ, pos, ◌*ℤ◌, ◌-ℤ◌, List, [], ◌∷◌, ◌++◌, Option, None, Some, false, true};
ghost use Rattle.std.specs.Option.{is_none};
ghost use Rattle.std.specs.Ordering.{int_cmp, is_eq, is_lt};
ghost use Rattle.jp_model.specs.Json.Tree.{Value, number, string};
ghost use Rattle.jp_model.specs.Meaning.Compare.{compared};
ghost use Rattle.jp_model.specs.Query.Syntax.{equal, less};
ghost use Rattle.jp_laws.specs.Kinds.{kind};

use jp_decimal::laws;

/// Numbers with one exponent are ordered as the whole numbers before it are, and a number stays equal to itself where zeros
/// are moved between the two.
///
/// That all numbers are equal meets every law of an order, and is refused here.
pub fn numbers_are_ordered_as_whole_numbers()
    ensures less { (m n e : ℤ) → compared less (Some (number m e)) (Some (number n e)) ≡ is_lt (int_cmp m n) }
    ensures equal { (m n e : ℤ) → compared equal (Some (number m e)) (Some (number n e)) ≡ is_eq (int_cmp m n) }
    ensures zeros { (m e : ℤ) (k : ℕ) → compared equal (Some (number m e)) (Some (number (m *ℤ pos (10 ^ k)) (e -ℤ pos k))) ≡ true }
{
    laws::values_are_in_total_order();
}

/// Strings are ordered by the first scalar in which they differ, the beginning of a string comes before it, and equal strings
/// have the same scalars.
///
/// An order that compares strings from the right, or by their lengths first, meets every law of an order, and is refused here.
pub fn strings_are_ordered_from_the_left()
    ensures first { (p x y : List ℕ) (a b : ℕ) → a < b → compared less (Some (string (p ++ a ∷ x))) (Some (string (p ++ b ∷ y))) ≡ true }
    ensures beginning { (x y : List ℕ) (b : ℕ) → compared less (Some (string x)) (Some (string (x ++ b ∷ y))) ≡ true }
    ensures equal { (x y : List ℕ) → compared equal (Some (string x)) (Some (string y)) ≡ true → x ≡ y }
{}

/// Values of different kinds are neither equal nor less, and Nothing is equal to Nothing alone, and never less.
///
/// That `null` is less than every number, as in languages that order all values, is refused here.
pub fn kinds_are_not_mixed()
    ensures equal { (x y : Value) → compared equal (Some x) (Some y) ≡ true → kind x ≡ kind y }
    ensures less { (x y : Value) → compared less (Some x) (Some y) ≡ true → kind x ≡ kind y }
    ensures nothing { (x : Option Value) → compared equal None x ≡ is_none x }
    ensures nothing_behind { (x : Option Value) → compared equal x None ≡ is_none x }
    ensures never_less { (x : Option Value) → compared less None x ≡ false }
    ensures never_greater { (x : Option Value) → compared less x None ≡ false }
{}
