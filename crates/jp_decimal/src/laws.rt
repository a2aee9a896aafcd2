//! Laws of the definitions.

ghost use Rattle.std.specs.Prelude.{◌≡◌};
ghost use Rattle.std.specs.Cmp.{IsTotalOrder};
ghost use Rattle.jp_decimal.specs.declared.key.DecimalKey.{DecimalKey};
ghost use Rattle.jp_decimal.specs.Values.{Number, order};
ghost use Rattle.jp_decimal.specs.Keys.{IsKeyOf, key_order};

/// Keys are ordered as the numbers that they stand for, whatever these are.
pub fn keys_are_ordered_as_values()
    ensures { (k l : DecimalKey) (x y : Number) → IsKeyOf k x → IsKeyOf l y → key_order k l ≡ order x y }
{}

/// The order of exact values is total: of two numbers one is less than the other or both are equal, what is less than a
/// lesser one is less, and equal numbers compare alike with every other.
pub fn values_are_in_total_order()
    ensures { IsTotalOrder order }
{}
