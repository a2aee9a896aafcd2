//! Laws of the definitions.

ghost use Rattle.std.specs.Prelude.{◌≡◌};
ghost use Rattle.jp_model.specs.Json.Tree.{Value};
ghost use Rattle.jp_values.specs.declared.key.Key.{Key};
ghost use Rattle.jp_values.specs.Keys.{IsKeyOf, key_order, value_order};

/// Keys are ordered as the values that they stand for, whatever these are.
pub fn keys_are_ordered_as_values()
    ensures { (k l : Key) (x y : Value) → IsKeyOf k x → IsKeyOf l y → key_order k l ≡ value_order x y }
{}
