//! Keys of values that are neither arrays nor objects.

ghost use Rattle.std.specs.Prelude.{◌≡◌, refl, IfOk, Some};
ghost use Rattle.std.specs.Cmp.{eq_by_cmp_equiv, partial_equiv_from_equiv, po};
ghost use Rattle.std.specs.Ordering.{is_eq};
ghost use Rattle.jp_model.specs.Json.Tree.{Value};
ghost use Rattle.jp_model.specs.Meaning.Compare.{values_equal};
ghost use Rattle.jp_values.specs.Keys.{IsKeyOf, key_order, key_rank, value_order};
ghost use Rattle.jp_values.specs.KeyLaws.{keys_total};

use jp_decimal::DecimalKey;
use std::alloc::{AllocError, Global};
use std::cmp::Ordering;

/// One key for all values that are equal. `==` and the order of keys are those of the values: null, false, true, numbers
/// by their exact value, strings by their scalars.
#[derive(Debug, Drop)]
pub enum Key {
    Null,
    False,
    True,
    Number(DecimalKey),
    Text(String),
}

impl PartialEq for Key {
    ghost eq = { λ a b. is_eq (key_order a b) };

    ghost laws = { partial_equiv_from_equiv (eq_by_cmp_equiv keys_total) };

    /// Whether two keys are equal, which they are exactly where the values that they stand for are.
    fn eq(&self, other: &Key) -> bool
        ensures keys { result ≡ is_eq (key_order self.now other.now) }
        ensures values { (x y : Value) → IsKeyOf self.now x → IsKeyOf other.now y → result ≡ values_equal x y }
    {
        self.cmp(other).is_eq()
    }
}

impl Eq for Key {
    ghost laws = { eq_by_cmp_equiv keys_total };
}

impl PartialOrd for Key {
    ghost partial_cmp = { λ a b. Some (key_order a b) };

    ghost laws = { po keys_total (λ a b. refl) };

    fn partial_cmp(&self, other: &Key) -> Option<Ordering>
        ensures keys { result ≡ Some (key_order self.now other.now) }
        ensures values { (x y : Value) → IsKeyOf self.now x → IsKeyOf other.now y → result ≡ Some (value_order x y) }
    {
        Some(self.cmp(other))
    }
}

impl Ord for Key {
    ghost cmp = { key_order };

    ghost total = { keys_total };

    ghost matches_partial_cmp = { λ a b. refl };

    ghost matches_eq = { λ a b. refl };

    /// The order of two keys, which is that of the values that they stand for.
    fn cmp(&self, other: &Key) -> Ordering
        ensures keys { result ≡ key_order self.now other.now }
        ensures values { (x y : Value) → IsKeyOf self.now x → IsKeyOf other.now y → result ≡ value_order x y }
    {
        self.listed(other)
    }
}

impl Key {
    /// Where the key's kind is among the kinds: null, false, true, numbers, strings.
    pub fn rank(&self) -> u8
        ensures { result ≡ key_rank self.now }
    {
        match self {
            Key::Null => 0,
            Key::False => 1,
            Key::True => 2,
            Key::Number(_) => 3,
            Key::Text(_) => 4,
        }
    }

    /// The order as the definition lists it.
    fn listed(&self, other: &Key) -> Ordering
        ensures { result ≡ key_order self.now other.now }
    {
        match (self, other) {
            (Key::Number(number), Key::Number(other)) => number.cmp(other),
            (Key::Text(text), Key::Text(other)) => text.as_str().cmp(other.as_str()),
            _ => self.rank().cmp(&other.rank()),
        }
    }

    /// The order of two keys, which is that of the values that they stand for. It is what `cmp` answers.
    pub fn order(&self, other: &Key) -> Ordering
        ensures { (x y : Value) → IsKeyOf self.now x → IsKeyOf other.now y → result ≡ value_order x y }
    {
        self.cmp(other)
    }

    /// Whether two keys are equal, which they are exactly where the values are (RFC 9535, section 2.3.5.2.2). It is what `==`
    /// answers.
    pub fn is_same(&self, other: &Key) -> bool
        ensures { (x y : Value) → IsKeyOf self.now x → IsKeyOf other.now y → result ≡ values_equal x y }
    {
        self.order(other).is_eq()
    }

    /// An equal key, which stands for the same values.
    pub fn copy(&self, alloc: Global) -> Result<Key, AllocError>
        ensures { IfOk result (λ key. (x : Value) → IsKeyOf self.now x → IsKeyOf key x) }
    {
        Ok(match self {
            Key::Null => Key::Null,
            Key::False => Key::False,
            Key::True => Key::True,
            Key::Number(number) => Key::Number(number.copy(alloc)?),
            Key::Text(text) => Key::Text(String::from_str(alloc, text)?),
        })
    }
}
