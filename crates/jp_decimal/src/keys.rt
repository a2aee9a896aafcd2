//! Keys of numbers compared and copied.

ghost use Rattle.std.specs.Prelude.{◌≡◌, refl, IfOk, Some};
ghost use Rattle.std.specs.Cmp.{eq_by_cmp_equiv, partial_equiv_from_equiv, po};
ghost use Rattle.std.specs.Ordering.{is_eq};
ghost use Rattle.jp_decimal.specs.Values.{Number, order};
ghost use Rattle.jp_decimal.specs.Keys.{IsKeyOf, key_order};
ghost use Rattle.jp_decimal.specs.KeyLaws.{keys_total};

use crate::key::{DecimalKey, KeySize};
use smallvec::SmallVec;
use std::alloc::{AllocError, Global};
use std::cmp::{Ordering, Reverse};

impl KeySize {
    /// A copy of the digits at the same power.
    fn copy(&self, alloc: Global) -> Result<KeySize, AllocError>
        ensures power { IfOk result (λ key. key.power ≡ self.now.power) }
        ensures digits { IfOk result (λ key. key.digits.items ≡ self.now.digits.items) }
    {
        Ok(KeySize {
            power: self.power,
            digits: SmallVec::from_slice(alloc, self.digits.as_slice())?,
        })
    }
}

impl PartialEq for DecimalKey {
    ghost eq = { λ a b. is_eq (key_order a b) };

    ghost laws = { partial_equiv_from_equiv (eq_by_cmp_equiv keys_total) };

    /// Whether two keys are equal, which they are exactly where the numbers that they stand for are.
    fn eq(&self, other: &DecimalKey) -> bool
        ensures keys { result ≡ is_eq (key_order self.now other.now) }
        ensures values { (x y : Number) → IsKeyOf self.now x → IsKeyOf other.now y → result ≡ is_eq (order x y) }
    {
        self.cmp(other).is_eq()
    }
}

impl Eq for DecimalKey {
    ghost laws = { eq_by_cmp_equiv keys_total };
}

impl PartialOrd for DecimalKey {
    ghost partial_cmp = { λ a b. Some (key_order a b) };

    ghost laws = { po keys_total (λ a b. refl) };

    fn partial_cmp(&self, other: &DecimalKey) -> Option<Ordering>
        ensures keys { result ≡ Some (key_order self.now other.now) }
        ensures values { (x y : Number) → IsKeyOf self.now x → IsKeyOf other.now y → result ≡ Some (order x y) }
    {
        Some(self.cmp(other))
    }
}

impl Ord for DecimalKey {
    ghost cmp = { key_order };

    ghost total = { keys_total };

    ghost matches_partial_cmp = { λ a b. refl };

    ghost matches_eq = { λ a b. refl };

    /// The order of two keys, which is that of the numbers that they stand for.
    fn cmp(&self, other: &DecimalKey) -> Ordering
        ensures keys { result ≡ key_order self.now other.now }
        ensures values { (x y : Number) → IsKeyOf self.now x → IsKeyOf other.now y → result ≡ order x y }
    {
        self.listed(other)
    }
}

impl DecimalKey {
    /// The order as the definition lists it.
    fn listed(&self, other: &DecimalKey) -> Ordering
        ensures { result ≡ key_order self.now other.now }
    {
        match (self, other) {
            (DecimalKey::Negative(size), DecimalKey::Negative(other)) => size.cmp(other),
            (DecimalKey::Positive(size), DecimalKey::Positive(other)) => size.cmp(other),
            (DecimalKey::Zero, DecimalKey::Zero) => Ordering::Equal,
            (DecimalKey::Negative(_), DecimalKey::Zero | DecimalKey::Positive(_))
            | (DecimalKey::Zero, DecimalKey::Positive(_)) => Ordering::Less,
            (DecimalKey::Zero | DecimalKey::Positive(_), DecimalKey::Negative(_))
            | (DecimalKey::Positive(_), DecimalKey::Zero) => Ordering::Greater,
        }
    }

    /// The order of two keys, which is that of the numbers that they stand for. It is what `cmp` answers.
    pub fn order(&self, other: &DecimalKey) -> Ordering
        ensures { (x y : Number) → IsKeyOf self.now x → IsKeyOf other.now y → result ≡ order x y }
    {
        self.cmp(other)
    }

    /// Whether two keys are equal, which they are exactly where the numbers are. It is what `==` answers.
    pub fn is_same(&self, other: &DecimalKey) -> bool
        ensures { (x y : Number) → IsKeyOf self.now x → IsKeyOf other.now y → result ≡ is_eq (order x y) }
    {
        self == other
    }

    /// An equal key, which stands for the same numbers.
    pub fn copy(&self, alloc: Global) -> Result<DecimalKey, AllocError>
        ensures { IfOk result (λ key. (x : Number) → IsKeyOf self.now x → IsKeyOf key x) }
    {
        Ok(match self {
            DecimalKey::Negative(size) => DecimalKey::Negative(Reverse(size.0.copy(alloc)?)),
            DecimalKey::Zero => DecimalKey::Zero,
            DecimalKey::Positive(size) => DecimalKey::Positive(size.copy(alloc)?),
        })
    }
}
