//! A number as its bytes spell it (RFC 8259, section 6), and its order and equality by exact value.

ghost use Rattle.std.specs.Prelude.{◌≡◌};
ghost use Rattle.std.specs.Ordering.{is_eq};
ghost use Rattle.jp_decimal.specs.Values.{order};
ghost use Rattle.jp_decimal.specs.Decimals.{number_of};

use crate::measured::Measured;
use std::cmp::Ordering;

/// A number of RFC 8259, section 6, as its bytes spell it. It stands for a mantissa times ten to a scale: its digits
/// without the point, and its exponent less the count of fraction digits.
#[derive(Clone, Copy)]
pub struct Decimal<'a> {
    pub(crate) negative: bool,
    pub(crate) size: Measured<'a>,
}

impl Decimal<'_> {
    /// The order of the exact values: `1.0` and `100e-2` are equal, and so are `0` and `-0` (RFC 9535, section
    /// 2.3.5.2.2). No value is scaled or rounded, and no more digits are read than the shorter number has.
    pub fn compare(&self, other: &Decimal<'_>) -> Ordering
        ensures { result ≡ order (number_of self.now) (number_of other.now) }
    {
        let sizes = self.size.compare(&other.size);
        if self.negative {
            if other.negative {
                sizes.reverse()
            } else if self.size.are_both_zero(&other.size) {
                Ordering::Equal
            } else {
                Ordering::Less
            }
        } else if other.negative {
            if self.size.are_both_zero(&other.size) {
                Ordering::Equal
            } else {
                Ordering::Greater
            }
        } else {
            sizes
        }
    }

    /// Whether the exact values are equal (RFC 9535, section 2.3.5.2.2).
    pub fn equal(&self, other: &Decimal<'_>) -> bool
        ensures { result ≡ is_eq (order (number_of self.now) (number_of other.now)) }
    {
        self.compare(other) == Ordering::Equal
    }
}
