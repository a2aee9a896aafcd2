//! Exact numbers: those of JSON texts and queries, and counts.

ghost use Rattle.std.specs.Prelude.{◌≡◌};
ghost use Rattle.jp_decimal.specs.Decimals.{number_of};
ghost use Rattle.jp_decimal.specs.Values.{order};
ghost use Rattle.jp_values.specs.Scalars.{number_view, count_number};

use itoa::Buffer;
use jp_decimal::Decimal;
use std::cmp::Ordering;

/// A number that is spelled, or a count.
#[derive(Drop)]
pub(crate) enum Number<'a> {
    Spelled(Decimal<'a>),
    Count(u64),
}

/// The order of a spelled number and a count, by their exact values.
fn compare_with_count(number: &Decimal<'_>, count: u64) -> Ordering
    ensures { result ≡ order (number_of number.now) (count_number count) }
{
    let mut digits = Buffer::new();
    match Decimal::read(digits.format(count).as_bytes()) {
        Ok(count) => number.compare(&count),
        // Digits are always a number.
        Err(_) => Ordering::Equal,
    }
}

impl Number<'_> {
    /// The order of the exact values (RFC 9535, section 2.3.5.2.2).
    #[inline(always)]
    pub fn compare(&self, other: &Number<'_>) -> Ordering
        ensures { result ≡ order (number_view self.now) (number_view other.now) }
    {
        match (self, other) {
            (Number::Spelled(number), Number::Spelled(other)) => number.compare(other),
            (Number::Spelled(number), Number::Count(count)) => compare_with_count(number, *count),
            (Number::Count(count), Number::Spelled(other)) => {
                compare_with_count(other, *count).reverse()
            }
            (Number::Count(count), Number::Count(other)) => count.cmp(other),
        }
    }
}
