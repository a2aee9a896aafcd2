//! Numbers without their signs, compared by exact value digit by digit.

ghost use Rattle.std.specs.Prelude.{◌≡◌, ◌≢◌, ◌+◌, ◌-◌, ◌<◌, ◌≤◌, ◌↔◌, length, IsTrue, slice_index_or};
ghost use Rattle.jp_decimal.specs.Values.{size_order};
ghost use Rattle.jp_decimal.specs.Magnitudes.{digits, unsigned_mantissa, exponent_behind, power_above, BeginsWithZeros, EndsWithZeros};

use crate::measured::Measured;
use crate::parts::Magnitude;
use std::cmp::Ordering;

impl Magnitude<'_> {
    /// How many digits there are.
    pub fn count(&self) -> usize
        ensures { result ≡ length (digits self.now) }
    {
        self.int.len() + self.fraction.len()
    }

    /// The digit at a position from the left, and zero past the end.
    pub fn digit(&self, position: usize) -> u8
        ensures { result ≡ slice_index_or (digits self.now) position 0x30 }
    {
        if position < self.int.len() {
            self.int[position]
        } else if position - self.int.len() < self.fraction.len() {
            self.fraction[position - self.int.len()]
        } else {
            b'0'
        }
    }

    /// How many zeros there are at the front.
    pub fn leading_zeros(&self) -> usize
        ensures zeros { BeginsWithZeros (digits self.now) result }
        ensures within { result ≤ length (digits self.now) }
        ensures lead { result < length (digits self.now) → 0x30 < slice_index_or (digits self.now) result 0x30 }
    {
        let count = self.count();
        for position in 0..count {
            if self.digit(position) != b'0' {
                return position;
            }
        }
        count
    }

    /// The position after the last digit that is not zero, and no position before the first.
    pub fn end_of_digits(&self, first: usize) -> usize
        requires { first ≤ length (digits self.now) }
        ensures order { first ≤ result }
        ensures within { result ≤ length (digits self.now) }
        ensures behind { EndsWithZeros (digits self.now) result }
        ensures last { first < result → slice_index_or (digits self.now) (result - 1) 0x30 ≢ 0x30 }
    {
        let mut end = self.count();
        while end > first {
            if self.digit(end - 1) != b'0' {
                return end;
            }
            end -= 1;
        }
        end
    }

    /// The power of ten above the digit after this many digits.
    pub fn power_behind(&self, skipped: usize) -> i64
        requires { skipped ≤ length (digits self.now) }
        ensures { result ≡ power_above self.now skipped }
    {
        self.exponent + self.int.len() as i64 - skipped as i64
    }
}

impl<'a> Measured<'a> {
    /// Finds the first and the last digit that are not zero.
    pub fn of(magnitude: Magnitude<'a>) -> Measured<'a>
        ensures { result.magnitude ≡ magnitude.entry }
    {
        let first = magnitude.leading_zeros();
        let end = magnitude.end_of_digits(first);
        Measured {
            magnitude,
            first,
            end,
        }
    }
}

impl Measured<'_> {
    /// Whether all digits are zeros.
    pub fn is_zero(&self) -> bool
        ensures { IsTrue result ↔ (unsigned_mantissa self.now.magnitude ≡ 0) }
    {
        self.first == self.magnitude.count()
    }

    /// Whether all digits of both are zeros.
    pub fn are_both_zero(&self, other: &Measured<'_>) -> bool
        ensures { IsTrue result ↔ ((unsigned_mantissa self.now.magnitude ≡ 0) × (unsigned_mantissa other.now.magnitude ≡ 0)) }
    {
        self.is_zero() && other.is_zero()
    }

    /// The order of two whose first digits that are not zero are at one power of ten. Where the digits of one are the first of
    /// the other, the longer is greater, since its last digit is not zero.
    fn compare_digits(&self, other: &Measured<'_>) -> Ordering
        requires same { power_above self.now.magnitude self.now.first ≡ power_above other.now.magnitude other.now.first }
        ensures { result ≡ size_order (unsigned_mantissa self.now.magnitude) (exponent_behind self.now.magnitude) (unsigned_mantissa other.now.magnitude) (exponent_behind other.now.magnitude) }
    {
        let length = self.end - self.first;
        let other_length = other.end - other.first;
        for position in 0..length.min(other_length) {
            let digit = self.magnitude.digit(self.first + position);
            let other_digit = other.magnitude.digit(other.first + position);
            if digit != other_digit {
                return digit.cmp(&other_digit);
            }
        }
        length.cmp(&other_length)
    }

    /// The order of the values.
    pub fn compare(&self, other: &Measured<'_>) -> Ordering
        ensures { result ≡ size_order (unsigned_mantissa self.now.magnitude) (exponent_behind self.now.magnitude) (unsigned_mantissa other.now.magnitude) (exponent_behind other.now.magnitude) }
    {
        if self.is_zero() {
            return if other.is_zero() {
                Ordering::Equal
            } else {
                Ordering::Less
            };
        }
        if other.is_zero() {
            return Ordering::Greater;
        }
        let power = self.magnitude.power_behind(self.first);
        let other_power = other.magnitude.power_behind(other.first);
        if power < other_power {
            return Ordering::Less;
        }
        if other_power < power {
            return Ordering::Greater;
        }
        self.compare_digits(other)
    }
}
