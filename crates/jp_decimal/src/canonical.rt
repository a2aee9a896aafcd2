//! The one key of all spellings of a number (RFC 9535, section 2.3.5.2.2: numbers are equal by their value).

ghost use Rattle.std.specs.Prelude.{◌≡◌, ◌<◌, ◌≤◌, length, slice_range, IfOk};
ghost use Rattle.jp_decimal.specs.Decimals.{number_of};
ghost use Rattle.jp_decimal.specs.Magnitudes.{digits, unsigned_mantissa, exponent_behind};
ghost use Rattle.jp_decimal.specs.Keys.{IsKeyOf, IsSizeOf};

use crate::decimal::Decimal;
use crate::key::{DecimalKey, Digits, KeySize};
use crate::measured::Measured;
use crate::parts::Magnitude;
use smallvec::SmallVec;
use std::alloc::{AllocError, Global};
use std::cmp::Reverse;

impl Magnitude<'_> {
    /// The digits from a position up to another.
    fn digits_between(&self, alloc: Global, from: usize, to: usize) -> Result<Digits, AllocError>
        requires order { from ≤ to }
        requires within { to ≤ length (digits self.now) }
        ensures { IfOk result (λ found. found.items ≡ slice_range (digits self.now) from to) }
    {
        let mut found = SmallVec::new(alloc);
        for position in from..to {
            found.push(self.digit(position))?;
        }
        Ok(found)
    }
}

impl Measured<'_> {
    /// The key of a number that is not zero.
    fn key_size(&self, alloc: Global) -> Result<KeySize, AllocError>
        requires { self.now.first < length (digits self.now.magnitude) }
        ensures { IfOk result (λ key. IsSizeOf key (unsigned_mantissa self.now.magnitude) (exponent_behind self.now.magnitude)) }
    {
        prove!(self.first < self.end);
        Ok(KeySize {
            power: self.magnitude.power_behind(self.first),
            digits: self.magnitude.digits_between(alloc, self.first, self.end)?,
        })
    }
}

impl Decimal<'_> {
    /// The key of the exact value: all spellings of a value have equal keys.
    pub fn canonical(&self, alloc: Global) -> Result<DecimalKey, AllocError>
        ensures { IfOk result (λ key. IsKeyOf key (number_of self.now)) }
    {
        if self.size.first == self.size.magnitude.count() {
            return Ok(DecimalKey::Zero);
        }
        let size = self.size.key_size(alloc)?;
        if self.negative {
            Ok(DecimalKey::Negative(Reverse(size)))
        } else {
            Ok(DecimalKey::Positive(size))
        }
    }
}
