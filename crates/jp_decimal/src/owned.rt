//! A number copied into digits of its own, and seen as a `Decimal` again.

ghost use Rattle.std.specs.Prelude.{◌≡◌, IfOk};
ghost use Rattle.jp_decimal.specs.Decimals.{number_of, numeral_number};

use crate::decimal::Decimal;
use crate::measured::Measured;
use crate::numeral::Numeral;
use crate::parts::Magnitude;
use std::alloc::{AllocError, Global};

impl Decimal<'_> {
    /// The same number with digits of its own.
    pub fn to_numeral(&self, alloc: Global) -> Result<Numeral, AllocError>
        ensures { IfOk result (λ numeral. numeral_number numeral ≡ number_of self.now) }
    {
        let int = Vec::from_slice(alloc, self.size.magnitude.int)?;
        let fraction = Vec::from_slice(alloc, self.size.magnitude.fraction)?;
        Ok(Numeral {
            negative: self.negative,
            int,
            fraction,
            exponent: self.size.magnitude.exponent,
            first: self.size.first,
            end: self.size.end,
        })
    }
}

impl Numeral {
    /// The number, without reading it.
    pub fn decimal(&self) -> Decimal<'_>
        ensures { number_of result ≡ numeral_number self.now }
    {
        let magnitude = Magnitude {
            int: self.int.as_slice(),
            fraction: self.fraction.as_slice(),
            exponent: self.exponent,
        };
        Decimal {
            negative: self.negative,
            size: Measured {
                magnitude,
                first: self.first,
                end: self.end,
            },
        }
    }
}
