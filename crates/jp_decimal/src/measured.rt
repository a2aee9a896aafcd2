//! A number without its sign, beside the place of its first and of its last digit that is not zero.

ghost use Rattle.std.specs.Prelude.{◌≢◌, ◌-◌, ◌<◌, ◌≤◌, length, slice_index_or};
ghost use Rattle.jp_decimal.specs.Magnitudes.{digits, BeginsWithZeros, EndsWithZeros};

use crate::parts::Magnitude;

/// A number without its sign, and where its first and last digits other than zero are. They are found when the number is
/// read, so that a comparison reads no more digits than the shorter number has.
#[derive(Clone, Copy, Debug)]
pub struct Measured<'a> {
    pub magnitude: Magnitude<'a>,
    /// The position of the first digit that is not zero, and after the last digit if there is none.
    pub first: usize,
    /// The position after the last digit that is not zero, and `first` if there is none.
    pub end: usize,
    ghost in_order: { first ≤ end },
    ghost within: { end ≤ length (digits magnitude) },
    ghost zeros: { BeginsWithZeros (digits magnitude) first },
    ghost lead: { first < length (digits magnitude) → 0x30 < slice_index_or (digits magnitude) first 0x30 },
    ghost behind: { EndsWithZeros (digits magnitude) end },
    ghost last: { first < end → slice_index_or (digits magnitude) (end - 1) 0x30 ≢ 0x30 },
}
