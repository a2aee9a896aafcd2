//! What a key of a number is: its sign, its power of ten and its digits without zeros at either end.

ghost use Rattle.std.specs.Prelude.{◌≡◌, true, ◌≢◌, ◌-◌, length, slice_index_or};
ghost use Rattle.std.specs.List.{list_all};
ghost use Rattle.jp_model.specs.Characters.{is_digit};

use smallvec::SmallVec;
use std::cmp::Reverse;

/// Digits, up to 16 of them in the key itself: most numbers have no more, and their keys have no memory of their own.
pub type Digits = SmallVec<u8, 16>;

/// The digits of a number that is not zero, without zeros before and after, and the power of ten above the first:
/// 0.`digits` times ten to the `power`.
#[derive(Debug, PartialEq, Eq, PartialOrd, Ord, Drop)]
pub struct KeySize {
    pub power: i64,
    pub digits: Digits,
    ghost are_digits: { list_all is_digit digits.items ≡ true },
    ghost first: { slice_index_or digits.items 0 0x30 ≢ 0x30 },
    ghost last: { slice_index_or digits.items (length digits.items - 1) 0x30 ≢ 0x30 },
}

/// One key for all spellings of a number. `==` and the order of keys are those of the values: negative numbers, the
/// greater sizes first, then zero, then the others.
#[derive(Debug, Drop)]
pub enum DecimalKey {
    Negative(Reverse<KeySize>),
    Zero,
    Positive(KeySize),
}
