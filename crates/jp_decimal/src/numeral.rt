//! A number that owns its digits, as it is kept.

ghost use Rattle.std.specs.Prelude.{◌≡◌, ◌≢◌, true, ◌+◌, ◌-◌, ◌^◌, ◌<◌, ◌≤◌, ◌≤ℤ◌, ◌++◌, pos, negsuc, length, slice_index_or};
ghost use Rattle.std.specs.List.{list_all};
ghost use Rattle.jp_model.specs.Characters.{is_digit};
ghost use Rattle.jp_decimal.specs.Magnitudes.{BeginsWithZeros, EndsWithZeros};

/// A number that owns its digits: it is read once, and is then a `Decimal` in constant time. What is known of its parts is what
/// is known of those of a `Decimal`.
#[derive(Drop)]
pub struct Numeral {
    pub(crate) negative: bool,
    pub(crate) int: Vec<u8>,
    pub(crate) fraction: Vec<u8>,
    pub(crate) exponent: i64,
    pub(crate) first: usize,
    pub(crate) end: usize,
    ghost int_digits: { list_all is_digit int.items ≡ true },
    ghost fraction_digits: { list_all is_digit fraction.items ≡ true },
    ghost room: { length int.items + length fraction.items < 2 ^ 32 },
    ghost low: { negsuc 999999999999998 ≤ℤ exponent },
    ghost high: { exponent ≤ℤ pos 999999999999999 },
    ghost in_order: { first ≤ end },
    ghost within: { end ≤ length (int.items ++ fraction.items) },
    ghost zeros: { BeginsWithZeros (int.items ++ fraction.items) first },
    ghost lead: { first < length (int.items ++ fraction.items) → 0x30 < slice_index_or (int.items ++ fraction.items) first 0x30 },
    ghost behind: { EndsWithZeros (int.items ++ fraction.items) end },
    ghost last: { first < end → slice_index_or (int.items ++ fraction.items) (end - 1) 0x30 ≢ 0x30 },
}
