//! A number without its sign, in the parts that its bytes spell.

ghost use Rattle.std.specs.Prelude.{◌≡◌, true, ◌+◌, ◌^◌, ◌<◌, ◌≤ℤ◌, pos, negsuc, length};
ghost use Rattle.std.specs.List.{list_all};
ghost use Rattle.jp_model.specs.Characters.{is_digit};

/// A number without its sign: the digits on both sides of the point, and the exponent.
#[derive(Clone, Copy, Debug)]
pub struct Magnitude<'a> {
    pub int: &'a [u8],
    pub fraction: &'a [u8],
    pub exponent: i64,
    ghost int_digits: { list_all is_digit int.now ≡ true },
    ghost fraction_digits: { list_all is_digit fraction.now ≡ true },
    ghost room: { length int.now + length fraction.now < 2 ^ 32 },
    ghost low: { negsuc 999999999999998 ≤ℤ exponent },
    ghost high: { exponent ≤ℤ pos 999999999999999 },
}
