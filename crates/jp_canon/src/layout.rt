//! Numbers in canonical form (RFC 8785, section 3.2.2.3), with all their digits.

ghost use Rattle.std.specs.Prelude.{◌≡◌, ◌++◌, ◌≢◌, ◌-◌, ◌<◌, ◌∷◌, [], length, take, drop, OnOk, pos, ◌-ℤ◌};
ghost use Rattle.jp_canon.specs.Layout.{zeros, exponent_text, with_point, number_text};
ghost use Rattle.jp_decimal.specs.Decimals.{number_of};
ghost use Rattle.jp_model.specs.Json.Numbers.{fraction_bytes};

use itoa::Buffer;
use jp_decimal::{Decimal, DecimalKey, KeySize};
use std::alloc::{AllocError, Global};

/// The point stands at most this number of places after the front of the digits. Beyond that a number has an exponent.
const MOST_PLACES: i64 = 21;

/// The point stands at least at this place: at most five zeros are between it and the digits.
const LEAST_PLACES: i64 = -5;

/// Appends `count` zeros.
fn append_zeros(count: usize, text: &mut Vec<u8>) -> Result<(), AllocError>
    ensures { OnOk result (text.new.items ≡ text.old.items ++ zeros count) }
{
    for _ in 0..count {
        text.push(b'0')?;
    }
    Ok(())
}

/// Appends the digits after a point, and no point where there are none.
fn append_fraction(digits: &[u8], text: &mut Vec<u8>) -> Result<(), AllocError>
    ensures { OnOk result (text.new.items ≡ text.old.items ++ fraction_bytes digits.now) }
{
    if digits.is_empty() {
        return Ok(());
    }
    text.push(b'.')?;
    text.extend_from_slice(digits)
}

/// Appends the exponent of a number whose point is `places` places after the front of its digits. It counts from after the
/// first digit, and so is one less.
fn append_exponent(places: i64, text: &mut Vec<u8>) -> Result<(), AllocError>
    ensures { OnOk result (text.new.items ≡ text.old.items ++ exponent_text (places -ℤ pos 1)) }
{
    let mut digits = Buffer::new();
    if places > 0 {
        text.push(b'+')?;
        text.extend_from_slice(digits.format(places.unsigned_abs() - 1).as_bytes())
    } else {
        text.push(b'-')?;
        text.extend_from_slice(digits.format(places.unsigned_abs() + 1).as_bytes())
    }
}

/// Appends digits with an exponent, after the first digit and a point where there are more.
fn append_scientific(digits: &[u8], places: i64, text: &mut Vec<u8>) -> Result<(), AllocError>
    requires { 0 < length digits.now }
    ensures { OnOk result (text.new.items ≡ text.old.items ++ (take 1 digits.now ++ fraction_bytes (drop 1 digits.now) ++ 0x65 ∷ exponent_text (places -ℤ pos 1))) }
{
    let (first, others) = digits.split_at(1);
    text.extend_from_slice(first)?;
    append_fraction(others, text)?;
    text.push(b'e')?;
    append_exponent(places, text)
}

/// Appends digits with the first `places` of them before the point, and zeros in place of those that are missing.
fn append_with_places(digits: &[u8], places: usize, text: &mut Vec<u8>) -> Result<(), AllocError>
    ensures { OnOk result (text.new.items ≡ text.old.items ++ (take places digits.now ++ zeros (places - length digits.now) ++ fraction_bytes (drop places digits.now))) }
{
    let (whole, fraction) = digits.split_at(places.min(digits.len()));
    text.extend_from_slice(whole)?;
    append_zeros(places - whole.len(), text)?;
    append_fraction(fraction, text)
}

/// Appends a number that is not zero, without its sign.
fn append_size(size: &KeySize, text: &mut Vec<u8>) -> Result<(), AllocError>
    ensures { OnOk result (text.new.items ≡ text.old.items ++ with_point size.now.digits.items size.now.power) }
{
    let digits = size.digits.as_slice();
    let places = size.power;
    if places > MOST_PLACES || places < LEAST_PLACES {
        return append_scientific(digits, places, text);
    }
    if places > 0 {
        return append_with_places(digits, places as usize, text);
    }
    text.extend_from_slice(b"0.")?;
    append_zeros(places.unsigned_abs() as usize, text)?;
    text.extend_from_slice(digits)
}

/// Appends a number in canonical form.
pub(crate) fn append_number(
    alloc: Global,
    number: &Decimal<'_>,
    text: &mut Vec<u8>,
) -> Result<(), AllocError>
    ensures { OnOk result (text.new.items ≡ text.old.items ++ number_text (number_of number.now).mantissa (number_of number.now).scale) }
{
    match number.canonical(alloc)? {
        DecimalKey::Zero => {
            text.push(b'0')?;
            Ok(())
        }
        DecimalKey::Negative(size) => {
            text.push(b'-')?;
            append_size(&size.0, text)
        }
        DecimalKey::Positive(size) => append_size(&size, text),
    }
}
