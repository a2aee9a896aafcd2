//! Whether the exponent of a number is too long.

ghost use Rattle.std.specs.Prelude.{◌≡◌, ◌==◌, ◌≤◌, nat_lt, length, drop};
ghost use Rattle.jp_model.specs.Json.Numbers.{head_of, leading_digits, leading_sign, behind_sign, leading_fraction, leading_exponent, minus_bytes, fraction_bytes, without_leading_zeros, exponent_digits, numeral_of, is_long_exponent};

/// The digits that an exponent has at most, after its leading zeros.
const MAX_EXPONENT_DIGITS: usize = 15;

/// How many digits there are at the front.
fn digit_count(text: &[u8]) -> usize
    ensures count { result ≡ length (leading_digits text.now) }
    ensures within { result ≤ length text.now }
{
    for (count, byte) in text.iter().enumerate() {
        if !(b'0'..=b'9').contains(byte) {
            return count;
        }
    }
    text.len()
}

/// After the digits in front.
fn behind_digits(text: &[u8]) -> &[u8]
    ensures { result.now ≡ drop (length (leading_digits text.now)) text.now }
{
    &text[digit_count(text)..]
}

/// After a minus, if it is at the front.
fn behind_minus(text: &[u8]) -> &[u8]
    ensures { result.now ≡ drop (length (minus_bytes (head_of text.now == 0x2D))) text.now }
{
    match text {
        [b'-', rest @ ..] => rest,
        _ => text,
    }
}

/// After a point in front and its digits, where it has some.
fn behind_fraction(text: &[u8]) -> &[u8]
    ensures { result.now ≡ drop (length (fraction_bytes (leading_fraction text.now))) text.now }
{
    match text {
        [b'.', b'0'..=b'9', rest @ ..] => behind_digits(rest),
        _ => text,
    }
}

/// After a sign, if it is at the front.
fn behind_sign(text: &[u8]) -> &[u8]
    ensures { result.now ≡ behind_sign (leading_sign text.now) text.now }
{
    match text {
        [b'+' | b'-', rest @ ..] => rest,
        _ => text,
    }
}

/// After the zeros in front.
fn behind_zeros(text: &[u8]) -> &[u8]
    ensures { result.now ≡ without_leading_zeros text.now }
{
    let mut rest = text;
    while let [b'0', others @ ..] = rest {
        rest = others;
    }
    rest
}

/// Whether an exponent part is at the front that has too many digits after its leading zeros.
fn begins_with_long_exponent(text: &[u8]) -> bool
    ensures { result ≡ nat_lt 15 (length (exponent_digits (leading_exponent text.now))) }
{
    match text {
        [b'e' | b'E', exponent @ ..] => {
            digit_count(behind_zeros(behind_sign(exponent))) > MAX_EXPONENT_DIGITS
        }
        _ => false,
    }
}

/// Whether the exponent of a number has too many digits after its leading zeros.
pub(crate) fn is_long_exponent(number: &[u8]) -> bool
    ensures { result ≡ is_long_exponent (numeral_of number.now) }
{
    begins_with_long_exponent(behind_fraction(behind_digits(behind_minus(number))))
}
