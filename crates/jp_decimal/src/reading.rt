//! Bytes read as a number of RFC 8259, section 6.

ghost use Rattle.std.specs.Prelude.{◌≡◌, ◌≢◌, ℕ, ◌+◌, ◌*◌, ◌^◌, ◌<◌, ◌≤◌, ◌++◌, ◌↔◌, Bool, true, false, pos, negsuc, ◌≤ℤ◌, List, ◌∷◌, length, slice_index_or, IsTrue, IfOk, MatchOption, MatchResult};
ghost use Rattle.jp_model.specs.Characters.{is_digit, digits_value};
ghost use Rattle.jp_model.specs.Json.Numbers.{AreDigits, AreSomeDigits, IsInt, without_leading_zeros, Sign, is_minus, sign_bytes};
ghost use Rattle.jp_decimal.specs.Decimals.{number_of};
ghost use Rattle.jp_decimal.specs.Reading.{ReadsAs, RefusesNumber};
ghost use Rattle.jp_decimal.specs.Steps.{ExponentIs, RefusesExponent, BehindIntIs, RefusesBehindInt, MagnitudeIs, RefusesUnsigned, letter};

use crate::decimal::Decimal;
use crate::fault::NumberFault;
use crate::measured::Measured;
use crate::parts::Magnitude;

/// The most digits of an exponent that are read, leading zeros left out (profile).
const MOST_EXPONENT_DIGITS: usize = 15;

/// What follows a byte at the front.
fn behind(text: &[u8], byte: u8) -> Option<&[u8]>
    requires { 0 < byte }
    ensures { MatchOption result (slice_index_or text.now 0 0 ≢ byte) (λ rest. byte ∷ rest.now ≡ text.now) }
{
    if text.is_empty() {
        return None;
    }
    if text[0] != byte {
        return None;
    }
    Some(&text[1..])
}

/// How many digits there are at the front.
fn count_digits(text: &[u8]) -> usize
    ensures within { result ≤ length text.now }
    ensures digits { (j : ℕ) → j < result → is_digit (slice_index_or text.now j 0x30) ≡ true }
    ensures end { is_digit (slice_index_or text.now result 0) ≡ false }
{
    for (position, byte) in text.iter().enumerate() {
        if *byte < b'0' || b'9' < *byte {
            return position;
        }
    }
    text.len()
}

/// The digits at the front, and what follows them.
fn split_digits(text: &[u8]) -> (&[u8], &[u8])
    ensures digits { AreDigits result.0.now }
    ensures joined { result.0.now ++ result.1.now ≡ text.now }
    ensures end { is_digit (slice_index_or result.1.now 0 0) ≡ false }
{
    text.split_at(count_digits(text))
}

/// What digits stand for, if they are few.
fn value_of_digits(digits: &[u8]) -> u64
    requires digits { AreDigits digits.now }
    requires short { length digits.now ≤ MOST_EXPONENT_DIGITS }
    ensures value { result ≡ digits_value digits.now }
    ensures below { result < 10 ^ 15 }
{
    let mut value: u64 = 0;
    for digit in digits {
        value = value * 10 + (*digit - b'0') as u64;
    }
    value
}

/// Digits without the zeros in front.
fn behind_zeros(digits: &[u8]) -> &[u8]
    ensures { result.now ≡ without_leading_zeros digits.now }
{
    let mut position = 0;
    while position < digits.len() {
        if digits[position] != b'0' {
            break;
        }
        position += 1;
    }
    &digits[position..]
}

/// What follows the letter of an exponent part.
fn behind_letter(text: &[u8]) -> Option<&[u8]>
    ensures { MatchOption result ((capital : Bool) (rest : List ℕ) → letter capital ∷ rest ≡ text.now → ⊥) (λ rest. (capital : Bool) × (letter capital ∷ rest.now ≡ text.now)) }
{
    match behind(text, b'e') {
        Some(rest) => Some(rest),
        None => behind(text, b'E'),
    }
}

/// Whether there is a minus sign, and what follows a sign.
fn split_sign(text: &[u8]) -> (bool, &[u8])
    ensures found { (sign : Sign) × (sign_bytes sign ++ result.1.now ≡ text.now) × (is_minus sign ≡ result.0) }
    ensures only { (sign : Sign) (digits : List ℕ) → AreSomeDigits digits → sign_bytes sign ++ digits ≡ text.now → digits ≡ result.1.now }
{
    if let Some(rest) = behind(text, b'-') {
        return (true, rest);
    }
    if let Some(rest) = behind(text, b'+') {
        return (false, rest);
    }
    (false, text)
}

/// An exponent part, or nothing.
fn read_exponent(text: &[u8]) -> Result<i64, NumberFault>
    ensures read { MatchResult result (ExponentIs text.now) (RefusesExponent text.now) }
    ensures low { IfOk result (λ e. negsuc 999999999999998 ≤ℤ e) }
    ensures high { IfOk result (λ e. e ≤ℤ pos 999999999999999) }
{
    if text.is_empty() {
        return Ok(0);
    }
    let Some(rest) = behind_letter(text) else {
        return Err(NumberFault::Shape);
    };
    let (negative, digits) = split_sign(rest);
    let count = count_digits(digits);
    if count == 0 {
        return Err(NumberFault::Shape);
    }
    if count < digits.len() {
        return Err(NumberFault::Shape);
    }
    let significant = behind_zeros(digits);
    if significant.len() > MOST_EXPONENT_DIGITS {
        return Err(NumberFault::Exponent);
    }
    let value = value_of_digits(significant) as i64;
    Ok(if negative { -value } else { value })
}

/// The digits after a point, if there is one, and the exponent.
fn read_behind_int(text: &[u8]) -> Result<(&[u8], i64), NumberFault>
    ensures read { MatchResult result (λ found. BehindIntIs text.now found.0.now found.1) (RefusesBehindInt text.now) }
    ensures low { IfOk result (λ found. negsuc 999999999999998 ≤ℤ found.1) }
    ensures high { IfOk result (λ found. found.1 ≤ℤ pos 999999999999999) }
    ensures shorter { IfOk result (λ found. length found.0.now ≤ length text.now) }
{
    let Some(rest) = behind(text, b'.') else {
        return match read_exponent(text) {
            Ok(exponent) => Ok((&text[..0], exponent)),
            Err(fault) => Err(fault),
        };
    };
    let (fraction, rest) = split_digits(rest);
    if fraction.is_empty() {
        return Err(NumberFault::Shape);
    }
    match read_exponent(rest) {
        Ok(exponent) => Ok((fraction, exponent)),
        Err(fault) => Err(fault),
    }
}

/// Whether digits are an int: a zero stands alone.
fn is_int(digits: &[u8]) -> bool
    requires { AreDigits digits.now }
    ensures { IsTrue result ↔ IsInt digits.now }
{
    if digits.is_empty() {
        false
    } else if digits.len() == 1 {
        true
    } else {
        digits[0] != b'0'
    }
}

/// A number without a sign.
fn read_magnitude(text: &[u8]) -> Result<Magnitude<'_>, NumberFault>
    requires { length text.now < 2 ^ 32 }
    ensures { MatchResult result (MagnitudeIs text.now) (RefusesUnsigned text.now) }
{
    let (int, rest) = split_digits(text);
    if !is_int(int) {
        return Err(NumberFault::Shape);
    }
    match read_behind_int(rest) {
        Ok((fraction, exponent)) => Ok(Magnitude {
            int,
            fraction,
            exponent,
        }),
        Err(fault) => Err(fault),
    }
}

impl<'a> Decimal<'a> {
    /// Reads bytes as one number, with nothing before or after it (RFC 8259, section 6). The number borrows the bytes
    /// and allocates nothing.
    ///
    /// `Shape` is the answer where the bytes are not a number, and `Exponent` where they are one whose exponent has more
    /// than 15 digits after its leading zeros (profile).
    pub fn read(bytes: &'a [u8]) -> Result<Decimal<'a>, NumberFault>
        requires { length bytes.now < 2 ^ 32 }
        ensures { MatchResult result (λ number. ReadsAs bytes.now (number_of number)) (RefusesNumber bytes.now) }
    {
        if let Some(rest) = behind(bytes, b'-') {
            return match read_magnitude(rest) {
                Ok(magnitude) => Ok(Decimal {
                    negative: true,
                    size: Measured::of(magnitude),
                }),
                Err(fault) => Err(fault),
            };
        }
        match read_magnitude(bytes) {
            Ok(magnitude) => Ok(Decimal {
                negative: false,
                size: Measured::of(magnitude),
            }),
            Err(fault) => Err(fault),
        }
    }
}
