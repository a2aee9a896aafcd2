//! The values of JSON that have a text without quotes and brackets: `null`, `true`, `false` and numbers (RFC 8259, section 3).

ghost use Rattle.std.specs.Prelude.{◌≡◌, ◌≤◌, ◌&&◌, ◌||◌, ◌==◌, true, bytes_eq, drop, length, take};
ghost use Rattle.std.specs.List.{list_all};
ghost use Rattle.jp_model.specs.Characters.{is_digit};
ghost use Rattle.jp_model.specs.Json.Numbers.{behind_sign, exponent_bytes, fraction_bytes, head_of, leading_digits, leading_exponent, leading_fraction, leading_sign, minus_bytes};
ghost use Rattle.jp_model.specs.Json.Reader.{is_exponent, is_int};
ghost use Rattle.jp_table.specs.Literals.{is_literal, is_number};

/// How many digits stand at the front.
fn count_digits(text: &[u8]) -> usize
    ensures within { result ≤ length text.now }
    ensures digits { leading_digits text.now ≡ take result text.now }
{
    for (position, byte) in text.iter().enumerate() {
        if *byte < b'0' || b'9' < *byte {
            return position;
        }
    }
    text.len()
}

/// The digits at the front, and what follows them.
fn split_digits(text: &[u8]) -> (&[u8], &[u8])
    ensures digits { result.0.now ≡ leading_digits text.now }
    ensures rest { result.1.now ≡ drop (length (leading_digits text.now)) text.now }
{
    text.split_at(count_digits(text))
}

/// What follows a minus, or all where there is none.
fn behind_minus(text: &[u8]) -> &[u8]
    ensures { result.now ≡ drop (length (minus_bytes (head_of text.now == 0x2D))) text.now }
{
    if !text.is_empty() && text[0] == b'-' {
        &text[1..]
    } else {
        text
    }
}

/// Whether digits are an int: a zero stands alone.
fn is_int(digits: &[u8]) -> bool
    requires { list_all is_digit digits.now ≡ true }
    ensures { result ≡ is_int digits.now }
{
    if digits.len() < 2 {
        !digits.is_empty()
    } else {
        digits[0] != b'0'
    }
}

/// What follows a fraction part, or all where there is none.
fn behind_fraction(text: &[u8]) -> &[u8]
    ensures { result.now ≡ drop (length (fraction_bytes (leading_fraction text.now))) text.now }
{
    if text.is_empty() || text[0] != b'.' {
        return text;
    }
    let (digits, rest) = split_digits(&text[1..]);
    if digits.is_empty() { text } else { rest }
}

/// What follows a sign, or all where there is none.
fn behind_sign(text: &[u8]) -> &[u8]
    ensures { result.now ≡ behind_sign (leading_sign text.now) text.now }
{
    if !text.is_empty() && (text[0] == b'+' || text[0] == b'-') {
        &text[1..]
    } else {
        text
    }
}

/// Whether the letter of an exponent part stands at the front.
fn has_letter(text: &[u8]) -> bool
    ensures { result ≡ ((head_of text.now == 0x65) || (head_of text.now == 0x45)) }
{
    !text.is_empty() && (text[0] == b'e' || text[0] == b'E')
}

/// Whether the bytes are an exponent part, or none are there.
fn is_exponent(text: &[u8]) -> bool
    ensures { result ≡ (is_exponent (leading_exponent text.now) && bytes_eq (exponent_bytes (leading_exponent text.now)) text.now) }
{
    if !has_letter(text) {
        return text.is_empty();
    }
    let (digits, rest) = split_digits(behind_sign(&text[1..]));
    !digits.is_empty() && rest.is_empty()
}

/// Whether the bytes are a number (RFC 8259, section 6).
fn is_number(text: &[u8]) -> bool
    ensures { result ≡ is_number text.now }
{
    let (int, rest) = split_digits(behind_minus(text));
    is_int(int) && is_exponent(behind_fraction(rest))
}

/// Whether the bytes are `null`, `true`, `false` or a number.
pub(crate) fn is_literal(text: &[u8]) -> bool
    ensures { result ≡ is_literal text.now }
{
    text == b"null".as_slice()
        || text == b"true".as_slice()
        || text == b"false".as_slice()
        || is_number(text)
}
