//! Control characters written as escapes.

ghost use Rattle.std.specs.Prelude.{◌≡◌, ◌/◌, ◌%◌, ◌<◌, ◌∷◌, ◌++◌, [], codes};
ghost use Rattle.jp_model.specs.Meaning.Paths.{hex_digit as hex_digit_of};

/// A hexadecimal digit, in lower case (RFC 9535, section 2.7: normal-HEXDIG).
fn hex_digit(value: u8) -> u8
    requires { value < 16 }
    ensures { result ≡ hex_digit_of value }
{
    if value < 10 {
        b'0' + value
    } else {
        b'a' + (value - 10)
    }
}

/// The escape `\u00XX` of a control character, its two digits in lower case (RFC 9535, section 2.7: normal-hexchar; RFC 8785,
/// section 3.2.2.2). Callers that want the shorter escapes, such as `\n`, write those themselves.
pub fn control_escape(control: u8) -> [u8; 6]
    requires { control < 32 }
    ensures { result ≡ codes "\\u00" ++ hex_digit_of (control / 16) ∷ hex_digit_of (control % 16) ∷ [] }
{
    [
        b'\\',
        b'u',
        b'0',
        b'0',
        hex_digit(control / 16),
        hex_digit(control % 16),
    ]
}
