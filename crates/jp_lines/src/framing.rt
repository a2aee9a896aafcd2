//! How a collection is cut into lines.

ghost use Rattle.std.specs.Prelude.{◌≡◌};
ghost use Rattle.jp_model.specs.Lines.{is_framed, separator_of};

use jp_model::{Framing, is_blank, without_byte_order_mark};
use memchr::memchr;

/// The byte that separates lines: the line feed, or RS in a sequence (RFC 7464, section 2.2).
pub fn separator(framing: Framing) -> u8
    ensures { result ≡ separator_of framing }
{
    match framing {
        Framing::Lines => b'\n',
        Framing::Sequence => 0x1E,
    }
}

/// Whether only white space comes before the first record separator of a sequence (RFC 7464, section 2.1), after a byte order
/// mark in front (RFC 8259, section 8.1).
pub fn is_framed_text(framing: Framing, bytes: &[u8]) -> bool
    ensures { result ≡ is_framed framing bytes.now }
{
    match framing {
        Framing::Lines => true,
        Framing::Sequence => {
            let text = without_byte_order_mark(bytes);
            match memchr(separator(framing), text) {
                Some(position) => is_blank(&text[..position]),
                None => is_blank(text),
            }
        }
    }
}
