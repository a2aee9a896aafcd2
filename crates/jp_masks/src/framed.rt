//! Which pieces of a collection are lines.

ghost use Rattle.std.specs.Prelude.{◌≡◌};
ghost use Rattle.jp_masks.specs.Found.{is_line, is_last_line};

use jp_model::Framing;

/// Whether a piece that a separator ends is a line: in a sequence it is not where it is empty or comes before the first
/// separator (RFC 7464, section 2.1).
pub fn is_line(framing: Framing, start: u32, end: u32) -> bool
    ensures { result ≡ is_line framing start end }
{
    match framing {
        Framing::Lines => true,
        Framing::Sequence => 0 < start && start < end,
    }
}

/// Whether the last piece is a line: it is not where it is empty (profile).
pub fn is_last_line(framing: Framing, start: u32, end: u32) -> bool
    ensures { result ≡ is_last_line framing start end }
{
    match framing {
        Framing::Lines => start < end,
        Framing::Sequence => 0 < start && start < end,
    }
}
