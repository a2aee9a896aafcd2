//! Whether bytes are a body, and one whose every escape stands for a scalar.
ghost use Rattle.std.specs.Prelude.{◌≡◌, ℕ, ◌<◌, ◌≤◌, List, [], ◌∷◌, None, true, false, length, drop, MatchOption, MatchResult};
ghost use Rattle.std.specs.Str.{IsUtf8};
ghost use Rattle.jp_model.specs.Characters.{is_surrogate, is_low_surrogate as is_low_half};
ghost use Rattle.jp_lanes.specs.Search.{is_special, IsFirstSpecial};
ghost use Rattle.jp_model.specs.Json.Places.{byte_at, bytes_between};
ghost use Rattle.jp_strings.specs.Points.{IsText, units_from};
ghost use Rattle.jp_strings.specs.Within.{StandsWithin};
ghost use Rattle.jp_strings.specs.Faults.{HasFault};
ghost use Rattle.jp_strings.specs.Halves.{Advances};

use crate::escape::{is_high_surrogate, read_escape};
use crate::fault::StringFault;
use jp_lanes::first_special;
use simdutf8::is_utf8;

/// Whether a unit is the second half of a surrogate pair.
fn is_low_surrogate(unit: u32) -> bool
    ensures { result ≡ is_low_half unit }
{
    (0xDC00..0xE000).contains(&unit)
}

/// What was seen of halves of surrogate pairs, from left to right.
#[derive(Clone, Copy)]
struct Halves {
    /// The last character was the first half of a pair.
    after_high: bool,
    /// A half before it stands alone.
    is_lone: bool,
}

impl Halves {
    ghost use Rattle.jp_strings.specs.Halves.{alone_behind};

    /// What was seen after one more unit.
    fn with_unit(self, unit: u32) -> Self
        ensures { (units : List ℕ) → alone_behind self (unit ∷ units) ≡ alone_behind result units }
    {
        Halves {
            after_high: is_high_surrogate(unit),
            is_lone: self.is_lone || self.after_high != is_low_surrogate(unit),
        }
    }

    /// Whether a half stands alone where nothing follows.
    fn has_lone(self) -> bool
        ensures { result ≡ alone_behind self [] }
    {
        self.is_lone || self.after_high
    }

    /// What was seen after characters that are not halves.
    fn with_scalars(self) -> Self
        ensures high { result.after_high ≡ false }
        ensures first { (unit : ℕ) (units : List ℕ) → is_surrogate unit ≡ false
            → alone_behind self (unit ∷ units) ≡ alone_behind result units }
    {
        Halves {
            after_high: false,
            is_lone: self.is_lone || self.after_high,
        }
    }
}

/// The next special byte of a body that stands in a line at `from`, or its end. The line is searched, of which more bytes are
/// left than of the body, so that they are looked at together.
#[inline(always)]
fn special_end(line: &[u8], from: usize, at: usize) -> usize
    requires { (body : List ℕ) × StandsWithin line.now body from × (at ≤ length body) }
    ensures { (body : List ℕ) → StandsWithin line.now body from → at ≤ length body → IsFirstSpecial body at result }
{
    first_special(line, from + at) - from
}

/// One escape, or all characters up to the next one, of a body that stands in a line at `from`: the position after them, and
/// what was seen then.
#[inline(always)]
fn advance(
    line: &[u8],
    from: usize,
    body: &[u8],
    at: usize,
    seen: Halves,
) -> Option<(usize, Halves)>
    requires place { StandsWithin line.now body.now from }
    requires inside { at < length body.now }
    requires utf8 { IsUtf8 (drop at body.now) }
    ensures { MatchOption result (units_from body.now at ≡ None)
        (λ next. Advances body.now at seen next.0 next.1) }
{
    if body[at] == b'\\' {
        let (unit, end) = read_escape(body, at)?;
        return Some((end, seen.with_unit(unit)));
    }
    let end = special_end(line, from, at);
    if at == end {
        return None;
    }
    Some((end, seen.with_scalars()))
}

/// Reports whether bytes are a body (RFC 8259, section 7), and one in which no half of a surrogate
/// pair stands alone (profile; section 8.2). Where they are not a body the fault is `Shape`, and else
/// `Surrogate` where such a half is in it.
pub fn test_body(body: &[u8]) -> Result<(), StringFault>
    ensures { MatchResult result (λ _. IsText body.now) (HasFault body.now) }
{
    if !is_utf8(body) {
        return Err(StringFault::Shape);
    }
    test_utf8_body(body)
}

/// Answers as `test_body` does, of the bytes of a line between two places, which are known to be UTF-8 (RFC 8259, sections 7
/// and 8.1): it looks at characters and escapes alone. The line ends there, or has a byte that ends a run of characters, as a
/// closing quote is.
pub fn test_utf8_within(line: &[u8], from: usize, to: usize) -> Result<(), StringFault>
    requires order { from ≤ to }
    requires within { to ≤ length line.now }
    requires closes { to < length line.now → is_special (byte_at line.now to) ≡ true }
    requires utf8 { IsUtf8 (bytes_between line.now from to) }
    ensures { MatchResult result (λ _. IsText (bytes_between line.now from to)) (HasFault (bytes_between line.now from to)) }
{
    let body = &line[from..to];
    let mut seen = Halves {
        after_high: false,
        is_lone: false,
    };
    let mut at = 0;
    while at < body.len() {
        let Some(next) = advance(line, from, body, at, seen) else {
            return Err(StringFault::Shape);
        };
        (at, seen) = next;
    }
    if seen.has_lone() {
        return Err(StringFault::Surrogate);
    }
    Ok(())
}

/// Answers as `test_body` does, of bytes that are known to be UTF-8 (RFC 8259, sections 7 and 8.1), as those of a body within a
/// line of UTF-8 are.
pub fn test_utf8_body(body: &[u8]) -> Result<(), StringFault>
    requires { IsUtf8 body.now }
    ensures { MatchResult result (λ _. IsText body.now) (HasFault body.now) }
{
    test_utf8_within(body, 0, body.len())
}
