//! The text of a string.

ghost use Rattle.std.specs.Prelude.{◌≡◌, chars};
ghost use Rattle.std.specs.Cmp.Lexicographic.{slice_cmp};
ghost use Rattle.std.specs.Ordering.{nat_cmp};
ghost use Rattle.jp_model.specs.Characters.{text_equal};
ghost use Rattle.jp_values.specs.Scalars.{text_points};

use crate::body::Body;
use jp_strings::{compare, compare_text, equal, spells};
use std::cmp::Ordering;

/// The scalars of a string: spelled by the body of a JSON string, or as they are in a query.
#[derive(Clone, Copy)]
pub(crate) enum Text<'a> {
    Body(Body<'a>),
    Plain(&'a str),
}

/// The order of the scalars of two texts, which is that of their bytes.
fn compare_plain(plain: &str, other: &str) -> Ordering
    ensures { result ≡ slice_cmp nat_cmp (chars plain.now) (chars other.now) }
{
    plain.as_bytes().cmp(other.as_bytes())
}

impl Text<'_> {
    /// The order by scalars, a proper prefix being less (RFC 9535, section 2.3.5.2.2).
    pub fn compare(self, other: Text<'_>) -> Ordering
        ensures { result ≡ slice_cmp nat_cmp (text_points self.entry) (text_points other.entry) }
    {
        match (self, other) {
            (Text::Body(body), Text::Body(other)) => compare(body.bytes(), other.bytes()),
            (Text::Body(body), Text::Plain(plain)) => compare_text(body.bytes(), plain),
            (Text::Plain(plain), Text::Body(other)) => {
                compare_text(other.bytes(), plain).reverse()
            }
            (Text::Plain(plain), Text::Plain(other)) => compare_plain(plain, other),
        }
    }

    /// Whether the scalars are the same.
    #[inline(always)]
    pub fn equal(self, other: Text<'_>) -> bool
        ensures { result ≡ text_equal (text_points self.entry) (text_points other.entry) }
    {
        match (self, other) {
            (Text::Body(body), Text::Body(other)) => equal(body.bytes(), other.bytes()),
            (Text::Body(body), Text::Plain(plain)) => spells(body.bytes(), plain),
            (Text::Plain(plain), Text::Body(body)) => spells(body.bytes(), plain),
            (Text::Plain(_), Text::Plain(_)) => self.compare(other).is_eq(),
        }
    }
}
