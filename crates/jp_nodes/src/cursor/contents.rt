//! What names, strings and numbers of a tape are.

ghost use Rattle.std.specs.Prelude.{◌≡◌, ◌<◌, ◌^◌, length, IfSome, option_map};
ghost use Rattle.jp_decimal.specs.Decimals.{number_of};
ghost use Rattle.jp_model.specs.Json.Tree.{value_of};
ghost use Rattle.jp_strings.specs.Points.{IsText, points_of};
ghost use Rattle.jp_nodes.specs.Contents.{text_in, number_in};

use super::Cursor;
use crate::Kind;
use jp_decimal::Decimal;

impl<'a> Cursor<'a> {
    ghost use Rattle.jp_nodes.specs.Cursors.{node_of, name_of};

    /// The body of a member's name, without its quotes. The root and elements have none (RFC 8259, section 4).
    pub fn name(self) -> Option<&'a [u8]>
        ensures points { option_map (λ body. points_of body.now) result ≡ option_map (λ n. n.points) (name_of self.entry) }
        ensures text { IfSome result (λ body. IsText body.now) }
        ensures short { IfSome result (λ body. length body.now < 2 ^ 32) }
    {
        let span = self.name_span()?;
        Some(&self.line()[span.start as usize..span.end as usize])
    }

    /// The body of a string, without its quotes (RFC 8259, section 7).
    #[inline(always)]
    pub fn text(self) -> Option<&'a [u8]>
        ensures points { option_map (λ body. points_of body.now) result ≡ text_in (value_of (node_of self.entry).tree) }
        ensures text { IfSome result (λ body. IsText body.now) }
        ensures short { IfSome result (λ body. length body.now < 2 ^ 32) }
    {
        if self.kind() != Kind::Text {
            return None;
        }
        let (line, span) = (self.line(), self.span());
        Some(&line[span.start as usize + 1..span.end as usize - 1])
    }

    /// The exact value of a number (RFC 8259, section 6).
    #[inline(always)]
    pub fn number(self) -> Option<Decimal<'a>>
        ensures { option_map number_of result ≡ number_in (value_of (node_of self.entry).tree) }
    {
        if self.kind() != Kind::Number {
            return None;
        }
        Decimal::read(self.source()).ok()
    }
}
