//! A whole query.

ghost use Rattle.std.specs.Prelude.{◌≡◌, true};
ghost use Rattle.jp_syntax.specs.Sound.{has_sound_literals};
ghost use Rattle.jp_syntax.specs.View.{segments_view};
ghost use Rattle.jp_syntax.specs.WellFormed.{IsWellFormed};

use crate::tree::Segment;

/// A query that some text within the limits spells (RFC 9535, section 2.1).
#[derive(Drop)]
pub struct Query {
    segments: Vec<Segment>,
    ghost well_formed: { ∥ IsWellFormed (segments_view segments.items) ∥₁ },
    ghost sound: { has_sound_literals (segments_view segments.items) ≡ true },
}

impl Query {
    ghost use Rattle.jp_syntax.specs.Queries.{query_view};

    /// Takes segments that are known to be well-formed (RFC 9535, section 2.1), so that each number literal can be read.
    pub fn new(segments: Vec<Segment>) -> Query
        requires well_formed { ∥ IsWellFormed (segments_view segments.items) ∥₁ }
        requires sound { has_sound_literals (segments_view segments.items) ≡ true }
        ensures { query_view result ≡ segments_view segments.items }
    {
        Query { segments }
    }

    /// The segments after `$`, in order.
    pub fn segments(&self) -> &[Segment]
        ensures value { segments_view result.now ≡ query_view self.now }
        ensures well_formed { ∥ IsWellFormed (query_view self.now) ∥₁ }
        ensures sound { has_sound_literals (query_view self.now) ≡ true }
    {
        &self.segments
    }
}
