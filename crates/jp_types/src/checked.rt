//! A query that is well-typed.

ghost use Rattle.std.specs.Prelude.{◌≡◌, true};
ghost use Rattle.jp_model.specs.Query.Limits.{knows_functions};
ghost use Rattle.jp_model.specs.Query.Typing.{segments_typed};
ghost use Rattle.jp_syntax.specs.Queries.{query_view};

use jp_syntax::{Query, Segment};

/// A query that is well-typed (RFC 9535, section 2.4.3).
#[derive(Drop)]
pub struct Checked {
    query: Query,
    ghost known: { knows_functions (query_view query) ≡ true },
    ghost typed: { segments_typed (query_view query) ≡ true },
}

impl Checked {
    ghost use Rattle.jp_syntax.specs.Sound.{has_sound_literals};
    ghost use Rattle.jp_syntax.specs.View.{segments_view};
    ghost use Rattle.jp_types.specs.Checks.{checked_view};

    /// A query whose functions are known and whose types fit.
    pub(crate) fn new(query: Query) -> Checked
        requires known { knows_functions (query_view query) ≡ true }
        requires typed { segments_typed (query_view query) ≡ true }
        ensures { result.query ≡ query }
    {
        Checked { query }
    }

    /// The query.
    pub fn query(&self) -> &Query
        ensures value { query_view result.now ≡ checked_view self.now }
        ensures known { knows_functions (query_view result.now) ≡ true }
        ensures typed { segments_typed (query_view result.now) ≡ true }
    {
        &self.query
    }

    /// The segments of the query after `$`, in order.
    pub fn segments(&self) -> &[Segment]
        ensures value { segments_view result.now ≡ checked_view self.now }
        ensures known { knows_functions (segments_view result.now) ≡ true }
        ensures typed { segments_typed (segments_view result.now) ≡ true }
        ensures sound { has_sound_literals (segments_view result.now) ≡ true }
    {
        self.query.segments()
    }
}
