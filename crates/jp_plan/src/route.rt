//! What a query seeks, what guards it, and what is left to be evaluated.

ghost use Rattle.std.specs.Prelude.{◌≡◌, ◌<◌, true, Some, length, IfSome};
ghost use Rattle.jp_model.specs.Plans.{leading_steps, seek_of};
ghost use Rattle.jp_model.specs.Query.Typing.{segments_typed};
ghost use Rattle.jp_syntax.specs.View.{segments_view};
ghost use Rattle.jp_syntax.specs.Sound.{has_sound_literals};
ghost use Rattle.jp_plan.specs.Behind.{segments_behind};
ghost use Rattle.jp_plan.specs.Paths.{path_at};
ghost use Rattle.jp_plan.specs.Routes.{IsRouteOf, steps_or_none};

use crate::guard::{Guard, find_guard};
use crate::seek::find_seek;
use crate::singular::behind;
use jp_store::Store;
use jp_syntax::Segment;

/// The indexes that a query is answered by. It is found without memory.
#[derive(Clone, Copy)]
pub(crate) struct Route<'s> {
    /// The index whose path the query begins with.
    pub(crate) seek: Option<u32>,
    /// The segments after that path.
    pub(crate) rest: &'s [Segment],
    pub(crate) guard: Option<Guard<'s>>,
}

/// The segments after the path of the index that is sought.
fn behind_seek<'s>(store: &Store, seek: Option<u32>, segments: &'s [Segment]) -> &'s [Segment]
    requires within { IfSome seek (λ k. k < length store.now.state.paths) }
    requires seek { path_at store.now.state.paths seek ≡ seek_of store.now.state.paths (leading_steps (segments_view segments.now)) }
    ensures { segments_behind (steps_or_none (path_at store.now.state.paths seek)) (segments_view segments.now) ≡ Some (segments_view result.now) }
{
    let Some(index) = seek else {
        return segments;
    };
    match behind(store.path_at(index).steps(), segments) {
        Some(rest) => rest,
        None => segments,
    }
}

/// The way of a query over the indexes of a store.
pub(crate) fn find_route<'s>(segments: &'s [Segment], store: &Store) -> Route<'s>
    requires sound { has_sound_literals (segments_view segments.now) ≡ true }
    requires typed { segments_typed (segments_view segments.now) ≡ true }
    ensures { IsRouteOf result (segments_view segments.now) store.now }
{
    let seek = find_seek(store, segments);
    Route {
        seek,
        rest: behind_seek(store, seek, segments),
        guard: find_guard(store, segments),
    }
}
