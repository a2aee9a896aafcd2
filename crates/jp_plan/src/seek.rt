//! The seek of a plan: the longest indexed path with which a query begins.

ghost use Rattle.std.specs.Prelude.{◌≡◌, ◌<◌, length, map, IfSome};
ghost use Rattle.jp_model.specs.Plans.{leading_steps, seek_of};
ghost use Rattle.jp_syntax.specs.View.{segments_view};
ghost use Rattle.jp_plan.specs.Paths.{are_as_many, is_better, path_at};
ghost use Rattle.jp_syntax.specs.SingularPaths.{step_view};

use crate::singular::begins;
use jp_store::Store;
use jp_syntax::{Segment, Step};

/// Whether steps are at least as many as those of the path of an index, if there is one.
fn are_as_many(steps: &[Step], store: &Store, best: Option<u32>) -> bool
    requires { IfSome best (λ k. k < length store.now.state.paths) }
    ensures { result ≡ are_as_many (map step_view steps.now) (path_at store.now.state.paths best) }
{
    match best {
        Some(index) => store.path_at(index).steps().len() <= steps.len(),
        None => true,
    }
}

/// Whether the query begins with steps that are as many as those of the best path so far.
fn is_better(steps: &[Step], segments: &[Segment], store: &Store, best: Option<u32>) -> bool
    requires { IfSome best (λ k. k < length store.now.state.paths) }
    ensures { result ≡ is_better (map step_view steps.now) (leading_steps (segments_view segments.now)) (path_at store.now.state.paths best) }
{
    begins(steps, segments) && are_as_many(steps, store, best)
}

/// The number of the index of the longest path whose steps the query begins with; of some that are alike, of the first.
pub(crate) fn find_seek(store: &Store, segments: &[Segment]) -> Option<u32>
    ensures within { IfSome result (λ k. k < length store.now.state.paths) }
    ensures seek { path_at store.now.state.paths result ≡ seek_of store.now.state.paths (leading_steps (segments_view segments.now)) }
{
    let mut best = None;
    let mut index = store.index_count();
    while index > 0 {
        index -= 1;
        if is_better(store.path_at(index).steps(), segments, store, best) {
            best = Some(index);
        }
    }
    best
}
