//! The guard of a plan: a comparison of an indexed path with a literal, without which a query has no node.

ghost use Rattle.std.specs.Prelude.{◌≡◌, ◌<◌, false, length, slice_get, IfSome, MatchOption};
ghost use Rattle.jp_model.specs.Query.Singular.{singular_steps};
ghost use Rattle.jp_model.specs.Query.Syntax.{compare};
ghost use Rattle.jp_model.specs.Plans.{mirrored, is_guard_operator, guard_on, conjunct_guard, first_guard, conjuncts, segment_conjuncts, guard_of};
ghost use Rattle.jp_syntax.specs.View.{comparable_view, op_view, literal_view, logical_view, path_view, segments_view, segment_view};
ghost use Rattle.jp_plan.specs.Paths.{guard_at, is_indexed, path_guard};

use crate::singular::spells;
use jp_store::Store;
use jp_syntax::{Comparable, CompareOp, Literal, Logical, Origin, Path, Segment, Selector};

/// A comparison of the path of an index with a literal.
#[derive(Clone, Copy)]
pub(crate) struct Guard<'q> {
    /// The number of the index, from 0.
    pub(crate) index: u32,
    pub(crate) op: CompareOp,
    pub(crate) literal: &'q Literal,
}

/// The operator read from the right.
fn mirror(op: CompareOp) -> CompareOp
    ensures { op_view result ≡ mirrored (op_view op) }
{
    match op {
        CompareOp::Less => CompareOp::Greater,
        CompareOp::LessEqual => CompareOp::GreaterEqual,
        CompareOp::Greater => CompareOp::Less,
        CompareOp::GreaterEqual => CompareOp::LessEqual,
        CompareOp::Equal | CompareOp::NotEqual => op,
    }
}

/// Whether a guard may have the operator.
fn is_guard_operator(op: CompareOp) -> bool
    ensures { result ≡ is_guard_operator (op_view op) }
{
    match op {
        CompareOp::NotEqual => false,
        CompareOp::Equal
        | CompareOp::Less
        | CompareOp::LessEqual
        | CompareOp::Greater
        | CompareOp::GreaterEqual => true,
    }
}

/// The number of the index whose path the segments spell.
fn find_index(store: &Store, segments: &[Segment]) -> Option<u32>
    ensures within { IfSome result (λ k. k < length store.now.state.paths) }
    ensures found { MatchOption result (is_indexed store.now.state.paths (singular_steps (segments_view segments.now)) ≡ false)
        (λ k. slice_get store.now.state.paths k ≡ singular_steps (segments_view segments.now)) }
{
    for index in 0..store.index_count() {
        if spells(store.path_at(index).steps(), segments) {
            return Some(index);
        }
    }
    None
}

/// The guard of a comparison of a singular query from the root with a literal on its right.
fn singular_guard<'q>(
    store: &Store,
    segments: &[Segment],
    op: CompareOp,
    literal: &'q Literal,
) -> Option<Guard<'q>>
    ensures within { IfSome result (λ g. g.index < length store.now.state.paths) }
    ensures guard { guard_at store.now.state.paths result ≡ guard_on store.now.state.paths (singular_steps (segments_view segments.now)) (op_view op) (literal_view literal.now) }
{
    if !is_guard_operator(op) {
        return None;
    }
    let index = find_index(store, segments)?;
    Some(Guard { index, op, literal })
}

/// The guard of a comparison of a path with a literal on its right.
fn path_guard<'q>(
    store: &Store,
    path: &Path,
    op: CompareOp,
    literal: &'q Literal,
) -> Option<Guard<'q>>
    ensures within { IfSome result (λ g. g.index < length store.now.state.paths) }
    ensures guard { guard_at store.now.state.paths result ≡ path_guard store.now.state.paths (path_view path.now) (op_view op) (literal_view literal.now) }
{
    match path.origin {
        Origin::Root => singular_guard(store, &path.segments, op, literal),
        Origin::Current => None,
    }
}

/// The guard that a comparison gives.
fn compare_guard<'q>(
    store: &Store,
    left: &'q Comparable,
    op: CompareOp,
    right: &'q Comparable,
) -> Option<Guard<'q>>
    ensures within { IfSome result (λ g. g.index < length store.now.state.paths) }
    ensures guard { guard_at store.now.state.paths result ≡ conjunct_guard store.now.state.paths (compare (comparable_view left.now) (op_view op) (comparable_view right.now)) }
{
    match (left, right) {
        (Comparable::Single(path), Comparable::Constant(literal)) => {
            path_guard(store, path, op, literal)
        }
        (Comparable::Constant(literal), Comparable::Single(path)) => {
            path_guard(store, path, mirror(op), literal)
        }
        _ => None,
    }
}

/// The first guard that a conjunct of an expression gives.
fn logical_guard<'q>(store: &Store, logical: &'q Logical) -> Option<Guard<'q>>
    ensures within { IfSome result (λ g. g.index < length store.now.state.paths) }
    ensures guard { guard_at store.now.state.paths result ≡ first_guard store.now.state.paths (conjuncts (logical_view logical.now)) }
{
    match logical {
        Logical::And(parts) => {
            for part in parts {
                let found = logical_guard(store, part);
                if found.is_some() {
                    return found;
                }
            }
            None
        }
        Logical::Compare { left, op, right } => compare_guard(store, left, *op, right),
        Logical::Or(_) | Logical::Not(_) | Logical::Exists(_) | Logical::Test(_) => None,
    }
}

/// The first guard that a segment gives, whose only selector is a filter.
fn segment_guard<'q>(store: &Store, segment: &'q Segment) -> Option<Guard<'q>>
    ensures within { IfSome result (λ g. g.index < length store.now.state.paths) }
    ensures guard { guard_at store.now.state.paths result ≡ first_guard store.now.state.paths (segment_conjuncts (segment_view segment.now)) }
{
    let (Segment::Child(selectors) | Segment::Descendant(selectors)) = segment;
    match selectors.as_slice() {
        [Selector::Filter(condition)] => logical_guard(store, condition),
        [_] => None,
        [] => None,
        [_, _, ..] => None,
    }
}

/// The guard of a query.
pub(crate) fn find_guard<'q>(store: &Store, segments: &'q [Segment]) -> Option<Guard<'q>>
    ensures within { IfSome result (λ g. g.index < length store.now.state.paths) }
    ensures guard { guard_at store.now.state.paths result ≡ guard_of store.now.state.paths (segments_view segments.now) }
{
    for segment in segments {
        let found = segment_guard(store, segment);
        if found.is_some() {
            return found;
        }
    }
    None
}
