//! Where the keys that compare so with a key begin and end, in the order of keys.

ghost use Rattle.std.specs.Prelude.{◌≡◌};
ghost use Rattle.jp_syntax.specs.View.{op_view};

use jp_syntax::CompareOp;

/// A position in the order of keys, told by one of them: in front of the keys that equal it, after them, in front of all keys
/// of its kind, after all of these.
#[derive(Clone, Copy)]
pub(crate) enum Edge {
    BeforeKey,
    BehindKey,
    BeforeKind,
    BehindKind,
}

impl Edge {
    ghost use Rattle.jp_index.specs.Edges.{start_of, end_of};

    /// Where the keys that compare so begin.
    pub(crate) fn start(op: CompareOp) -> Edge
        ensures { result ≡ start_of (op_view op) }
    {
        match op {
            CompareOp::Less | CompareOp::LessEqual => Edge::BeforeKind,
            CompareOp::Equal | CompareOp::NotEqual | CompareOp::GreaterEqual => Edge::BeforeKey,
            CompareOp::Greater => Edge::BehindKey,
        }
    }

    /// Where they end.
    pub(crate) fn end(op: CompareOp) -> Edge
        ensures { result ≡ end_of (op_view op) }
    {
        match op {
            CompareOp::Less => Edge::BeforeKey,
            CompareOp::Equal | CompareOp::NotEqual | CompareOp::LessEqual => Edge::BehindKey,
            CompareOp::Greater | CompareOp::GreaterEqual => Edge::BehindKind,
        }
    }
}
