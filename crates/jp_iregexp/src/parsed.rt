//! The tree of a pattern that was read.

ghost use Rattle.std.specs.Prelude.{◌≡◌, Some};
ghost use Rattle.std.proofs.Props.{props};
ghost use Rattle.jp_iregexp.specs.Numbers.{numbers_after};

use crate::node::Node;

/// A tree, and how many of its parts are repeated. These are numbered from 0 on, each after those within it, and the length that
/// is noted beside each number is right.
#[derive(Drop)]
pub(crate) struct Parsed {
    pub(crate) root: Node,
    pub(crate) repeated: usize,
    ghost numbered: { numbers_after 0 root ≡ Some repeated } by { Prim.hlevel props },
}
