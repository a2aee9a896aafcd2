//! Several elements of one array by their indexes (RFC 9535, section 2.3.3).

ghost use Rattle.std.specs.Prelude.{◌≡◌, IfSome};
ghost use Rattle.jp_model.specs.Meaning.Nodes.{child_count as count_of};
ghost use Rattle.jp_model.specs.Meaning.Slices.{indexed, normal as normal_of};
ghost use Rattle.jp_nodes.specs.Cursors.{line_of, node_of};
ghost use Rattle.jp_children.specs.Found.{node_list};
ghost use Rattle.jp_eval.specs.Indexing.{AreKnown};
ghost use Rattle.jp_eval.specs.Keys.{key_view};
ghost use Rattle.jp_children.specs.Steps.{step_nodes};
ghost use Rattle.jp_children.specs.Walks.{IsAt};

use crate::question::Key;
use jp_children::{is_array, normal, skip_siblings};
use jp_nodes::Cursor;

/// The elements of a node that several indexes select. They are counted once, and an element that is not before the last one is
/// looked for from there.
#[derive(Clone, Copy)]
pub(crate) struct Elements<'a> {
    pub(crate) node: Cursor<'a>,
    count: Option<u32>,
    /// How many children come before the last one.
    position: u32,
    last: Option<Cursor<'a>>,
}

impl<'a> Elements<'a> {
    /// Those of a node, with none looked for yet.
    #[inline(always)]
    pub(crate) fn of(node: Cursor<'a>) -> Elements<'a>
        ensures node { result.node ≡ node.entry }
        ensures known { AreKnown result }
    {
        Elements {
            node,
            count: None,
            position: 0,
            last: node.first_child(),
        }
    }

    /// An index from the start. They are counted where it is negative.
    #[inline(always)]
    fn from_start(&mut self, index: i64) -> i64
        requires { AreKnown self.old }
        ensures value { result ≡ normal_of (count_of (node_of self.old.node)) index }
        ensures node { self.new.node ≡ self.old.node }
        ensures known { AreKnown self.new }
    {
        if index >= 0 {
            return index;
        }
        let count = match self.count {
            Some(count) => count,
            None => self.node.child_count(),
        };
        self.count = Some(count);
        normal(count, index)
    }

    /// The child that `position` children come before.
    #[inline(always)]
    fn nth(&mut self, position: u32) -> Option<Cursor<'a>>
        requires { AreKnown self.old }
        ensures at { IsAt (node_of self.old.node) position result }
        ensures line { IfSome result (λ c. line_of c ≡ line_of self.old.node) }
        ensures node { self.new.node ≡ self.old.node }
        ensures known { AreKnown self.new }
    {
        let child = if position < self.position {
            skip_siblings(self.node.first_child(), position)
        } else {
            skip_siblings(self.last, position - self.position)
        };
        self.position = position;
        self.last = child;
        child
    }

    /// The element of this index, of an array alone. A negative index counts from the end (RFC 9535, section 2.3.3.2).
    fn find(&mut self, index: i64) -> Option<Cursor<'a>>
        requires { AreKnown self.old }
        ensures nodes { node_list result ≡ indexed index (node_of self.old.node) }
        ensures line { IfSome result (λ c. line_of c ≡ line_of self.old.node) }
        ensures node { self.new.node ≡ self.old.node }
        ensures known { AreKnown self.new }
    {
        if !is_array(self.node) {
            return None;
        }
        let position = self.from_start(index);
        if position < 0 || position > 0xFFFF_FFFF {
            return None;
        }
        self.nth(position as u32)
    }

    /// The child that a key selects.
    #[inline(never)]
    pub(crate) fn find_by(&mut self, key: &Key) -> Option<Cursor<'a>>
        requires { AreKnown self.old }
        ensures nodes { node_list result ≡ step_nodes (key_view key.now) (node_of self.old.node) }
        ensures line { IfSome result (λ c. line_of c ≡ line_of self.old.node) }
        ensures node { self.new.node ≡ self.old.node }
        ensures known { AreKnown self.new }
    {
        match key {
            Key::Index(index) => self.find(*index),
            Key::Name(_) => key.find(self.node),
        }
    }
}
