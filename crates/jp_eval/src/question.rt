//! What a filter asks, and the names and indexes that lead to a child.

ghost use Rattle.std.specs.Prelude.{◌≡◌, ◌∷◌, [], IfOk, IfSome};
ghost use Rattle.jp_model.specs.Json.Tree.{Tree};
ghost use Rattle.jp_model.specs.Meaning.Selecting.{nodes as nodes_of};
ghost use Rattle.jp_children.specs.Found.{node_list};
ghost use Rattle.jp_eval.specs.Keys.{key_view, keys_view};
ghost use Rattle.jp_eval.specs.Questions.{answered};
ghost use Rattle.jp_children.specs.Steps.{step_nodes};
ghost use Rattle.jp_nodes.specs.Cursors.{line_of, node_of};

use crate::Result;
use crate::functions::read_passes;
use crate::leaves::{Constant, LiteralPattern, MemberName};
use jp_children::{find_element, find_member};
use jp_nodes::Cursor;
use jp_syntax::CompareOp;
use jp_values::Value;
use std::alloc::Global;

/// What one child is selected by (RFC 9535, sections 2.3.1 and 2.3.3).
#[derive(Drop)]
pub(crate) enum Key {
    Name(MemberName),
    Index(i64),
}

impl Key {
    /// The child of a node, if there is one.
    #[inline(always)]
    pub(crate) fn find<'a>(&self, node: Cursor<'a>) -> Option<Cursor<'a>>
        ensures nodes { node_list result ≡ step_nodes (key_view self.now) (node_of node.entry) }
        ensures line { IfSome result (λ c. line_of c ≡ line_of node.entry) }
    {
        match self {
            Key::Name(name) => find_member(node, name.text.as_str(), name.plain),
            Key::Index(index) => find_element(node, *index),
        }
    }
}

/// The node that several names and indexes lead to, if there is one.
#[inline(never)]
fn follow_several<'a>(keys: &[Key], start: Cursor<'a>) -> Option<Cursor<'a>>
    ensures { (t : Tree) → node_list result ≡ nodes_of (keys_view keys.now) (node_of start.entry ∷ []) t }
{
    let mut node = start;
    for key in keys {
        match key.find(node) {
            Some(child) => node = child,
            None => return None,
        }
    }
    Some(node)
}

/// The node that names and indexes lead to, if there is one (RFC 9535, section 2.3.5.1). Most queries have one, and no loop.
#[inline(always)]
pub(crate) fn follow_keys<'a>(keys: &[Key], start: Cursor<'a>) -> Option<Cursor<'a>>
    ensures { (t : Tree) → node_list result ≡ nodes_of (keys_view keys.now) (node_of start.entry ∷ []) t }
{
    match keys {
        [] => Some(start),
        [key] => key.find(start),
        _ => follow_several(keys, start),
    }
}

/// What a filter asks of the nodes that a query selects, beside what it spells.
#[derive(Drop)]
pub(crate) enum Question {
    /// Whether there is one (RFC 9535, section 2.3.5.2.1).
    Exists,
    /// Whether the value of the single one, or Nothing, compares so with a value (RFC 9535, section 2.3.5.2.2).
    Compares(CompareOp, Box<Constant>),
    /// Whether the value of the single one is a string that passes a pattern, all of it or a part of it (RFC 9535, sections
    /// 2.4.6 and 2.4.7).
    Passes(bool, Box<LiteralPattern>),
}

impl Question {
    /// The answer where one node is selected, or none.
    #[inline(always)]
    pub(crate) fn answer(&self, alloc: Global, end: Option<Cursor<'_>>) -> Result<bool>
        ensures { IfOk result (λ b. b ≡ answered self.now (node_list end.entry)) }
    {
        match self {
            Question::Exists => Ok(end.is_some()),
            Question::Compares(op, constant) => Ok(constant.is_compared(*op, end)),
            Question::Passes(whole, pattern) => match end {
                Some(node) => read_passes(alloc, &pattern.read, *whole, Value::Node(node)),
                None => Ok(false),
            },
        }
    }
}
