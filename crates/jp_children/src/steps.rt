//! The node that a singular path leads to (RFC 9535, section 2.3.5.1).

ghost use Rattle.std.specs.Prelude.{◌≡◌, map, IfSome};
ghost use Rattle.jp_model.specs.Plans.{steps_nodes};
ghost use Rattle.jp_syntax.specs.SingularPaths.{step_view};
ghost use Rattle.jp_nodes.specs.Cursors.{line_of, node_of, root_of};
ghost use Rattle.jp_children.specs.Found.{node_list};
ghost use Rattle.jp_children.specs.Steps.{step_nodes};

use crate::children::{find_element, find_member};
use jp_nodes::Cursor;
use jp_syntax::Step;

/// The child that a step leads to, if there is one.
fn step_from<'a>(node: Cursor<'a>, step: &Step) -> Option<Cursor<'a>>
    ensures nodes { node_list result ≡ step_nodes (step_view step.now) (node_of node.entry) }
    ensures line { IfSome result (λ c. line_of c ≡ line_of node.entry) }
{
    match step {
        Step::Name(name) => find_member(node, name, false),
        Step::Index(index) => find_element(node, *index),
    }
}

/// The node of a singular path in the line of a cursor, if there is one. It goes from the root, and allocates nothing.
pub fn follow<'a>(steps: &[Step], start: Cursor<'a>) -> Option<Cursor<'a>>
    ensures nodes { node_list result ≡ steps_nodes (map step_view steps.now) (root_of start.entry) }
    ensures line { IfSome result (λ c. line_of c ≡ line_of start.entry) }
{
    let mut node = start.top();
    for step in steps {
        match step_from(node, step) {
            Some(child) => node = child,
            None => return None,
        }
    }
    Some(node)
}
