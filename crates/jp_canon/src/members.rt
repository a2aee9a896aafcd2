//! The members of an object in the order of their names (RFC 8785, section 3.2.3; RFC 9535, section 2.3.5.2.2).

ghost use Rattle.std.specs.Prelude.{◌≡◌, ◌≤◌, OnOk};
ghost use Rattle.std.specs.Vec.{vec_len};
ghost use Rattle.jp_canon.specs.Members.{AppendsMembers, AppendsByName, SortsFrom};
ghost use Rattle.jp_model.specs.Json.Tree.{value_of};
ghost use Rattle.jp_nodes.specs.Cursors.{node_of};
ghost use Rattle.jp_nodes.specs.Spots.{children_in};

use jp_nodes::Cursor;
use jp_values::Member;
use std::alloc::AllocError;

/// Appends the members of an object, in its order.
fn append_members<'a>(object: Cursor<'a>, members: &mut Vec<Member<'a>>) -> Result<(), AllocError>
    ensures { OnOk result (AppendsMembers members.old.items members.new.items (children_in (value_of (node_of object.entry).tree))) }
{
    let mut next = object.first_child();
    while let Some(node) = next {
        if let Some(name) = node.name() {
            members.push(Member::new(name, node))?;
        }
        next = node.next_sibling();
    }
    Ok(())
}

/// Sorts the members from a position on by their names.
fn sort_from(members: &mut Vec<Member<'_>>, from: usize)
    requires { from ≤ vec_len members.old }
    ensures { SortsFrom from members.old.items members.new.items }
{
    members[from..].sort_unstable();
}

/// Appends the members of an object, in the order of their names.
pub(crate) fn append_by_name<'a>(
    object: Cursor<'a>,
    members: &mut Vec<Member<'a>>,
) -> Result<(), AllocError>
    ensures { OnOk result (AppendsByName members.old.items members.new.items (children_in (value_of (node_of object.entry).tree))) }
{
    let from = members.len();
    append_members(object, members)?;
    sort_from(members, from);
    Ok(())
}
