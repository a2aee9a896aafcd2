//! Equality of nodes' values, with memory where objects are large.

ghost use Rattle.std.specs.Prelude.{◌≡◌, IfOk, nat_eq};
ghost use Rattle.std.specs.Option.{is_some};
ghost use Rattle.jp_model.specs.Json.Tree.{value_of, count_children};
ghost use Rattle.jp_model.specs.Meaning.Compare.{values_equal, elements_equal, members_within};
ghost use Rattle.jp_nodes.specs.Cursors.{node_of};
ghost use Rattle.jp_nodes.specs.Spots.{children_in};

use crate::members::Searched;
use crate::scalar::Scalar;
use jp_nodes::{Cursor, Kind};
use std::alloc::{AllocError, Global};

/// How many members two objects have, where both have equally many. It goes no further than the smaller one.
fn common_count(left: Cursor<'_>, right: Cursor<'_>) -> Option<u32>
    ensures { is_some result ≡ nat_eq (count_children (children_in (value_of (node_of left.entry).tree))) (count_children (children_in (value_of (node_of right.entry).tree))) }
{
    let mut count: u32 = 0;
    let mut left_next = left.first_child();
    let mut right_next = right.first_child();
    while let Some(member) = left_next {
        let other = right_next?;
        count = count.saturating_add(1);
        left_next = member.next_sibling();
        right_next = other.next_sibling();
    }
    if right_next.is_none() {
        Some(count)
    } else {
        None
    }
}

/// Whether two arrays have equal elements, in order.
#[cycle(equality_in)]
fn equal_elements_in(alloc: Global, left: Cursor<'_>, right: Cursor<'_>) -> Result<bool, AllocError>
    ensures { IfOk result (λ b. b ≡ elements_equal (children_in (value_of (node_of left.entry).tree)) (children_in (value_of (node_of right.entry).tree))) }
{
    let mut left_next = left.first_child();
    let mut right_next = right.first_child();
    while let Some(element) = left_next {
        let Some(other) = right_next else {
            return Ok(false);
        };
        if !equal_in(alloc, element, other)? {
            return Ok(false);
        }
        left_next = element.next_sibling();
        right_next = other.next_sibling();
    }
    Ok(right_next.is_none())
}

/// Whether each member of the first object is one of the second, which has about `count` members. Where the members come in
/// the same order each is found at once.
#[cycle(equality_in)]
fn has_members_in<'a>(
    alloc: Global,
    left: Cursor<'a>,
    right: Cursor<'a>,
    count: u32,
) -> Result<bool, AllocError>
    ensures { IfOk result (λ b. b ≡ members_within (children_in (value_of (node_of left.entry).tree)) (children_in (value_of (node_of right.entry).tree))) }
{
    let mut searched = Searched::new(alloc, right, count);
    let mut next = left.first_child();
    let mut likely = right.first_child();
    while let Some(member) = next {
        if let Some(name) = member.name() {
            let Some(found) = searched.find(likely, name, member)? else {
                return Ok(false);
            };
            if !equal_in(alloc, member, found)? {
                return Ok(false);
            }
            likely = found.next_sibling();
        }
        next = member.next_sibling();
    }
    Ok(true)
}

/// Whether the values of two nodes are equal, as `equal` does. Where two objects of more than 16 members come in different
/// orders it sorts the names of one, so that its time is that of a sort and not the square of their number. Otherwise it takes
/// no memory. It nests as deep as the values do.
#[cycle(equality_in)]
pub fn equal_in(alloc: Global, left: Cursor<'_>, right: Cursor<'_>) -> Result<bool, AllocError>
    ensures { IfOk result (λ b. b ≡ values_equal (value_of (node_of left.entry).tree) (value_of (node_of right.entry).tree)) }
{
    match (left.kind(), right.kind()) {
        (Kind::Array, Kind::Array) => equal_elements_in(alloc, left, right),
        (Kind::Object, Kind::Object) => match common_count(left, right) {
            Some(count) => has_members_in(alloc, left, right, count),
            None => Ok(false),
        },
        _ => Ok(Scalar::of_node(left).equal(&Scalar::of_node(right))),
    }
}
