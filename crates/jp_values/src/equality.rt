//! Equality of nodes' values.

ghost use Rattle.std.specs.Prelude.{◌≡◌, ◌<◌, IfSome, ◌&&◌};
ghost use Rattle.jp_model.specs.Json.Tree.{value_of};
ghost use Rattle.jp_model.specs.Meaning.Compare.{values_equal, elements_equal, members_within};
ghost use Rattle.jp_strings.specs.Points.{IsText, points_of};
ghost use Rattle.jp_nodes.specs.Cursors.{node_of, name_of, children_from, children_after};
ghost use Rattle.jp_nodes.specs.Spots.{children_in};
ghost use Rattle.jp_values.specs.Members.{has_name, member_named, EndsWith, found_value};

use crate::scalar::Scalar;
use jp_nodes::{Cursor, Kind};

/// Whether a node is a member of this name, which is compared by its scalars.
pub(crate) fn is_named(member: Cursor<'_>, name: &[u8]) -> bool
    requires { IsText name.now }
    ensures { result ≡ has_name (points_of name.now) (name_of member.entry) }
{
    match member.name() {
        Some(own) => jp_strings::equal(name, own),
        None => false,
    }
}

/// The first of the siblings from a node on that has this name.
fn find_from<'a>(from: Option<Cursor<'a>>, name: &[u8]) -> Option<Cursor<'a>>
    requires { IsText name.now }
    ensures value { found_value result ≡ member_named (points_of name.now) (children_from from.entry) }
    ensures behind { IfSome result (λ c. EndsWith (children_from from.entry) (children_after c)) }
{
    let mut next = from;
    while let Some(member) = next {
        if is_named(member, name) {
            return Some(member);
        }
        next = member.next_sibling();
    }
    None
}

/// The member of this name, which is looked for from a member on first.
pub(crate) fn find_member<'a>(
    object: Cursor<'a>,
    likely: Option<Cursor<'a>>,
    name: &[u8],
) -> Option<Cursor<'a>>
    requires text { IsText name.now }
    requires likely { EndsWith (children_in (value_of (node_of object).tree)) (children_from likely) }
    ensures value { found_value result ≡ member_named (points_of name.now) (children_in (value_of (node_of object.entry).tree)) }
    ensures behind { IfSome result (λ c. EndsWith (children_in (value_of (node_of object.entry).tree)) (children_after c)) }
{
    match find_from(likely, name) {
        Some(member) => Some(member),
        None => find_from(object.first_child(), name),
    }
}

/// Whether two arrays have equal elements, in order.
#[cycle(equality)]
fn equal_elements(left: Cursor<'_>, right: Cursor<'_>) -> bool
    ensures { result ≡ elements_equal (children_in (value_of (node_of left.entry).tree)) (children_in (value_of (node_of right.entry).tree)) }
{
    let mut left_next = left.first_child();
    let mut right_next = right.first_child();
    while let Some(element) = left_next {
        let Some(other) = right_next else {
            return false;
        };
        if !equal(element, other) {
            return false;
        }
        left_next = element.next_sibling();
        right_next = other.next_sibling();
    }
    right_next.is_none()
}

/// Whether each member of the first object is one of the second. Where the members come in the same order each is found
/// at once.
#[cycle(equality)]
fn has_members(left: Cursor<'_>, right: Cursor<'_>) -> bool
    ensures { result ≡ members_within (children_in (value_of (node_of left.entry).tree)) (children_in (value_of (node_of right.entry).tree)) }
{
    let mut next = left.first_child();
    let mut likely = right.first_child();
    while let Some(member) = next {
        if let Some(name) = member.name() {
            let Some(found) = find_member(right, likely, name) else {
                return false;
            };
            if !equal(member, found) {
                return false;
            }
            likely = found.next_sibling();
        }
        next = member.next_sibling();
    }
    true
}

/// Whether the values of two nodes are equal: of one kind, and numbers by their exact value, strings by their scalars,
/// arrays element by element, and objects with equal sets of names and equal values (RFC 9535, section 2.3.5.2.2). It
/// allocates nothing, and nests as deep as the values do.
#[cycle(equality)]
pub fn equal(left: Cursor<'_>, right: Cursor<'_>) -> bool
    ensures { result ≡ values_equal (value_of (node_of left.entry).tree) (value_of (node_of right.entry).tree) }
{
    match (left.kind(), right.kind()) {
        (Kind::Array, Kind::Array) => equal_elements(left, right),
        (Kind::Object, Kind::Object) => {
            left.child_count() == right.child_count() && has_members(left, right)
        }
        _ => Scalar::of_node(left).equal(&Scalar::of_node(right)),
    }
}
