//! The members of an object in the order of their names, and a search among them.

ghost use Rattle.std.specs.Prelude.{◌≡◌, ◌<◌, Some, IfOk, IfSome, refl};
ghost use Rattle.std.specs.Ordering.{is_eq};
ghost use Rattle.std.specs.Cmp.{eq_by_cmp_equiv, partial_equiv_from_equiv, po};
ghost use Rattle.jp_model.specs.Json.Tree.{Children, value_of};
ghost use Rattle.jp_strings.specs.Points.{IsText, points_of};
ghost use Rattle.jp_nodes.specs.Cursors.{node_of, children_from, children_after};
ghost use Rattle.jp_nodes.specs.Spots.{children_in};
ghost use Rattle.jp_values.specs.Members.{member_named, found_value, EndsWith};
ghost use Rattle.jp_values.specs.ByName.{points, by_name, names_total, AreMembers, AreByName, AreKept};

use crate::equality::{find_member, is_named};
use crate::member::Member;
use jp_nodes::Cursor;
use jp_strings::compare_scalars;
use std::alloc::{AllocError, Global};
use std::cmp::Ordering;

/// Among up to this number of members one is looked for by its name, and more are sorted.
const MOST_SEARCHED: u32 = 16;

impl PartialEq for Member<'_> {
    ghost eq = { λ a b. is_eq (by_name a b) };

    ghost laws = { partial_equiv_from_equiv (eq_by_cmp_equiv names_total) };

    fn eq(&self, other: &Member<'_>) -> bool {
        self.cmp(other).is_eq()
    }
}

impl Eq for Member<'_> {
    ghost laws = { eq_by_cmp_equiv names_total };
}

impl PartialOrd for Member<'_> {
    ghost partial_cmp = { λ a b. Some (by_name a b) };

    ghost laws = { po names_total (λ a b. refl) };

    fn partial_cmp(&self, other: &Member<'_>) -> Option<Ordering> {
        Some(self.cmp(other))
    }
}

impl Ord for Member<'_> {
    ghost cmp = { by_name };

    ghost total = { names_total };

    ghost matches_partial_cmp = { λ a b. refl };

    ghost matches_eq = { λ a b. refl };

    fn cmp(&self, other: &Member<'_>) -> Ordering {
        if self.is_plain && other.is_plain {
            return self.name.cmp(other.name);
        }
        compare_scalars(self.name, other.name)
    }
}

/// The members of an object, in its order.
fn all_members<'a>(
    alloc: Global,
    object: Cursor<'a>,
    count: u32,
) -> Result<Vec<Member<'a>>, AllocError>
    ensures { IfOk result (λ members. AreMembers (children_in (value_of (node_of object.entry).tree)) members.items) }
{
    let mut members = Vec::new(alloc);
    members.reserve(count as usize)?;
    let mut next = object.first_child();
    while let Some(node) = next {
        if let Some(name) = node.name() {
            members.push(Member::new(name, node))?;
        }
        next = node.next_sibling();
    }
    Ok(members)
}

/// The members of an object in the order of their names. There are about `count` of them.
fn sorted_members<'a>(
    alloc: Global,
    object: Cursor<'a>,
    count: u32,
) -> Result<Vec<Member<'a>>, AllocError>
    ensures { IfOk result (λ members. AreByName (children_in (value_of (node_of object.entry).tree)) members.items) }
{
    let mut members = all_members(alloc, object, count)?;
    members.sort_unstable();
    Ok(members)
}

/// Among members in the order of their names, the one with the name of another member.
fn find_sorted<'a>(members: &[Member<'a>], wanted: &Member<'a>) -> Option<Cursor<'a>>
    ensures value { (children : Children) → AreByName children members.now → found_value result ≡ member_named (points wanted.now) children }
    ensures behind { (children : Children) → AreByName children members.now → IfSome result (λ c. EndsWith children (children_after c)) }
{
    match members.binary_search(wanted) {
        Ok(index) => Some(members[index].node),
        Err(_) => None,
    }
}

/// An object in which members are looked for.
#[derive(Drop)]
pub(crate) struct Searched<'a> {
    alloc: Global,
    object: Cursor<'a>,
    /// About how many members it has.
    count: u32,
    /// Its members in the order of their names, once that was needed.
    sorted: Vec<Member<'a>>,
}

impl<'a> Searched<'a> {
    /// An object with about `count` members. No member is listed yet.
    pub fn new(alloc: Global, object: Cursor<'a>, count: u32) -> Searched<'a>
        ensures object { result.object ≡ object.entry }
        ensures kept { AreKept (children_in (value_of (node_of object.entry).tree)) result.sorted.items }
    {
        Searched {
            alloc,
            object,
            count,
            sorted: Vec::new(alloc),
        }
    }

    /// The member of this name, which is the name of another object's member. Where it is not the likely one and there
    /// are many, the members are sorted once.
    pub fn find(
        &mut self,
        likely: Option<Cursor<'a>>,
        name: &'a [u8],
        member: Cursor<'a>,
    ) -> Result<Option<Cursor<'a>>, AllocError>
        requires text { IsText name.now }
        requires likely { EndsWith (children_in (value_of (node_of self.old.object).tree)) (children_from likely) }
        requires kept { AreKept (children_in (value_of (node_of self.old.object).tree)) self.old.sorted.items }
        ensures object { self.new.object ≡ self.old.object }
        ensures kept { IfOk result (λ _. AreKept (children_in (value_of (node_of self.old.object).tree)) self.new.sorted.items) }
        ensures value { IfOk result (λ found. found_value found ≡ member_named (points_of name.now) (children_in (value_of (node_of self.old.object).tree))) }
        ensures behind { IfOk result (λ found. IfSome found (λ c. EndsWith (children_in (value_of (node_of self.old.object).tree)) (children_after c))) }
    {
        if let Some(next) = likely
            && is_named(next, name)
        {
            return Ok(Some(next));
        }
        if self.count <= MOST_SEARCHED {
            return Ok(find_member(self.object, likely, name));
        }
        if self.sorted.is_empty() {
            self.sorted = sorted_members(self.alloc, self.object, self.count)?;
        }
        Ok(find_sorted(&self.sorted, &Member::new(name, member)))
    }
}
