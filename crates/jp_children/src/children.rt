//! Children that are selected by name or by index (RFC 9535, sections 2.3.1, 2.3.3 and 2.3.4).

ghost use Rattle.std.specs.Prelude.{◌≡◌, ℕ, List, ◌+◌, false, pos, neg_ℤ, ◌-ℤ◌, ◌<ℤ◌, ◌≤ℤ◌, ◌≢◌, ◌^◌, true, length, int_le, unwrap_or, map, IfOk, IfSome, IsTrue, ◌↔◌};
ghost use Rattle.std.specs.Str.{chars};
ghost use Rattle.jp_model.specs.Meaning.Nodes.{Node, step_to, children_where, child_count as count_of};
ghost use Rattle.jp_model.specs.Json.Tree.{value_of};
ghost use Rattle.jp_model.specs.Meaning.Slices.{named, indexed, sliced, is_name, is_index, normal as normal_of, on_stride, downward};
ghost use Rattle.jp_strings.specs.Plain.{ArePlain};
ghost use Rattle.jp_nodes.specs.Cursors.{line_of, node_of, name_of};
ghost use Rattle.jp_nodes.specs.Kinds.{kind_of};
ghost use Rattle.jp_nodes.specs.declared.Kind.TheVariants as kinds;
ghost use Rattle.jp_children.specs.Found.{node_list, AreOf};
ghost use Rattle.jp_children.specs.Walks.{IsAt, rises};

use crate::Result;
use jp_nodes::{Cursor, Kind};
use jp_strings::spells_known;
use std::alloc::Global;

/// Whether the node is the member of this name. Of a plain name each byte stands for itself.
#[inline(always)]
fn is_named(node: Cursor<'_>, name: &str, plain: bool) -> bool
    requires { plain ≡ true → ArePlain name.now 0 (length name.now) }
    ensures { (index : ℕ) → result ≡ is_name (chars name.now) (step_to index (name_of node.entry)) }
{
    match node.name() {
        Some(body) => spells_known(body, name, plain),
        None => false,
    }
}

/// Whether a node is an object, which alone has members.
#[inline(always)]
fn is_object(node: Cursor<'_>) -> bool
    ensures { result ≡ false → kind_of (value_of (node_of node.entry).tree) ≡ kinds.Object → ⊥ }
{
    matches!(node.kind(), Kind::Object)
}

/// The member of this name, of an object alone (RFC 9535, section 2.3.1.2). Of a plain name each byte stands for itself.
#[inline(always)]
pub fn find_member<'a>(node: Cursor<'a>, name: &str, plain: bool) -> Option<Cursor<'a>>
    requires { plain ≡ true → ArePlain name.now 0 (length name.now) }
    ensures nodes { node_list result ≡ named (chars name.now) (node_of node.entry) }
    ensures line { IfSome result (λ c. line_of c ≡ line_of node.entry) }
{
    if !is_object(node) {
        return None;
    }
    let mut child = node.first_child()?;
    loop {
        if is_named(child, name, plain) {
            return Some(child);
        }
        child = child.next_sibling()?;
    }
}

/// An index from the start (RFC 9535, section 2.3.4.2.2).
pub fn normal(count: u32, index: i64) -> i64
    ensures { result ≡ normal_of count index }
{
    if index < 0 {
        i64::from(count) + index
    } else {
        index
    }
}

/// The sibling that `count` siblings come before, from `first` on.
pub fn skip_siblings(first: Option<Cursor<'_>>, count: u32) -> Option<Cursor<'_>>
    ensures at { (parent : Node) (index : ℕ) → IsAt parent index first.entry → IsAt parent (index + count) result }
    ensures line { (line : List ℕ) → IfSome first.entry (λ c. line_of c ≡ line) → IfSome result (λ c. line_of c ≡ line) }
{
    let mut next = first;
    for _passed in 0..count {
        match next {
            Some(child) => next = child.next_sibling(),
            None => return None,
        }
    }
    next
}

/// Whether a node is an array, which alone has elements.
pub fn is_array(node: Cursor<'_>) -> bool
    ensures { IsTrue result ↔ (kind_of (value_of (node_of node.entry).tree) ≡ kinds.Array) }
{
    matches!(node.kind(), Kind::Array)
}

/// An index of a node's elements from the start. They are counted only where it is negative.
fn index_from_start(node: Cursor<'_>, index: i64) -> i64
    ensures { result ≡ normal_of (count_of (node_of node.entry)) index }
{
    if index < 0 {
        normal(node.child_count(), index)
    } else {
        index
    }
}

/// The element of this index, of an array alone. A negative index counts from the end (RFC 9535, section 2.3.3.2).
pub fn find_element(node: Cursor<'_>, index: i64) -> Option<Cursor<'_>>
    ensures nodes { node_list result ≡ indexed index (node_of node.entry) }
    ensures line { IfSome result (λ c. line_of c ≡ line_of node.entry) }
{
    if !is_array(node) {
        return None;
    }
    let position = index_from_start(node, index);
    if position < 0 || position > 0xFFFF_FFFF {
        return None;
    }
    skip_siblings(node.first_child(), position as u32)
}

/// Whether an index is a whole number of steps from the start (RFC 9535, section 2.3.4.2.2).
fn is_on_stride(start: i64, step: i64, index: i64) -> bool
    requires near { (neg_ℤ (pos (2 ^ 33)) ≤ℤ (index -ℤ start)) × ((index -ℤ start) ≤ℤ pos (2 ^ 33)) }
    requires some { step ≢ pos 0 }
    ensures { result ≡ on_stride start step index }
{
    let rest = (index - start) % step;
    rest <= 0 && 0 <= rest
}

/// Whether a slice with a step below 0 of an array of `count` elements has the element at `index` (RFC 9535, section
/// 2.3.4.2.2).
fn has_downward(count: u32, first: Option<i64>, last: Option<i64>, step: i64, index: u32) -> bool
    requires { step ≢ pos 0 }
    ensures { result ≡ downward count first last step (pos index) }
{
    let (len, index) = (i64::from(count), i64::from(index));
    let high = normal(count, first.unwrap_or(len - 1)).max(-1).min(len - 1);
    let low = normal(count, last.unwrap_or(-len - 1)).max(-1).min(len - 1);
    low < index && index <= high && is_on_stride(high, step, index)
}

/// The parts of a slice selector (RFC 9535, section 2.3.4.1).
#[derive(Clone, Copy)]
pub struct Slice {
    pub first: Option<i64>,
    pub last: Option<i64>,
    pub step: i64,
}

/// The elements from one index on that come before another, each a whole number of steps from the first.
#[derive(Clone, Copy)]
pub struct Rising {
    pub low: i64,
    pub high: i64,
    pub step: i64,
    ghost from_start: { pos 0 ≤ℤ low },
    ghost goes_up: { pos 0 <ℤ step },
}

impl Rising {
    /// The elements of a slice with a step above 0. They are counted only where a bound is below 0 (RFC 9535, section
    /// 2.3.4.2.2).
    pub fn of(node: Cursor<'_>, slice: Slice) -> Rising
        requires { pos 0 <ℤ slice.step }
        ensures { children_where (is_index (rises result.low result.high result.step)) (node_of node.entry) ≡ sliced slice.first slice.last slice.step (node_of node.entry) }
    {
        Rising {
            low: index_from_start(node, slice.first.unwrap_or(0)).max(0),
            high: index_from_start(node, slice.last.unwrap_or(i64::MAX)),
            step: slice.step,
        }
    }

    /// Whether none of them has this index or a higher one.
    pub fn ends_before(self, index: u32) -> bool
        ensures { result ≡ int_le self.high (pos index) }
    {
        self.high <= i64::from(index)
    }

    /// Whether one of them has this index.
    fn has_index(self, index: u32) -> bool
        ensures { result ≡ rises self.low self.high self.step (pos index) }
    {
        let Rising { low, high, step } = self;
        let index = i64::from(index);
        low <= index && index < high && is_on_stride(low, step, index)
    }

    /// Whether `child`, before which `index` children come, is one of them.
    pub fn has(self, child: Cursor<'_>, index: u32) -> bool
        ensures { result ≡ is_index (rises self.low self.high self.step) (step_to index (name_of child.entry)) }
    {
        child.name().is_none() && self.has_index(index)
    }
}

/// Whether a slice with a step below 0 selects `child`, one of `count` children, before which `index` of them come.
fn has_falling(child: Cursor<'_>, count: u32, slice: Slice, index: u32) -> bool
    requires { slice.step ≢ pos 0 }
    ensures { result ≡ is_index (downward count slice.first slice.last slice.step) (step_to index (name_of child.entry)) }
{
    child.name().is_none() && has_downward(count, slice.first, slice.last, slice.step, index)
}

/// The elements that a slice with a step below 0 selects, in their own order.
fn falling_elements<'a>(alloc: Global, node: Cursor<'a>, slice: Slice) -> Result<Vec<Cursor<'a>>>
    requires { slice.step <ℤ pos 0 }
    ensures nodes { IfOk result (λ found. map node_of found.items ≡ children_where (is_index (downward (count_of (node_of node.entry)) slice.first slice.last slice.step)) (node_of node.entry)) }
    ensures lines { IfOk result (λ found. AreOf (line_of node.entry) found.items) }
{
    let mut found = Vec::new(alloc);
    let count = node.child_count();
    let mut next = node.first_child();
    let mut index = 0;
    while let Some(child) = next {
        if has_falling(child, count, slice, index) {
            found.push(child)?;
        }
        index += 1;
        next = child.next_sibling();
    }
    Ok(found)
}

/// The elements of a slice with a step that is not above 0, of an array alone, from the last to the first. A step of 0
/// selects none (RFC 9535, section 2.3.4.2.2).
pub fn find_falling<'a>(alloc: Global, node: Cursor<'a>, slice: Slice) -> Result<Vec<Cursor<'a>>>
    requires { slice.step ≤ℤ pos 0 }
    ensures nodes { IfOk result (λ found. map node_of found.items ≡ sliced slice.first slice.last slice.step (node_of node.entry)) }
    ensures lines { IfOk result (λ found. AreOf (line_of node.entry) found.items) }
{
    if slice.step == 0 {
        return Ok(Vec::new(alloc));
    }
    let mut found = falling_elements(alloc, node, slice)?;
    found.reverse();
    Ok(found)
}
