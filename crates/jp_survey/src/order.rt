//! The order of places: that of their paths, step by step.

ghost use Rattle.std.specs.Prelude.{◌≡◌, ◌<◌, ℕ, IfOk, List, OnOk, length};
ghost use Rattle.jp_survey.specs.Places.{ArePlaces, names_in, path_at, paths_of};
ghost use Rattle.jp_survey.specs.declared.links.Link.{Link};
ghost use Rattle.jp_survey.specs.Walked.{AreBelow, AreNext, AreOrdered, AreWaiting, IsBelow, IsLeftOf, OfLast};

use crate::links::Links;
use crate::listing::{Stride, stride_of};
use indexmap::IndexSet;
use std::alloc::{AllocError, Global};

/// A place that is not the root, by the place above it and the step from there.
#[derive(Clone, Copy, Debug, PartialEq, Eq, PartialOrd, Ord)]
pub(crate) struct Below<'n> {
    parent: usize,
    stride: Stride<'n>,
    place: usize,
}

/// A place, by its number.
fn below_of<'n>(
    names: &'n IndexSet<String>,
    links: &Links,
    place: usize,
) -> Result<Below<'n>, AllocError>
    requires { 0 < place }
    ensures place { IfOk result (λ below. below.place ≡ place) }
    ensures below { IfOk result (IsBelow (names_in names.now.keys) links.now.links.keys) }
{
    let link = links.links.get_index(place).ok_or(AllocError)?;
    Ok(Below {
        parent: link.parent,
        stride: stride_of(names, link.step)?,
        place,
    })
}

/// The places but the root, where those below one place stand together in the order of their steps.
fn list_below<'n>(
    alloc: Global,
    names: &'n IndexSet<String>,
    links: &Links,
) -> Result<Vec<Below<'n>>, AllocError>
    requires { ArePlaces (names_in names.now.keys) links.now.links.keys }
    ensures { IfOk result (λ list. AreBelow (names_in names.now.keys) links.now.links.keys list.items) }
{
    let mut list = Vec::new(alloc);
    for place in 1..links.len() {
        list.push(below_of(names, links, place)?)?;
    }
    list.sort_unstable();
    Ok(list)
}

/// The end of those below each place in such a list.
fn ends_of(alloc: Global, list: &[Below<'_>], many: usize) -> Result<Vec<usize>, AllocError>
    ensures { IfOk result (λ ends. length ends.items ≡ many) }
{
    let mut ends = Vec::new(alloc);
    ends.resize(many, 0)?;
    for (index, below) in list.iter().enumerate() {
        if let Some(end) = ends.get_mut(below.parent) {
            *end = index + 1;
        }
    }
    Ok(ends)
}

/// Adds the places below a place to those that wait, the last one first. They end in such a list at `end`.
fn push_below(
    list: &[Below<'_>],
    end: usize,
    place: usize,
    waiting: &mut Vec<usize>,
) -> Result<(), AllocError>
    ensures { (names : List (List ℕ)) (links : List Link) → ArePlaces names links → AreBelow names links list.now → place < length links
        → AreWaiting (paths_of names links) waiting.old.items → OfLast (IsLeftOf (path_at (paths_of names links) place)) (paths_of names links) waiting.old.items
        → OnOk result (AreNext (paths_of names links) (path_at (paths_of names links) place) waiting.new.items) }
{
    for turn in 0..end {
        let next = list.get(end - 1 - turn).ok_or(AllocError)?;
        if next.parent != place {
            return Ok(());
        }
        waiting.push(next.place)?;
    }
    Ok(())
}

/// All places in the order of their paths: `ends` has for each where those below it end in such a list.
fn walk(alloc: Global, list: &[Below<'_>], ends: &[usize]) -> Result<Vec<usize>, AllocError>
    ensures { (names : List (List ℕ)) (links : List Link) → ArePlaces names links → AreBelow names links list.now → length ends.now ≡ length links
        → IfOk result (λ order. AreOrdered (paths_of names links) order.items) }
{
    let mut order = Vec::new(alloc);
    let mut waiting = Vec::new(alloc);
    waiting.push(0)?;
    for _turn in 0..ends.len() {
        let place = waiting.pop().ok_or(AllocError)?;
        let end = *ends.get(place).ok_or(AllocError)?;
        push_below(list, end, place, &mut waiting)?;
        order.push(place)?;
    }
    Ok(order)
}

/// All places in the order of their paths.
pub(crate) fn order_places(
    alloc: Global,
    names: &IndexSet<String>,
    links: &Links,
) -> Result<Vec<usize>, AllocError>
    requires { ArePlaces (names_in names.now.keys) links.now.links.keys }
    ensures { IfOk result (λ order. AreOrdered (paths_of (names_in names.now.keys) links.now.links.keys) order.items) }
{
    let list = list_below(alloc, names, links)?;
    let ends = ends_of(alloc, &list, links.len())?;
    walk(alloc, &list, &ends)
}
