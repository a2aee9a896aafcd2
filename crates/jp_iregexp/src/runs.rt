//! The turns of a class, in one pass.

ghost use Rattle.std.specs.Prelude.{◌≡◌, ◌≤◌, ◌<◌, ◌+◌, ◌^◌, ℕ, true, false, Some, None, IfOk};
ghost use Rattle.std.specs.Option.{IfSome};
ghost use Rattle.jp_iregexp.specs.Positions.{Has, AreEnds, AreStarts};
ghost use Rattle.jp_iregexp.specs.Nodes.{class_of};
ghost use Rattle.jp_model.specs.Pattern.Language.{Language, RepeatsWithin};
ghost use Rattle.jp_model.specs.Pattern.Tree.{one_of};

use crate::Result;
use crate::class::Class;
use crate::positions::PositionSet;
use std::alloc::Global;

/// The positions where `least` scalars of the class, or up to `further` more, end that begin at one of the starts. It takes one
/// pass, whatever the bounds are: the earliest start is kept that is not before `begin`, where the scalars begin that are all in
/// the class up to a position, and no more than `most` before the position. Where it is not `least` before it, no start is.
pub(crate) fn run_ends(
    alloc: Global,
    class: &Class,
    text: &[char],
    least: u32,
    further: usize,
    starts: &PositionSet,
) -> Result<PositionSet>
    requires { AreStarts text.now starts.now }
    ensures { IfOk result (λ out. AreEnds (RepeatsWithin (Language (one_of (class_of class.now))) least (Some (least + further))) text.now starts.now out) }
{
    let Some(first) = starts.first_from(0) else {
        return Ok(PositionSet::empty(alloc));
    };
    let least = least as usize;
    let most = least.saturating_add(further).min(text.len());
    let mut out = if least == 0 {
        starts.copy(alloc)?
    } else {
        PositionSet::empty(alloc)
    };
    let mut begin = first;
    let mut start = first;
    for p in first..text.len() {
        begin = begin_at(class.contains(text[p]), begin, p + 1);
        let Some(next) = leading(starts, start, begin, most, p + 1) else {
            return Ok(out);
        };
        start = next;
        if start + least <= p + 1 {
            out.insert(p + 1)?;
        }
    }
    Ok(out)
}

/// Where the scalars of the class begin that end at a position: where they began before, if the last one is in the class.
#[inline(always)]
fn begin_at(passes: bool, begin: usize, p: usize) -> usize
    ensures passes { passes ≡ true → result ≡ begin }
    ensures fails { passes ≡ false → result ≡ p }
{
    if passes { begin } else { p }
}

/// The earliest start that is not before `begin` and no more than `most` before a position, where no such one is before `start`.
#[inline(always)]
fn leading(starts: &PositionSet, start: usize, begin: usize, most: usize, p: usize) -> Option<usize>
    requires has { Has starts.now start }
    requires fits { start + most < 2 ^ 64 }
    ensures next { IfSome result (λ next. Has starts.now next × begin ≤ next × p ≤ next + most) }
    ensures first { IfSome result (λ next. (q : ℕ) → start ≤ q → begin ≤ q → p ≤ q + most → Has starts.now q → next ≤ q) }
    ensures none { result ≡ None → (q : ℕ) → begin ≤ q → p ≤ q + most → Has starts.now q → ⊥ }
{
    if begin <= start && p <= start + most {
        return Some(start);
    }
    let earliest = begin.max(p.saturating_sub(most));
    if starts.contains(earliest) {
        return Some(earliest);
    }
    starts.first_from(earliest)
}
