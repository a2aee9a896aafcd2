//! Branches of a graph. Where there are many, those that begin with the same ASCII scalar are merged after it, so that a text
//! need not try each of them.

ghost use Rattle.std.specs.Prelude.{◌≡◌, ◌≤◌, IfOk, length};
ghost use Rattle.std.specs.Option.{IfSome};
ghost use Rattle.jp_iregexp.specs.Branches.{AddsNext, AddsNexts, AreTold, IsFirst, IsRow};
ghost use Rattle.jp_iregexp.specs.Graphs.{Merges};

use crate::entries::{Entries, Stop};
use crate::graph::State;
use std::alloc::{AllocError, Global};

/// The number of branches from which on they are told apart by their first scalars.
const MANY: usize = 8;

/// The number of scalars at the beginning of a branch by which it is told apart from others, one after another.
pub(crate) const DEEP: usize = 8;

/// The first scalar of a branch, and the state after it.
#[derive(Clone, Copy)]
pub(crate) struct First {
    pub(crate) scalar: u8,
    pub(crate) next: usize,
}

/// The branches that begin with one ASCII scalar, and the others.
#[derive(Drop)]
pub(crate) struct Told {
    pub(crate) firsts: Vec<First>,
    pub(crate) others: Vec<usize>,
}

impl Entries {
    /// The state from which a text goes on as from any of the branches. The states from `base` on are done.
    #[cycle(merged)]
    pub(crate) fn merged(
        &mut self,
        alloc: Global,
        branches: Vec<usize>,
        base: usize,
        deep: usize,
    ) -> Result<usize, Stop>
        requires { base ≤ length self.old.states.items }
        ensures { IfOk result (λ entry. Merges base self.old.states.items self.new.states.items branches.items entry) }
    {
        if let [only] = branches.as_slice() {
            return Ok(*only);
        }
        if deep == 0 || branches.len() < MANY {
            return self.push(State::Fan(branches));
        }
        let Told { firsts, mut others } = self.told_apart(alloc, branches.as_slice(), base)?;
        let nexts = self.nexts(alloc, firsts.as_slice(), base, deep - 1)?;
        let switch = self.push(State::Switch(nexts))?;
        others.push(switch)?;
        self.push(State::Fan(others))
    }

    /// By ASCII scalar the state from which a text goes on after it as from any of the branches that begin with it.
    #[cycle(merged)]
    fn nexts(
        &mut self,
        alloc: Global,
        firsts: &[First],
        base: usize,
        deep: usize,
    ) -> Result<Vec<Option<usize>>, Stop>
        requires { base ≤ length self.old.states.items }
        ensures { IfOk result (λ nexts. AddsNexts base self.old.states.items self.new.states.items firsts.now nexts.items 128) }
    {
        let mut nexts = Vec::new(alloc);
        for code in 0u8..128 {
            let row = row(alloc, firsts, code)?;
            let next = self.next(alloc, row, base, deep)?;
            nexts.push(next)?;
        }
        Ok(nexts)
    }

    /// The state from which a text goes on as from any of the row, if there is one in it.
    #[cycle(merged)]
    fn next(
        &mut self,
        alloc: Global,
        row: Vec<usize>,
        base: usize,
        deep: usize,
    ) -> Result<Option<usize>, Stop>
        requires { base ≤ length self.old.states.items }
        ensures { IfOk result (λ found. AddsNext base self.old.states.items self.new.states.items row.items found) }
    {
        if row.is_empty() {
            return Ok(None);
        }
        let merged = self.merged(alloc, row, base, deep)?;
        Ok(Some(merged))
    }

    /// Tells the branches apart.
    fn told_apart(&self, alloc: Global, branches: &[usize], base: usize) -> Result<Told, AllocError>
        ensures { IfOk result (λ told. AreTold self.now.states.items base branches.now told.firsts.items told.others.items) }
    {
        let mut firsts = Vec::new(alloc);
        let mut others = Vec::new(alloc);
        for branch in branches {
            match self.first(*branch, base) {
                Some(first) => firsts.push(first)?,
                None => others.push(*branch)?,
            }
        }
        Ok(Told { firsts, others })
    }

    /// The first scalar of a branch whose state is done, where it is alone in its class and ASCII.
    fn first(&self, number: usize, base: usize) -> Option<First>
        ensures { IfSome result (λ first. IsFirst self.now.states.items base number first) }
    {
        if number < base {
            return None;
        }
        let Some(State::Scalar { class, next }) = self.states.get(number) else {
            return None;
        };
        let next = *next;
        let scalar = class.only_ascii()?;
        Some(First { scalar, next })
    }
}

/// The states after a first scalar.
fn row(alloc: Global, firsts: &[First], code: u8) -> Result<Vec<usize>, AllocError>
    ensures { IfOk result (λ row. IsRow firsts.now code row.items) }
{
    let mut row = Vec::new(alloc);
    for first in firsts {
        if first.scalar == code {
            row.push(first.next)?;
        }
    }
    Ok(row)
}
