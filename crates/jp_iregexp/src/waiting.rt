//! The states that wait for what comes next in a text.

ghost use Rattle.std.specs.Prelude.{ℕ, ◌≡◌, ◌∷◌, [], IfOk, OnOk, get_or, length, true, false};
ghost use Rattle.std.specs.List.{Contains};
ghost use Rattle.jp_iregexp.specs.Waiting.{Adds, IsMarked};

use crate::Result;
use std::alloc::Global;

/// Numbers of states, each once, and by number whether it is among them.
#[derive(Drop)]
pub(crate) struct Waiting {
    pub(crate) list: Vec<usize>,
    pub(crate) has: Vec<bool>,
}

impl Waiting {
    /// A list in which none of the `states` states waits yet.
    pub(crate) fn new(alloc: Global, states: usize) -> Result<Waiting>
        ensures marked { IfOk result (λ waiting. IsMarked waiting) }
        ensures none { IfOk result (λ waiting. waiting.list.items ≡ []) }
        ensures size { IfOk result (λ waiting. length waiting.has.items ≡ states) }
    {
        let mut has = Vec::new(alloc);
        has.resize(states, false)?;
        Ok(Waiting {
            list: Vec::new(alloc),
            has,
        })
    }

    /// Adds a state that is not there yet.
    #[inline(always)]
    pub(crate) fn add(&mut self, state: usize) -> Result<()>
        requires { IsMarked self.old }
        ensures { OnOk result (Adds (state ∷ []) self.old self.new) }
    {
        let Some(has) = self.has.get(state) else {
            return Ok(());
        };
        if *has {
            return Ok(());
        }
        self.has[state] = true;
        self.list.push(state)?;
        Ok(())
    }

    /// Adds those of the states that are not there yet.
    #[inline(always)]
    pub(crate) fn add_all(&mut self, states: &[usize]) -> Result<()>
        requires { IsMarked self.old }
        ensures { OnOk result (Adds states.now self.old self.new) }
    {
        for state in states {
            self.add(*state)?;
        }
        Ok(())
    }

    /// Takes all states out.
    pub(crate) fn clear(&mut self)
        requires { IsMarked self.old }
        ensures marked { IsMarked self.new }
        ensures none { self.new.list.items ≡ [] }
        ensures size { length self.new.has.items ≡ length self.old.has.items }
    {
        unmark(self.list.as_slice(), self.has.as_mut_slice());
        self.list.clear();
    }
}

/// Takes the marks of the states away.
fn unmark(states: &[usize], has: &mut [bool])
    ensures { (s : ℕ) → get_or has.new s false ≡ true → (get_or has.old s false ≡ true) × (Contains states.now s → ⊥) }
{
    for state in states {
        unmark_one(*state, has);
    }
}

/// Takes the mark of one state away.
fn unmark_one(state: usize, has: &mut [bool])
    ensures { (s : ℕ) → get_or has.new s false ≡ true → (get_or has.old s false ≡ true) × (s ≡ state → ⊥) }
{
    if state >= has.len() {
        return;
    }
    has[state] = false;
}
