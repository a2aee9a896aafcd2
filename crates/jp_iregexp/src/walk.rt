//! The run of a text through a graph.

ghost use Rattle.std.specs.Prelude.{ℕ, List, ◌≡◌, ◌↔◌, [], IfOk, IsTrue, OnOk, Some, length};
ghost use Rattle.std.specs.Str.{chars};
ghost use Rattle.std.specs.List.{Contains};
ghost use Rattle.jp_model.specs.Pattern.Language.{Occurs};
ghost use Rattle.jp_iregexp.specs.Graphs.{LeadsFrom, SomeLeads};
ghost use Rattle.jp_iregexp.specs.Waiting.{AreBehind, Closes, FreeTo, IsMarked, IsReady, ReadsTo};

use crate::Result;
use crate::graph::{END, Graph};
use crate::waiting::Waiting;
use std::alloc::Global;
use std::mem::swap;

impl Graph {
    /// The states to which this one leads without a scalar.
    #[inline(always)]
    fn free(&self, number: usize) -> &[usize]
        ensures { (t : ℕ) → Contains result.now t ↔ FreeTo self.now.states.items number t }
    {
        match self.states.get(number) {
            Some(state) => state.free(),
            None => &[],
        }
    }

    /// The state to which this one leads by a scalar.
    #[inline(always)]
    fn behind(&self, number: usize, scalar: char) -> Option<usize>
        ensures { (t : ℕ) → (result ≡ Some t) ↔ ReadsTo self.now.states.items scalar number t }
    {
        match self.states.get(number) {
            Some(state) => state.behind(scalar),
            None => None,
        }
    }

    /// Adds what the states lead to without a scalar.
    fn close(&self, waiting: &mut Waiting) -> Result<()>
        requires marked { IsMarked waiting.old }
        requires size { length waiting.old.has.items ≡ length self.now.states.items }
        ensures { OnOk result (Closes self.now.states.items waiting.old waiting.new) }
    {
        let mut turn = 0;
        while turn < waiting.list.len() {
            let number = waiting.list[turn];
            waiting.add_all(self.free(number))?;
            turn += 1;
        }
        Ok(())
    }

    /// Adds what the states lead to after the scalar.
    fn step(&self, waiting: &Waiting, scalar: char, next: &mut Waiting) -> Result<()>
        requires marked { IsMarked next.old }
        requires none { next.old.list.items ≡ [] }
        requires size { length next.old.has.items ≡ length self.now.states.items }
        ensures { OnOk result (AreBehind self.now.states.items waiting.now.list.items scalar next.new) }
    {
        for number in &waiting.list {
            if let Some(behind) = self.behind(*number, scalar) {
                next.add(behind)?;
            }
        }
        Ok(())
    }

    /// Puts the states to which those that wait lead by the scalar into `next`, in place of what was in it.
    fn read(&self, waiting: &Waiting, scalar: char, next: &mut Waiting) -> Result<()>
        requires marked { IsMarked next.old }
        requires size { length next.old.has.items ≡ length self.now.states.items }
        ensures { OnOk result (AreBehind self.now.states.items waiting.now.list.items scalar next.new) }
    {
        next.clear();
        self.step(waiting, scalar, next)
    }

    /// The states that wait for the first scalar of a text.
    fn started(&self, alloc: Global) -> Result<Waiting>
        ensures ready { IfOk result (λ waiting. IsReady self.now.states.items waiting) }
        ensures leads { IfOk result (λ waiting. (text : List ℕ) → SomeLeads self.now.states.items waiting.list.items text ↔ LeadsFrom self.now.states.items self.now.start text) }
    {
        let mut waiting = Waiting::new(alloc, self.states.len())?;
        waiting.add(self.start)?;
        self.close(&mut waiting)?;
        Ok(waiting)
    }

    /// Whether the text leads from the start to the end.
    #[inline(never)]
    pub(crate) fn accepts(&self, alloc: Global, text: &str) -> Result<bool>
        ensures { IfOk result (λ answer. IsTrue answer ↔ LeadsFrom self.now.states.items self.now.start (chars text.now)) }
    {
        let mut waiting = self.started(alloc)?;
        let mut next = Waiting::new(alloc, self.states.len())?;
        for scalar in text.chars() {
            self.read(&waiting, scalar, &mut next)?;
            if next.list.is_empty() {
                return Ok(false);
            }
            self.close(&mut next)?;
            swap(&mut waiting, &mut next);
        }
        Ok(has_end(&waiting))
    }

    /// Whether a part of the text leads from the start to the end.
    #[inline(never)]
    pub(crate) fn finds(&self, alloc: Global, text: &str) -> Result<bool>
        ensures { IfOk result (λ answer. IsTrue answer ↔ Occurs (LeadsFrom self.now.states.items self.now.start) (chars text.now)) }
    {
        let mut waiting = self.started(alloc)?;
        let mut next = Waiting::new(alloc, self.states.len())?;
        for scalar in text.chars() {
            if has_end(&waiting) {
                return Ok(true);
            }
            self.read(&waiting, scalar, &mut next)?;
            next.add(self.start)?;
            self.close(&mut next)?;
            swap(&mut waiting, &mut next);
        }
        Ok(has_end(&waiting))
    }
}

/// Whether the end is among the states.
fn has_end(waiting: &Waiting) -> bool
    requires { IsMarked waiting.now }
    ensures { IsTrue result ↔ Contains waiting.now.list.items 0 }
{
    match waiting.has.get(END) {
        Some(has) => *has,
        None => false,
    }
}
