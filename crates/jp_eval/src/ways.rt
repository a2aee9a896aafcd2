//! Where a second way can lead to a node.

ghost use Rattle.std.specs.Prelude.{◌≡◌, ◌++◌, ◌∷◌, [], true, false, IfOk, OnOk};
ghost use Rattle.jp_model.specs.Query.Syntax.{segment as syntax_segment};
ghost use Rattle.jp_syntax.specs.View.{segment_view};
ghost use Rattle.jp_eval.specs.Programs.{Table, step_view, steps_in};
ghost use Rattle.jp_eval.specs.declared.program.Step.{Step};

use crate::Result;
use crate::constants::compile_key;
use crate::program::{Choice, Step};
use jp_syntax::Segment;
use std::alloc::Global;

/// How the nodes lie that steps go on from.
#[derive(Clone, Copy)]
pub(crate) enum Ways {
    /// Each is met once, and none is below another.
    Apart,
    /// Each is met once.
    Nested,
    /// One may be met again: several selectors of one segment may select the same node.
    Again,
}

impl Ways {
    /// How the same nodes lie where what is selected from each is remembered, so that each is walked once: none is met again.
    fn once(self) -> Ways {
        match self {
            Ways::Apart => Ways::Apart,
            Ways::Nested | Ways::Again => Ways::Nested,
        }
    }

    /// How the children lie that `choices` select: where there are several, one may be met again.
    fn through(self, choices: &[Choice]) -> Ways {
        if choices.len() > 1 {
            return Ways::Again;
        }
        self
    }

    /// The nodes from whose children a segment selects.
    pub(crate) fn within(self, segment: &Segment) -> Ways {
        match segment {
            Segment::Child(_) => self.once(),
            Segment::Descendant(_) => Ways::Nested,
        }
    }

    /// Those that a step selects from them.
    pub(crate) fn behind(self, step: &Step) -> Ways {
        match step {
            Step::One(_) | Step::Known(_) => self,
            Step::Child(choices) => self.once().through(choices),
            Step::Descendant(choices) => Ways::Nested.through(choices),
        }
    }

    /// Whether a second way may lead to what a step selects from, so that what it and those after it select is remembered. One
    /// to all below a node leads to all below each of these. A name or an index is found again sooner than it is looked up.
    pub(crate) fn repeats(self, step: &Step) -> bool {
        match step {
            Step::One(_) | Step::Known(_) => false,
            Step::Child(_) => matches!(self, Ways::Again),
            Step::Descendant(_) => !matches!(self, Ways::Apart),
        }
    }
}

/// The steps of a query, in their order and in parts: after the first, each begins with a step that a second way may lead to.
#[derive(Drop)]
pub(crate) struct Parts {
    pub(crate) before: Vec<Vec<Step>>,
    pub(crate) last: Vec<Step>,
}

impl Parts {
    /// No step, and room in the first part for this number of them.
    pub(crate) fn new(alloc: Global, steps: usize) -> Result<Parts>
        ensures { IfOk result (λ parts. steps_in parts ≡ []) }
    {
        Ok(Parts {
            before: Vec::new(alloc),
            last: Vec::with_capacity(alloc, steps)?,
        })
    }

    /// Adds a step, which goes on from nodes that lie so.
    #[inline(never)]
    pub(crate) fn add(&mut self, alloc: Global, ways: Ways, step: Step) -> Result<()>
        ensures { OnOk result (steps_in self.new ≡ steps_in self.old ++ step ∷ []) }
    {
        if ways.repeats(&step) {
            // Room for the step and the one along the slot of those after it.
            let next = Vec::with_capacity(alloc, 2)?;
            let part = std::mem::replace(&mut self.last, next);
            self.before.push(part)?;
        }
        self.last.push(step)?;
        Ok(())
    }
    /// Adds the step along the key of a segment, which goes on from nodes that lie so, and answers whether the segment has one.
    /// If it has none, no step is added.
    #[inline(never)]
    pub(crate) fn add_key(&mut self, alloc: Global, ways: Ways, segment: &Segment) -> Result<bool>
        ensures added { IfOk result (λ added. added ≡ true → (step : Step) × ((steps_in self.new ≡ steps_in self.old ++ step ∷ []) × ((table : Table) → step_view table step ≡ syntax_segment (segment_view segment.now)))) }
        ensures none { IfOk result (λ added. added ≡ false → self.new ≡ self.old) }
    {
        match compile_key(alloc, segment)? {
            Some(key) => {
                self.add(alloc, ways, Step::One(key))?;
                Ok(true)
            }
            None => Ok(false),
        }
    }
}
