//! A query is compiled: once, and not for each line. This is what it selects; `compile_filter` has what its filters ask.
//!
//! What a level of nesting takes of the stack is kept small, as said there: lists are filled in place, and the calls that must
//! not share a frame say `#[inline(never)]`.

ghost use Rattle.std.specs.Prelude.{◌≡◌, ◌++◌, [], ◌∷◌, List, length, map, true, false, IfOk, IfSome, OnOk};
ghost use Rattle.jp_eval.specs.Expressions.{is_filter, readable};
ghost use Rattle.jp_eval.specs.Programs.{Onward, Table, Means, onward, slot_view, steps_in, table_of, steps_view, step_view, choices_view, choice_view, condition_view, test_view, sought_view, found_view};
ghost use Rattle.jp_eval.specs.Roots.{logical_from_root, side_from_root};
ghost use Rattle.jp_model.specs.Query.Limits.{segments_pass, segment_passes, selectors_pass, selector_passes};
ghost use Rattle.jp_model.specs.Query.Typing.{segments_typed, segment_typed, selectors_typed, selector_typed};
ghost use Rattle.jp_model.specs.Query.Syntax.{Segments, segment as syntax_segment};
ghost use Rattle.jp_syntax.specs.View.{segments_view, segment_view, selectors_view, selector_view};
ghost use Rattle.jp_eval.specs.declared.program.Choice.{Choice};
ghost use Rattle.jp_eval.specs.declared.program.Choice.TheVariants as choices;
ghost use Rattle.jp_eval.specs.declared.program.Slot.{Slot};
ghost use Rattle.jp_eval.specs.declared.program.Step.{Step};

use crate::Result;
use crate::constants::compile_member_name;
use crate::program::{Choice, Condition, Found, Slot, Sought, Step, Test};
use crate::question::Key;
use crate::ways::{Parts, Ways};
use jp_syntax::{Origin, Segment, Selector};
use std::alloc::Global;

/// What compiles a query, and the slots of what it has come upon that is asked once.
#[derive(Drop)]
pub(crate) struct Compiler {
    pub(crate) alloc: Global,
    pub(crate) slots: Vec<Slot>,
    /// How the nodes lie that the part being compiled goes from, or is asked of.
    pub(crate) ways: Ways,
}

/// Adds a filter.
#[inline(never)]
fn push_filter(all: &mut Vec<Choice>, condition: Condition) -> Result<()>
    ensures { OnOk result (all.new.items ≡ all.old.items ++ choices.Filter condition ∷ []) }
{
    all.push(Choice::Filter(condition))?;
    Ok(())
}

/// Adds the choice of a selector that is no filter.
#[inline(never)]
fn push_simple(alloc: Global, selector: &Selector, all: &mut Vec<Choice>) -> Result<()>
    requires { is_filter (selector_view selector.now) ≡ false }
    ensures { OnOk result ((choice : Choice) × ((all.new.items ≡ all.old.items ++ choice ∷ []) × ((table : Table) → choice_view table choice ≡ selector_view selector.now))) }
{
    let choice = match selector {
        Selector::Name(name) => Choice::One(Key::Name(compile_member_name(alloc, name)?)),
        Selector::Wildcard => Choice::Wildcard,
        Selector::Index(index) => Choice::One(Key::Index(*index)),
        Selector::Slice { first, last, step } => Choice::Slice {
            first: *first,
            last: *last,
            step: *step,
        },
        Selector::Filter(_) => unreachable!(),
    };
    all.push(choice)?;
    Ok(())
}

impl Compiler {
    /// With no slot yet.
    pub(crate) fn new(alloc: Global) -> Compiler
        ensures { result.slots.items ≡ [] }
    {
        Compiler {
            alloc,
            slots: Vec::new(alloc),
            ways: Ways::Apart,
        }
    }

    /// Adds a slot, and answers its position.
    fn add_slot(&mut self, slot: Slot) -> Result<usize>
        ensures position { IfOk result (λ position. position ≡ length self.old.slots.items) }
        ensures added { OnOk result (table_of self.new.slots.items ≡ table_of self.old.slots.items ++ slot_view (table_of self.old.slots.items) slot ∷ []) }
    {
        let position = self.slots.len();
        self.slots.push(slot)?;
        Ok(position)
    }

    /// Adds a slot for a test, and answers the condition that it holds of the root.
    pub(crate) fn add_test(&mut self, test: Box<Test>) -> Result<Condition>
        ensures { IfOk result (λ condition. Means self.old.slots.items self.new.slots.items (λ (table : Table). condition_view table condition) (logical_from_root (test_view (table_of self.old.slots.items) test.value))) }
    {
        let position = self.add_slot(Slot::Test(test))?;
        Ok(Condition::Once(position))
    }

    /// Adds a slot for a value, and answers that it is looked for at the root.
    pub(crate) fn add_value(&mut self, found: Found) -> Result<Sought>
        ensures { IfOk result (λ sought. Means self.old.slots.items self.new.slots.items (λ (table : Table). sought_view table sought) (side_from_root (found_view (table_of self.old.slots.items) found))) }
    {
        let position = self.add_slot(Slot::Value(found))?;
        Ok(Sought::Once(position))
    }

    /// Adds a slot for the last steps of a query, and answers the step along them.
    fn add_steps(&mut self, steps: Vec<Step>) -> Result<Step>
        ensures { IfOk result (λ step. Means self.old.slots.items self.new.slots.items (λ (table : Table). step_view table step) (λ (more : Segments). steps_view (table_of self.old.slots.items) steps.items)) }
    {
        let position = self.add_slot(Slot::Steps(steps))?;
        Ok(Step::Known(position))
    }

    /// The steps of parts, each after the first a slot.
    #[inline(never)]
    fn link(&mut self, parts: Parts) -> Result<Vec<Step>>
        ensures { (old : List Slot) (seen : List Onward) → Means old self.old.slots.items (λ (table : Table). map (step_view table) (steps_in parts)) seen → IfOk result (λ steps. Means old self.new.slots.items (λ (table : Table). steps_view table steps.items) (onward seen)) }
    {
        let (mut before, mut steps) = (parts.before, parts.last);
        while let Some(mut part) = before.pop() {
            let known = self.add_steps(steps)?;
            part.push(known)?;
            steps = part;
        }
        Ok(steps)
    }

    /// The steps of segments, in their order. Those from one on that a second way leads to are a slot.
    #[cycle(compile)]
    #[inline(never)]
    pub(crate) fn compile_segments(&mut self, segments: &[Segment]) -> Result<Vec<Step>>
        requires literals { segments_pass (segments_view segments.now) readable ≡ true }
        requires typed { segments_typed (segments_view segments.now) ≡ true }
        ensures { IfOk result (λ steps. Means self.old.slots.items self.new.slots.items (λ (table : Table). steps_view table steps.items) (segments_view segments.now)) }
    {
        let outer = self.ways;
        let mut parts = Parts::new(self.alloc, segments.len())?;
        for segment in segments {
            self.push_segment(segment, &mut parts)?;
        }
        self.ways = outer;
        self.link(parts)
    }

    /// Adds the step of a segment.
    #[cycle(compile)]
    #[inline(never)]
    fn push_segment(&mut self, segment: &Segment, parts: &mut Parts) -> Result<()>
        requires literals { segment_passes (segment_view segment.now) readable ≡ true }
        requires typed { segment_typed (segment_view segment.now) ≡ true }
        ensures { OnOk result ((step : Step) × ((steps_in parts.new ≡ steps_in parts.old ++ step ∷ []) × Means self.old.slots.items self.new.slots.items (λ (table : Table). step_view table step) (syntax_segment (segment_view segment.now)))) }
    {
        let before = self.ways;
        if parts.add_key(self.alloc, before, segment)? {
            return Ok(());
        }
        self.ways = before.within(segment);
        let step = match segment {
            Segment::Child(selectors) => Step::Child(self.compile_selectors(selectors)?),
            Segment::Descendant(selectors) => Step::Descendant(self.compile_selectors(selectors)?),
        };
        self.ways = before.behind(&step);
        parts.add(self.alloc, before, step)
    }

    /// The choices of selectors, in their order.
    #[cycle(compile)]
    #[inline(always)]
    fn compile_selectors(&mut self, selectors: &[Selector]) -> Result<Vec<Choice>>
        requires literals { selectors_pass (selectors_view selectors.now) readable ≡ true }
        requires typed { selectors_typed (selectors_view selectors.now) ≡ true }
        ensures { IfOk result (λ choices. Means self.old.slots.items self.new.slots.items (λ (table : Table). choices_view table choices.items) (selectors_view selectors.now)) }
    {
        let mut compiled = Vec::with_capacity(self.alloc, selectors.len())?;
        for selector in selectors {
            self.push_selector(selector, &mut compiled)?;
        }
        Ok(compiled)
    }

    /// Adds the choice of a selector.
    #[cycle(compile)]
    #[inline(never)]
    fn push_selector(&mut self, selector: &Selector, all: &mut Vec<Choice>) -> Result<()>
        requires literals { selector_passes (selector_view selector.now) readable ≡ true }
        requires typed { selector_typed (selector_view selector.now) ≡ true }
        ensures { OnOk result ((choice : Choice) × ((all.new.items ≡ all.old.items ++ choice ∷ []) × Means self.old.slots.items self.new.slots.items (λ (table : Table). choice_view table choice) (selector_view selector.now))) }
    {
        match selector {
            Selector::Filter(expression) => {
                let condition = self.compile_logical(Origin::Current, expression)?;
                push_filter(all, condition)
            }
            _ => push_simple(self.alloc, selector, all),
        }
    }
}
