//! What was answered of what is asked once.

ghost use Rattle.std.specs.Prelude.{◌≡◌, ◌<◌, false, IfOk, IfSome, MatchOption, Some, option_map, slice_get};
ghost use Rattle.jp_model.specs.Meaning.Functions.{in_pattern};
ghost use Rattle.jp_values.specs.Values.{value_view};
ghost use Rattle.jp_eval.specs.Answers.{IsAnswer, IsRunOf, IsValue, is_placed, slot_truth, slot_value, table_in};
ghost use Rattle.jp_eval.specs.Frames.{IsKept, Lends};
ghost use Rattle.jp_eval.specs.Functions.{passing};
ghost use Rattle.jp_eval.specs.declared.frame.Answer.{Answer as FrameAnswer};
ghost use Rattle.jp_eval.specs.Programs.{found_view, logical_at, no_logical, no_side, no_tail, side_at, slot_view, steps_view, tail_at, test_view};

use crate::Result;
use crate::frame::{Answer, Frame, Run, Walk};
use crate::functions::{read_passes, read_pattern};
use crate::program::{Found, Slot, Step, Test};
use crate::sums::LISTED;
use jp_values::Value;

/// Whether an answer says where nodes stand in the list of a frame.
fn is_placed(answer: &Option<Answer<'_>>) -> bool
    ensures { result ≡ is_placed answer.now }
{
    match answer {
        Some(Answer::Sums(sums)) => sums.most == LISTED,
        _ => false,
    }
}

/// Forgets an answer that says where nodes stand in the list of a frame.
pub(crate) fn forget_placed(answer: &mut Option<Answer<'_>>)
    ensures { (kept : FrameAnswer) → answer.new ≡ Some kept → (answer.old ≡ Some kept) × (is_placed (Some kept) ≡ false) }
{
    if is_placed(answer) {
        *answer = None;
    }
}

impl<'p, 'a> Run<'p, 'a> {
    /// Makes room for the answers that the part being answered refers to.
    #[inline(never)]
    pub(crate) fn prepare(self, frame: &mut Frame<'a>) -> Result<()>
        requires { IsKept self frame.old }
        ensures kept { IsKept self.entry frame.new }
        ensures found { frame.new.found ≡ frame.old.found }
        ensures sum { frame.new.sum ≡ frame.old.sum }
    {
        for _position in frame.answers.len()..self.known {
            frame.answers.push(None)?;
        }
        Ok(())
    }

    /// What the slot at a position asks, and a run that it is asked in, which refers to the slots before it.
    #[inline(always)]
    fn slot_at(self, position: usize) -> Option<(Run<'p, 'a>, &'p Slot)>
        ensures run { IfSome result (λ r. IsRunOf self.entry r.0) }
        ensures known { IfSome result (λ r. r.0.known < self.entry.known) }
        ensures view { option_map (λ r. slot_view (table_in r.0) r.1.now) result ≡ slice_get (table_in self.entry) position }
    {
        if position >= self.known {
            return None;
        }
        let Some(slot) = self.slots.get(position) else {
            return None;
        };
        let inner = Run {
            alloc: self.alloc,
            slots: self.slots,
            known: position,
            root: self.root,
        };
        Some((inner, slot))
    }

    /// The test of the slot at a position.
    #[inline(always)]
    pub(crate) fn test_at(self, position: usize) -> Option<(Run<'p, 'a>, &'p Test)>
        ensures run { IfSome result (λ r. IsRunOf self.entry r.0) }
        ensures known { IfSome result (λ r. r.0.known < self.entry.known) }
        ensures view { MatchOption result (logical_at (table_in self.entry) position ≡ no_logical) (λ r. logical_at (table_in self.entry) position ≡ test_view (table_in r.0) r.1.now) }
    {
        match self.slot_at(position) {
            Some((inner, Slot::Test(test))) => Some((inner, test)),
            _ => None,
        }
    }

    /// The value of the slot at a position.
    #[inline(always)]
    fn found_at(self, position: usize) -> Option<(Run<'p, 'a>, &'p Found)>
        ensures run { IfSome result (λ r. IsRunOf self.entry r.0) }
        ensures known { IfSome result (λ r. r.0.known < self.entry.known) }
        ensures view { MatchOption result (side_at (table_in self.entry) position ≡ no_side) (λ r. side_at (table_in self.entry) position ≡ found_view (table_in r.0) r.1.now) }
    {
        match self.slot_at(position) {
            Some((inner, Slot::Value(found))) => Some((inner, found)),
            _ => None,
        }
    }

    /// The steps of the slot at a position.
    #[inline(always)]
    pub(crate) fn steps_at(self, position: usize) -> Option<(Run<'p, 'a>, &'p [Step])>
        ensures run { IfSome result (λ r. IsRunOf self.entry r.0) }
        ensures known { IfSome result (λ r. r.0.known < self.entry.known) }
        ensures view { MatchOption result (tail_at (table_in self.entry) position ≡ no_tail) (λ r. tail_at (table_in self.entry) position ≡ steps_view (table_in r.0) r.1.now) }
    {
        match self.slot_at(position) {
            Some((inner, Slot::Steps(steps))) => Some((inner, steps)),
            _ => None,
        }
    }

    /// What the slot at a position answered, where it was asked before in the line.
    #[inline(always)]
    pub(crate) fn kept_at<'f>(self, position: usize, frame: &'f Frame<'a>) -> Option<&'f Answer<'a>>
        requires { IsKept self frame.now }
        ensures { IfSome result (λ answer. IsAnswer self.entry frame.now.found.items (slice_get (table_in self.entry) position) answer.now) }
    {
        if position >= self.known {
            return None;
        }
        frame.answers.get(position)?.as_ref()
    }

    /// Keeps what the slot at a position answers, where there is room.
    #[inline(always)]
    pub(crate) fn keep_at(self, position: usize, answer: Answer<'a>, frame: &mut Frame<'a>)
        requires kept { IsKept self frame.old }
        requires right { IsAnswer self frame.old.found.items (slice_get (table_in self) position) answer }
        ensures kept { IsKept self.entry frame.new }
        ensures found { frame.new.found ≡ frame.old.found }
        ensures sum { frame.new.sum ≡ frame.old.sum }
    {
        if position < self.known && position < frame.answers.len() {
            frame.answers[position] = Some(answer);
        }
    }
}

impl<'r, 'a> Walk<'r, 'a> {
    /// Answers what the slots ask of the root, in their order. Each refers only to those before it, which are answered then: so
    /// no walk from the root begins within another, and the stack does not grow with the query.
    pub(crate) fn answer_slots(self, frame: &mut Frame<'a>) -> Result<()>
        requires { IsKept self.run.now frame.old }
        ensures { Lends self.entry frame.old frame.new result }
    {
        self.run.prepare(frame)?;
        for position in 0..self.run.known {
            self.answer_slot(position, frame)?;
        }
        Ok(())
    }

    /// Answers what the slot at a position asks of the root.
    fn answer_slot(self, position: usize, frame: &mut Frame<'a>) -> Result<()>
        requires { IsKept self.run.now frame.old }
        ensures { Lends self.entry frame.old frame.new result }
    {
        match self.run.slots.get(position) {
            Some(Slot::Test(_)) => self.holds_once(position, frame).map(|_truth| ()),
            Some(Slot::Value(_)) => self.value_once(position, frame).map(|_value| ()),
            _ => Ok(()),
        }
    }

    /// Whether what a slot asks of the root holds. It is asked once.
    #[cycle(eval)]
    #[inline(never)]
    pub(crate) fn holds_once(self, position: usize, frame: &mut Frame<'a>) -> Result<bool>
        requires { IsKept self.run.now frame.old }
        ensures lends { Lends self.entry frame.old frame.new result }
        ensures value { IfOk result (λ b. b ≡ slot_truth self.entry.run.now position) }
    {
        if let Some(Answer::Holds(truth)) = self.run.kept_at(position, frame) {
            return Ok(*truth);
        }
        let Some((inner, test)) = self.run.test_at(position) else {
            return Ok(false);
        };
        inner.prepare(frame)?;
        let (run, most) = (&inner, self.most);
        let truth = Walk { run, most }.passes_any(inner.root, test, frame)?;
        self.run.keep_at(position, Answer::Holds(truth), frame);
        Ok(truth)
    }

    /// The value that a slot finds at the root.
    #[cycle(eval)]
    #[inline(never)]
    fn find_at_root(self, position: usize, frame: &mut Frame<'a>) -> Result<Value<'a>>
        requires { IsKept self.run.now frame.old }
        ensures lends { Lends self.entry frame.old frame.new result }
        ensures value { IfOk result (λ v. IsValue v (slot_value self.entry.run.now position)) }
    {
        let Some((inner, found)) = self.run.found_at(position) else {
            return Ok(Value::Nothing);
        };
        inner.prepare(frame)?;
        let (run, most) = (&inner, self.most);
        Walk { run, most }.found_value(inner.root, found, frame)
    }

    /// The value that a slot finds at the root, which is looked for once.
    #[cycle(eval)]
    #[inline(never)]
    pub(crate) fn value_once(self, position: usize, frame: &mut Frame<'a>) -> Result<Value<'a>>
        requires { IsKept self.run.now frame.old }
        ensures lends { Lends self.entry frame.old frame.new result }
        ensures value { IfOk result (λ v. IsValue v (slot_value self.entry.run.now position)) }
    {
        if let Some(Answer::Value(value)) = self.run.kept_at(position, frame) {
            return Ok(*value);
        }
        let value = self.find_at_root(position, frame)?.read();
        self.run.keep_at(position, Answer::Value(value), frame);
        Ok(value)
    }

    /// Whether a value is a string that passes the pattern that a slot finds at the root. It is read once.
    #[cycle(eval)]
    #[inline(never)]
    pub(crate) fn passes_once(
        self,
        position: usize,
        whole: bool,
        text: Value<'_>,
        frame: &mut Frame<'a>,
    ) -> Result<bool>
        requires { IsKept self.run.now frame.old }
        ensures lends { Lends self.entry frame.old frame.new result }
        ensures value { IfOk result (λ b. b ≡ in_pattern (passing whole) (value_view text.entry) (slot_value self.entry.run.now position)) }
    {
        if let Some(Answer::Pattern(read)) = self.run.kept_at(position, frame) {
            return read_passes(self.run.alloc, read, whole, text);
        }
        let value = self.value_once(position, frame)?;
        let read = Box::new(self.run.alloc, read_pattern(self.run.alloc, value)?)?;
        let passes = read_passes(self.run.alloc, &read, whole, text)?;
        self.run.keep_at(position, Answer::Pattern(read), frame);
        Ok(passes)
    }
}
