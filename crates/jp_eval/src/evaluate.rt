//! What queries select (RFC 9535, sections 2.1 to 2.5).

ghost use Rattle.std.specs.Prelude.{◌≡◌, ◌==◌, ◌++◌, [], ◌∷◌, not, true, length, map, IfOk, OnOk, OnErr};
ghost use Rattle.jp_model.specs.Meaning.Selecting.{nodes};
ghost use Rattle.jp_model.specs.Query.Typing.{segments_typed};
ghost use Rattle.jp_syntax.specs.Sound.{has_sound_literals};
ghost use Rattle.jp_syntax.specs.View.{segments_view};
ghost use Rattle.jp_nodes.specs.Cursors.{line_of, place_of, node_of};
ghost use Rattle.jp_eval.specs.Compiled.{program_view};
ghost use Rattle.jp_eval.specs.Found.{Adds, found_in};
ghost use Rattle.jp_children.specs.Found.{AreOf};
ghost use Rattle.jp_eval.specs.Remembers.{Remembers};
ghost use Rattle.jp_eval.specs.Tallies.{none_in, tally, total_of};

use crate::compile::Compiler;
use crate::frame::{Frame, Run, Walk};
use crate::program::{Slot, Step};
use crate::sums::LISTED;
use jp_nodes::Cursor;
use jp_syntax::Segment;
use std::alloc::{AllocError, Global};

/// A compiled query: segments, with all that is the same for each line found beforehand. Each query from the root within its
/// filters has a slot, so that it is answered once a line, and so have its last steps where a second way may lead to a node.
#[derive(Drop)]
pub struct Program {
    pub(crate) slots: Vec<Slot>,
    pub(crate) steps: Vec<Step>,
}

impl Program {
    /// Compiles segments that are well-typed. What was compiled means what they mean.
    ///
    /// If memory is refused, the answer is `AllocError`.
    pub fn compile(alloc: Global, segments: &[Segment]) -> Result<Program, AllocError>
        requires literals { has_sound_literals (segments_view segments.now) ≡ true }
        requires typed { segments_typed (segments_view segments.now) ≡ true }
        ensures { IfOk result (λ program. program_view program ≡ segments_view segments.now) }
    {
        let mut compiler = Compiler::new(alloc);
        let steps = compiler.compile_segments(segments)?;
        let slots = compiler.slots;
        Ok(Program { slots, steps })
    }

    /// Adds what the steps select from a node, where `most` nodes decide. What the frame has answered is not asked again.
    #[inline(always)]
    fn push_up_to<'a>(
        &self,
        most: u64,
        alloc: Global,
        start: Cursor<'a>,
        root: Cursor<'a>,
        frame: &mut Frame<'a>,
    ) -> Result<(), AllocError>
        requires line { line_of start ≡ line_of root }
        requires root { place_of root ≡ 0 }
        requires remembers { Remembers self.now (line_of root) frame.old }
        ensures adds { Adds (line_of root.entry) frame.old.found.items frame.new.found.items }
        ensures told { OnOk result (tally (line_of root.entry) most frame.new [] ≡ tally (line_of root.entry) most frame.old (nodes (program_view self.now) (node_of start.entry ∷ []) (node_of root.entry).tree)) }
        ensures remembers { Remembers self.now (line_of root.entry) frame.new }
    {
        let run = Run {
            alloc,
            slots: &self.slots,
            known: self.slots.len(),
            root: &root,
        };
        let walk = Walk { run: &run, most };
        walk.answer_slots(frame)?;
        walk.push_steps(&start, &self.steps, frame)
    }

    /// Adds what the steps select from a node. What the frame has answered is not asked again.
    #[inline(always)]
    fn push_all<'a>(
        &self,
        alloc: Global,
        start: Cursor<'a>,
        root: Cursor<'a>,
        frame: &mut Frame<'a>,
    ) -> Result<(), AllocError>
        requires line { line_of start ≡ line_of root }
        requires root { place_of root ≡ 0 }
        requires remembers { Remembers self.now (line_of root) frame.old }
        ensures adds { Adds (line_of root.entry) frame.old.found.items frame.new.found.items }
        ensures ok { OnOk result (map node_of frame.new.found.items ≡ map node_of frame.old.found.items ++ nodes (program_view self.now) (node_of start.entry ∷ []) (node_of root.entry).tree) }
        ensures remembers { Remembers self.now (line_of root.entry) frame.new }
    {
        self.push_up_to(LISTED, alloc, start, root, frame)
    }

    /// Whether the steps select a node. None was counted before. What the frame has answered is not asked again.
    #[inline(always)]
    fn selects_one<'a>(
        &self,
        alloc: Global,
        start: Cursor<'a>,
        root: Cursor<'a>,
        frame: &mut Frame<'a>,
    ) -> Result<bool, AllocError>
        requires line { line_of start ≡ line_of root }
        requires root { place_of root ≡ 0 }
        requires sum { total_of (line_of root) frame.old.sum ≡ none_in (line_of root) }
        requires remembers { Remembers self.now (line_of root) frame.old }
        ensures ok { IfOk result (λ some. some ≡ not (length (nodes (program_view self.now) (node_of start.entry ∷ []) (node_of root.entry).tree) == 0)) }
        ensures none { found_in frame.new ≡ [] }
        ensures remembers { Remembers self.now (line_of root.entry) frame.new }
    {
        let result = self.push_up_to(1, alloc, start, root, frame);
        let some = frame.sum.count > 0;
        frame.forget_found();
        result?;
        Ok(some)
    }

    /// Whether the nodelist that `run` adds has a node. It stops at the first. The frame lends its room from line to line; what
    /// it had found is forgotten, and it has found nothing then.
    ///
    /// If memory is refused, the answer is `AllocError`, and the frame can be lent again.
    pub fn selects_in<'a>(
        &self,
        alloc: Global,
        start: Cursor<'a>,
        root: Cursor<'a>,
        frame: &mut Frame<'a>,
    ) -> Result<bool, AllocError>
        requires line { line_of start ≡ line_of root }
        requires root { place_of root ≡ 0 }
        ensures ok { IfOk result (λ some. some ≡ not (length (nodes (program_view self.now) (node_of start.entry ∷ []) (node_of root.entry).tree) == 0)) }
        ensures none { found_in frame.new ≡ [] }
        ensures remembers { Remembers self.now (line_of root.entry) frame.new }
    {
        frame.forget();
        self.selects_one(alloc, start, root, frame)
    }

    /// Whether the nodelist that `run` adds has a node, as `selects_in` tells it, in a frame that remembers the answers of the
    /// root: as a call of this program in the same line left it. These are not asked again.
    ///
    /// If memory is refused, the answer is `AllocError`, and the frame can be lent again.
    pub fn selects_again<'a>(
        &self,
        alloc: Global,
        start: Cursor<'a>,
        root: Cursor<'a>,
        frame: &mut Frame<'a>,
    ) -> Result<bool, AllocError>
        requires line { line_of start ≡ line_of root }
        requires root { place_of root ≡ 0 }
        requires remembers { Remembers self.now (line_of root) frame.old }
        ensures ok { IfOk result (λ some. some ≡ not (length (nodes (program_view self.now) (node_of start.entry ∷ []) (node_of root.entry).tree) == 0)) }
        ensures none { found_in frame.new ≡ [] }
        ensures remembers { Remembers self.now (line_of root.entry) frame.new }
    {
        frame.forget_found();
        self.selects_one(alloc, start, root, frame)
    }

    /// Finds the nodelist that `run` adds, in a frame that lends its room from line to line: `found` of it is the nodelist
    /// then, and what it had found before is forgotten.
    ///
    /// If memory is refused, the answer is `AllocError`, and the frame can be lent again.
    pub fn run_in<'a>(
        &self,
        alloc: Global,
        start: Cursor<'a>,
        root: Cursor<'a>,
        frame: &mut Frame<'a>,
    ) -> Result<(), AllocError>
        requires line { line_of start ≡ line_of root }
        requires root { place_of root ≡ 0 }
        ensures ok { OnOk result (map node_of (found_in frame.new) ≡ nodes (program_view self.now) (node_of start.entry ∷ []) (node_of root.entry).tree) }
        ensures lines { AreOf (line_of root.entry) (found_in frame.new) }
        ensures remembers { Remembers self.now (line_of root.entry) frame.new }
    {
        frame.forget();
        self.push_all(alloc, start, root, frame)
    }

    /// Finds the nodelist that `run` adds, as `run_in` does, in a frame that remembers the answers of the root: as a call of this
    /// program in the same line left it. These are not asked again.
    ///
    /// If memory is refused, the answer is `AllocError`, and the frame can be lent again.
    pub fn run_again<'a>(
        &self,
        alloc: Global,
        start: Cursor<'a>,
        root: Cursor<'a>,
        frame: &mut Frame<'a>,
    ) -> Result<(), AllocError>
        requires line { line_of start ≡ line_of root }
        requires root { place_of root ≡ 0 }
        requires remembers { Remembers self.now (line_of root) frame.old }
        ensures ok { OnOk result (map node_of (found_in frame.new) ≡ nodes (program_view self.now) (node_of start.entry ∷ []) (node_of root.entry).tree) }
        ensures lines { AreOf (line_of root.entry) (found_in frame.new) }
        ensures remembers { Remembers self.now (line_of root.entry) frame.new }
    {
        frame.forget_found();
        self.push_all(alloc, start, root, frame)
    }

    /// Adds the nodelist of the segments from a node on, with duplicates and in its order (RFC 9535, section 2.1.2). In a
    /// filter `@` is the child that is tested, and `$` is `root`, the root of the same line.
    ///
    /// If memory is refused, the answer is `AllocError`, and `out` is as before.
    pub fn run<'a>(
        &self,
        alloc: Global,
        start: Cursor<'a>,
        root: Cursor<'a>,
        out: &mut Vec<Cursor<'a>>,
    ) -> Result<(), AllocError>
        requires line { line_of start ≡ line_of root }
        requires root { place_of root ≡ 0 }
        ensures ok { OnOk result (map node_of out.new.items ≡ map node_of out.old.items ++ nodes (program_view self.now) (node_of start.entry ∷ []) (node_of root.entry).tree) }
        ensures err { OnErr result (out.new.items ≡ out.old.items) }
        ensures lines { AreOf (line_of root.entry) out.old.items → AreOf (line_of root.entry) out.new.items }
    {
        let before = out.len();
        let mut frame = Frame::new(alloc);
        std::mem::swap(out, &mut frame.found);
        let result = self.push_all(alloc, start, root, &mut frame);
        std::mem::swap(out, &mut frame.found);
        if result.is_err() {
            out.truncate(before);
        }
        result
    }
}

/// Adds the nodelist of the segments from a node on, with duplicates and in its order (RFC 9535, section 2.1.2). In a
/// filter `@` is the child that is tested, and `$` is `root`, the root of the same line. The segments are compiled for this
/// call alone; to ask many lines, compile a `Program` once.
///
/// If memory is refused, the answer is `AllocError`, and `out` is as before.
pub fn eval_from<'a>(
    alloc: Global,
    segments: &[Segment],
    start: Cursor<'a>,
    root: Cursor<'a>,
    out: &mut Vec<Cursor<'a>>,
) -> Result<(), AllocError>
    requires line { line_of start ≡ line_of root }
    requires root { place_of root ≡ 0 }
    requires literals { has_sound_literals (segments_view segments.now) ≡ true }
    requires typed { segments_typed (segments_view segments.now) ≡ true }
    ensures ok { OnOk result (map node_of out.new.items ≡ map node_of out.old.items ++ nodes (segments_view segments.now) (node_of start.entry ∷ []) (node_of root.entry).tree) }
    ensures err { OnErr result (out.new.items ≡ out.old.items) }
    ensures lines { AreOf (line_of root.entry) out.old.items → AreOf (line_of root.entry) out.new.items }
{
    let program = Program::compile(alloc, segments)?;
    program.run(alloc, start, root, out)
}
