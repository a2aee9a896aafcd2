//! The lines that have to be opened. None is opened here.

ghost use Rattle.std.specs.Prelude.{◌≡◌, ◌<◌, true, length, filter, All, Some, IfOk};
ghost use Rattle.jp_model.specs.Numbered.{numbers_where};
ghost use Rattle.jp_model.specs.Plans.{is_guard_operator, is_tree};
ghost use Rattle.jp_syntax.specs.Sound.{is_sound};
ghost use Rattle.jp_syntax.specs.View.{literal_view, op_view};
ghost use Rattle.jp_store.specs.Collections.{line_status, statuses_in};
ghost use Rattle.jp_plan.specs.Paths.{guard_at, path_at};
ghost use Rattle.jp_plan.specs.PlanViews.{plan_of};
ghost use Rattle.jp_plan.specs.Planned.{lines_opened};
ghost use Rattle.jp_plan.specs.Passing.{guard_status, seek_status, is_told_tree, IsLineOf};
ghost use Rattle.jp_plan.specs.Routes.{IsRouteOf};

use crate::guard::Guard;
use crate::plan::Plan;
use crate::route::Route;
use jp_index::laws;
use jp_store::Status;
use jp_values::key_of_literal;
use std::alloc::AllocError;

/// Whether a line with this status has a tree.
fn is_tree(status: Status) -> bool
    ensures { result ≡ is_told_tree status }
{
    match status {
        Status::Tree => true,
        Status::Blank | Status::Refused(_) => false,
    }
}

impl<'s> Plan<'s> {
    /// The lines that have a tree, ascending.
    fn tree_lines(&self) -> Result<Vec<u32>, AllocError>
        ensures { IfOk result (λ lines. lines.items ≡ numbers_where is_tree 1 (statuses_in (plan_of self.now).over)) }
    {
        let mut lines = Vec::with_capacity(self.alloc, self.store.tree_count() as usize)?;
        for before in 0..self.store.line_count() {
            if is_tree(self.store.line_status(before + 1)) {
                lines.push(before + 1)?;
            }
        }
        Ok(lines)
    }

    /// The lines where the path of an index has a node, ascending.
    fn sought_lines(&self, index: u32) -> Result<Vec<u32>, AllocError>
        requires { index < length (plan_of self.now).over.state.paths }
        ensures { IfOk result (λ lines. lines.items
            ≡ numbers_where (seek_status (path_at (plan_of self.now).over.state.paths (Some index))) 1 (statuses_in (plan_of self.now).over)) }
    {
        laws::a_line_has_one_entry();
        self.store.index(index).lines(self.alloc)
    }

    /// The lines where a guard holds, ascending.
    fn guarded_lines(&self, guard: Guard<'s>) -> Result<Vec<u32>, AllocError>
        requires within { guard.index < length (plan_of self.now).over.state.paths }
        requires operator { is_guard_operator (op_view guard.op) ≡ true }
        requires sound { is_sound (literal_view guard.literal.now) ≡ true }
        ensures { IfOk result (λ lines. lines.items
            ≡ numbers_where (guard_status (guard_at (plan_of self.now).over.state.paths (Some guard.entry))) 1 (statuses_in (plan_of self.now).over)) }
    {
        laws::a_line_has_one_entry();
        let key = key_of_literal(self.alloc, guard.literal)?;
        self.store
            .index(guard.index)
            .lines_where(self.alloc, guard.op, &key)
    }

    /// Whether the path of an index has a node in a line.
    fn is_sought(&self, index: u32, line: u32) -> bool
        requires index { index < length (plan_of self.now).over.state.paths }
        requires line { IsLineOf (plan_of self.now).over line }
        ensures { result ≡ seek_status (path_at (plan_of self.now).over.state.paths (Some index)) (line_status line (plan_of self.now).over) }
    {
        self.store.index(index).node_of(line).is_some()
    }

    /// Those of some lines in which the path of an index has a node.
    fn held_to_seek(&self, index: u32, lines: &[u32]) -> Result<Vec<u32>, AllocError>
        requires index { index < length (plan_of self.now).over.state.paths }
        requires lines { All (IsLineOf (plan_of self.now).over) lines.now }
        ensures { IfOk result (λ held. held.items
            ≡ filter (λ line. seek_status (path_at (plan_of self.now).over.state.paths (Some index)) (line_status line (plan_of self.now).over)) lines.now) }
    {
        let mut held = Vec::with_capacity(self.alloc, lines.len())?;
        for line in lines {
            if self.is_sought(index, *line) {
                held.push(*line)?;
            }
        }
        Ok(held)
    }

    /// The lines that have to be opened, ascending.
    pub(crate) fn opened_lines(&self, route: Route<'s>) -> Result<Vec<u32>, AllocError>
        requires { IsRouteOf route (plan_of self.now).query (plan_of self.now).over }
        ensures { IfOk result (λ lines. lines.items ≡ lines_opened (plan_of self.now)) }
    {
        match route.guard {
            Some(guard) => match route.seek {
                Some(index) => {
                    let guarded = self.guarded_lines(guard)?;
                    self.held_to_seek(index, &guarded)
                }
                None => self.guarded_lines(guard),
            },
            None => match route.seek {
                Some(index) => self.sought_lines(index),
                None => self.tree_lines(),
            },
        }
    }
}
