//! The text that explains a plan.

ghost use Rattle.std.specs.Prelude.{◌≡◌, ◌++◌, ◌<◌, true, codes, decimal, length, OnOk, IfOk, IfSome};
ghost use Rattle.jp_model.specs.Plans.{guard_text, scan_text, seek_text, told};
ghost use Rattle.jp_syntax.specs.Sound.{is_sound};
ghost use Rattle.jp_syntax.specs.View.{literal_view};
ghost use Rattle.jp_plan.specs.Paths.{guard_at, path_at as steps_at};
ghost use Rattle.jp_plan.specs.Planned.{explained, lines_opened};
ghost use Rattle.jp_plan.specs.PlanViews.{plan_of};
ghost use Rattle.jp_plan.specs.Routes.{IsRouteOf};

use crate::guard::Guard;
use crate::plan::Plan;
use crate::route::{Route, find_route};
use crate::segments::push_segments;
use crate::text::{op_text, push_decimal, push_literal};
use jp_index::laws;
use jp_rows::QueryPart;
use jp_store::Store;
use std::alloc::AllocError;

/// Appends the line of a seek to a text, if there is one.
fn push_seek(store: &Store, seek: Option<u32>, out: &mut Vec<u8>) -> Result<(), AllocError>
    requires { IfSome seek (λ k. k < length store.now.state.paths) }
    ensures { OnOk result (out.new.items ≡ out.old.items ++ seek_text (steps_at store.now.state.paths seek)) }
{
    let Some(index) = seek else {
        return Ok(());
    };
    out.extend_from_slice(b"seek ")?;
    QueryPart::Path(store.path_at(index)).push_to(out)?;
    out.extend_from_slice(b"\n")
}

/// Appends the line of a guard to a text, if there is one.
fn push_guard(store: &Store, guard: Option<Guard<'_>>, out: &mut Vec<u8>) -> Result<(), AllocError>
    requires within { IfSome guard (λ g. g.index < length store.now.state.paths) }
    requires sound { IfSome guard (λ g. is_sound (literal_view g.literal.now) ≡ true) }
    ensures { OnOk result (out.new.items ≡ out.old.items ++ guard_text (guard_at store.now.state.paths guard.entry)) }
{
    let Some(guard) = guard else {
        return Ok(());
    };
    out.extend_from_slice(b"guard ")?;
    QueryPart::Path(store.path_at(guard.index)).push_to(out)?;
    out.extend_from_slice(b" ")?;
    out.extend_from_slice(op_text(guard.op))?;
    out.extend_from_slice(b" ")?;
    push_literal(guard.literal, out)?;
    out.extend_from_slice(b"\n")
}

/// Appends to a text the line that says that there is neither a seek nor a guard, if so.
fn push_scan(
    store: &Store,
    seek: Option<u32>,
    guard: Option<Guard<'_>>,
    out: &mut Vec<u8>,
) -> Result<(), AllocError>
    requires seek { IfSome seek (λ k. k < length store.now.state.paths) }
    requires guard { IfSome guard (λ g. g.index < length store.now.state.paths) }
    ensures { OnOk result (out.new.items ≡ out.old.items ++ scan_text (steps_at store.now.state.paths seek) (guard_at store.now.state.paths guard.entry)) }
{
    match seek {
        Some(_) => Ok(()),
        None => match guard {
            Some(_) => Ok(()),
            None => out.extend_from_slice(b"scan\n"),
        },
    }
}

/// Appends to a text the line that says how many lines have to be opened, of how many that have a tree.
fn push_counts(opened: usize, trees: usize, out: &mut Vec<u8>) -> Result<(), AllocError>
    ensures { OnOk result (out.new.items ≡ out.old.items ++ told (codes "open " ++ decimal opened ++ codes " of " ++ decimal trees)) }
{
    out.extend_from_slice(b"open ")?;
    push_decimal(opened, out)?;
    out.extend_from_slice(b" of ")?;
    push_decimal(trees, out)?;
    out.extend_from_slice(b"\n")
}

impl<'s> Plan<'s> {
    /// How many lines have to be opened. None is opened.
    fn count_opened(&self, route: Route<'s>) -> Result<usize, AllocError>
        requires { IsRouteOf route (plan_of self.now).query (plan_of self.now).over }
        ensures { IfOk result (λ count. count ≡ length (lines_opened (plan_of self.now))) }
    {
        match route.guard {
            Some(_) => Ok(self.opened_lines(route)?.len()),
            None => match route.seek {
                Some(index) => {
                    laws::a_line_has_one_entry();
                    Ok(self.store.index(index).count() as usize)
                }
                None => Ok(self.store.tree_count() as usize),
            },
        }
    }

    /// The text that explains the plan: the path that is sought and the comparison that guards, or that every line is scanned;
    /// then the segments that are left of the query; and last how many lines have to be opened, of how many that have a
    /// tree (profile). It opens no line.
    ///
    /// # Errors
    ///
    /// Memory ran out.
    pub fn explain(&self) -> Result<Vec<u8>, AllocError>
        ensures { IfOk result (λ text. text.items ≡ explained (plan_of self.now)) }
    {
        let route = find_route(self.query.segments(), self.store);
        let mut out = Vec::new(self.alloc);
        push_seek(self.store, route.seek, &mut out)?;
        push_guard(self.store, route.guard, &mut out)?;
        push_scan(self.store, route.seek, route.guard, &mut out)?;
        push_segments(route.rest, &mut out)?;
        let opened = self.count_opened(route)?;
        push_counts(opened, self.store.tree_count() as usize, &mut out)?;
        Ok(out)
    }
}
