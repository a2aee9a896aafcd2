//! A query over a store.

use jp_store::Store;
use jp_types::Checked;
use std::alloc::{AllocError, Global};

/// A plan of a query: it says which lines have to be opened, and where the evaluation begins in them. It borrows the query
/// and the store, so that neither changes while it lives.
#[derive(Drop)]
pub struct Plan<'s> {
    pub(crate) query: &'s Checked,
    pub(crate) store: &'s Store,
    pub(crate) alloc: Global,
}

impl<'s> Plan<'s> {
    ghost use Rattle.std.specs.Prelude.{◌≡◌, IfOk};
    ghost use Rattle.jp_types.specs.Checks.{checked_view};
    ghost use Rattle.jp_plan.specs.PlanViews.{plan_of};

    /// The plan of a query over the lines and indexes of a store. It opens no line.
    ///
    /// # Errors
    ///
    /// Memory ran out.
    pub fn new(alloc: Global, query: &'s Checked, store: &'s Store) -> Result<Plan<'s>, AllocError>
        ensures { IfOk result (λ plan. plan_of plan ≡ record { query = checked_view query.now; over = store.now }) }
    {
        Ok(Plan {
            query,
            store,
            alloc,
        })
    }
}
