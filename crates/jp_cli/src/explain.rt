//! What `explain` answers: the plan of a query, and how many lines it opens.

ghost use Rattle.jp_model.specs.Script.Commands.{explain_line};
ghost use Rattle.jp_query.specs.Status.{query_of};
ghost use Rattle.jp_cli.specs.Runs.{RepliesTo, setup_of};

use crate::reply::{Reply, refuse_query};
use crate::session::Session;
use jp_plan::Plan;
use jp_query::read_query;
use std::alloc::AllocError;

impl Session {
    /// Reports the plan of the query that a text spells. No line is opened.
    pub(crate) fn explain_query(&self, text: &[u8]) -> Result<Reply, AllocError>
        ensures { RepliesTo query_of (setup_of self.now) (explain_line text.now)
            self.now.store.state self.now.store.state result }
    {
        match read_query(self.alloc, text) {
            Ok(checked) => Ok(Reply::Lines(Plan::new(
                self.alloc,
                &checked,
                &self.store,
            )?.explain()?)),
            Err(refusal) => refuse_query(refusal),
        }
    }
}
