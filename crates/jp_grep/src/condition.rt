//! What has to hold of a node that is asked.

ghost use Rattle.std.specs.Prelude.{◌≡◌, IfOk, OnOk};
ghost use Rattle.jp_eval.specs.Remembers.{Remembers};
ghost use Rattle.jp_lines.specs.Views.{text_of_view};
ghost use Rattle.jp_nodes.specs.Cursors.{node_of};
ghost use Rattle.jp_grep.specs.Asked.{IsOfItsLine, asked_tree, query_path};
ghost use Rattle.jp_grep.specs.Conditions.{condition_holds, condition_view, is_listed};
ghost use Rattle.jp_grep.specs.LineAnswers.{KnowsCondition};

use crate::asked::{AskedNode, AskedQuery};
use crate::line_answers::LineAnswer;
use jp_eval::{Frame, Predicate};
use jp_listed::Listed;
use jp_syntax::Origin;
use std::alloc::{AllocError, Global};

/// What has to hold of a node that is asked.
#[derive(Drop)]
pub(crate) enum Condition {
    /// An expression (RFC 9535, section 2.3.5).
    Expression(Predicate),
    /// That the value of a query is one of a list, or, where that is not wanted, is none of it. A query that selects no node, or
    /// several, has no value.
    Membership {
        query: AskedQuery,
        listed: Listed,
        wanted: bool,
    },
}

/// Whether the value of a query is one of a list.
fn is_member<'a>(
    alloc: Global,
    asked: &AskedNode<'a>,
    query: &AskedQuery,
    listed: &Listed,
    frame: &mut Frame<'a>,
) -> Result<bool, AllocError>
    requires node { IsOfItsLine asked.now }
    requires remembers { Remembers query.now.program (text_of_view asked.now.line) frame.old }
    ensures member { IfOk result (λ member. member ≡ is_listed (query_path query.now) listed.now (node_of asked.now.node) (asked_tree asked.now)) }
    ensures remembers { OnOk result (Remembers query.now.program (text_of_view asked.now.line) frame.new) }
{
    query.find_again(alloc, asked, frame)?;
    let found = frame.found();
    if found.len() != 1 {
        return Ok(false);
    }
    listed.has(alloc, found[0])
}

impl Condition {
    /// Whether it holds of a node. What asks the root of its line alone is asked once in the line.
    pub(crate) fn holds<'a>(
        &self,
        alloc: Global,
        asked: &AskedNode<'a>,
        answer: &mut LineAnswer<'a>,
    ) -> Result<bool, AllocError>
        requires node { IsOfItsLine asked.now }
        requires knows { KnowsCondition (text_of_view asked.now.line) self.now answer.old }
        ensures truth { IfOk result (λ truth. truth ≡ condition_holds (condition_view self.now) (node_of asked.now.node) (asked_tree asked.now)) }
        ensures knows { OnOk result (KnowsCondition (text_of_view asked.now.line) self.now answer.new) }
    {
        match self {
            Condition::Expression(predicate) => {
                predicate.holds_again(alloc, asked.node, asked.line.root(), &mut answer.frame)
            }
            Condition::Membership {
                query,
                listed,
                wanted,
            } => {
                if let Some(known) = answer.known {
                    return Ok(known);
                }
                let holds = is_member(alloc, asked, query, listed, &mut answer.frame)? == *wanted;
                if query.origin == Origin::Root {
                    answer.known = Some(holds);
                }
                Ok(holds)
            }
        }
    }
}
