//! A compiled query: the steps from nodes to nodes, with all that is the same for each line found beforehand.
//!
//! What stands for what of the syntax tree (`jp_query`), and what it knows beyond it:
//!
//! | Syntax tree | Here | What is known |
//! |---|---|---|
//! | `Segment` | `Step` | whether it leads to one child, by a `Key` |
//! | `Selector` | `Choice` | of a name, whether each of its bytes stands for itself |
//! | `Logical` | `Condition` | whether it asks the root alone |
//! | the same | `Test` | whether it asks one `Question` of one node |
//! | `Comparable`, `Argument` | `Operand` | the value of a number |
//! | `Argument` | `Spelled` | the pattern that a text spells |
//! | `Path`, `Call` | `Sought` | whether it asks the root alone |
//! | the same | `Found` | whether a query is singular; which of the functions a call is of |
//!
//! A query within a filter goes from the node that is asked about. One from the root is asked of the root, by a slot.
//! `specs/Programs.antt` says which part of a syntax tree each value means.

use crate::leaves::{Constant, LiteralPattern};
use crate::question::{Key, Question};
use jp_syntax::CompareOp;

/// A step from nodes to nodes (RFC 9535, section 2.5).
#[cycle(program)]
#[derive(Drop)]
pub(crate) enum Step {
    /// To the child that a name or an index alone selects.
    One(Key),
    Child(Vec<Choice>),
    Descendant(Vec<Choice>),
    /// Along the steps of the slot at this position, which end the query. What they select from a node is remembered, for a
    /// second way to it.
    Known(usize),
}

/// Which children are selected (RFC 9535, section 2.3).
#[cycle(program)]
#[derive(Drop)]
pub(crate) enum Choice {
    One(Key),
    Wildcard,
    Slice {
        first: Option<i64>,
        last: Option<i64>,
        step: Option<i64>,
    },
    Filter(Condition),
}

/// What is true or false of a node (RFC 9535, section 2.3.5).
#[cycle(program)]
#[derive(Drop)]
pub(crate) enum Condition {
    Test(Box<Test>),
    /// What the slot at this position asks of the root, so that the answer is the same for each node of a line.
    Once(usize),
}

/// What is asked of a node (RFC 9535, section 2.3.5.2).
#[cycle(program)]
#[derive(Drop)]
pub(crate) enum Test {
    /// What is asked of the node that a singular query selects, beside what the filter spells. Most filters ask no more.
    Single(Vec<Key>, Question),
    Or(Vec<Condition>),
    And(Vec<Condition>),
    Not(Box<Condition>),
    /// Whether the query selects a node.
    Exists(Vec<Step>),
    Compare {
        left: Operand,
        op: CompareOp,
        right: Operand,
    },
    /// Whether all of a text, or a part of it, passes a pattern (RFC 9535, sections 2.4.6 and 2.4.7).
    Passes {
        whole: bool,
        text: Operand,
        pattern: Spelled,
    },
}

/// A value that is compared, or that a function is given (RFC 9535, sections 2.3.5.1 and 2.4).
#[cycle(program)]
#[derive(Drop)]
pub(crate) enum Operand {
    Constant(Box<Constant>),
    Sought(Box<Sought>),
}

/// What spells a pattern.
#[cycle(program)]
#[derive(Drop)]
pub(crate) enum Spelled {
    Literal(Box<LiteralPattern>),
    Sought(Box<Sought>),
}

/// A value that is looked for in the line.
#[cycle(program)]
#[derive(Drop)]
pub(crate) enum Sought {
    Found(Found),
    /// What the slot at this position finds at the root.
    Once(usize),
}

/// A value that is found at a node.
#[cycle(program)]
#[derive(Drop)]
pub(crate) enum Found {
    /// That of the node that a singular query selects.
    Single(Vec<Key>),
    /// That of the only node that another query selects.
    Only(Vec<Step>),
    /// How long a value is (RFC 9535, section 2.4.4).
    Length(Box<Operand>),
    /// How many nodes a query selects (RFC 9535, section 2.4.5).
    Count(Vec<Step>),
    /// That of the only node that a query selects, as a function answers it (RFC 9535, section 2.4.8).
    Value(Vec<Step>),
}

/// What is asked once: of the root, once in a line, or which nodes steps select, once from a node. It refers only to slots
/// before it.
#[derive(Drop)]
pub(crate) enum Slot {
    /// Whether a test holds of the root.
    Test(Box<Test>),
    /// Which value is found at the root.
    Value(Found),
    /// Which nodes the last steps of a query select.
    Steps(Vec<Step>),
}
