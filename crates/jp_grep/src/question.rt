//! What lines, or the nodes of lines, are asked.

ghost use Rattle.std.specs.Prelude.{◌≡◌, [], ◌∷◌, ◌++◌, IfOk, None, OnErr, OnOk, Some, map};
ghost use Rattle.std.specs.Option.{ForSome};
ghost use Rattle.jp_columns.specs.Columns.{names_of};
ghost use Rattle.jp_lines.specs.Views.{text_of_view};
ghost use Rattle.jp_model.specs.Query.Syntax.{path};
ghost use Rattle.jp_nodes.specs.Cursors.{node_of};
ghost use Rattle.jp_syntax.specs.View.{origin_view};
ghost use Rattle.jp_types.specs.Checks.{checked_view};
ghost use Rattle.jp_types.specs.CheckedConditions.{checked_condition_view};
ghost use Rattle.jp_grep.specs.Asked.{IsOfItsLine, asked_tree, first_name, query_path};
ghost use Rattle.jp_grep.specs.Conditions.{expression, membership};

use crate::asked::{AskedNode, AskedQuery};
use crate::condition::Condition;
use crate::first_names::FirstNames;
use crate::line_answers::LineAnswers;
use jp_eval::{Predicate, Program};
use jp_listed::Listed;
use jp_syntax::Origin;
use jp_types::{Checked, CheckedCondition};
use std::alloc::{AllocError, Global};

/// Which lines, or nodes of lines, are selected.
#[derive(Clone, Copy, Debug, PartialEq, Eq)]
pub enum Wanted {
    /// Those with a value that matches.
    Matching,
    /// Those with a value that does not match.
    Others,
    /// Those that are refused. They have no value that is asked.
    Refused,
}

impl Wanted {
    ghost use Rattle.jp_grep.specs.Matching.{wants_found, wants_refused, wants_value};

    /// Whether a node is wanted, by whether it matches.
    pub(crate) fn wants_value(self, matching: bool) -> bool
        ensures { result ≡ wants_value self matching }
    {
        match self {
            Wanted::Matching => matching,
            Wanted::Others => !matching,
            Wanted::Refused => false,
        }
    }

    /// Whether a node is wanted, by whether the queries that it was asked let it match.
    fn wants_found(self, some: bool) -> bool
        ensures { result ≡ wants_found self some }
    {
        match self {
            Wanted::Matching => some,
            Wanted::Others => true,
            Wanted::Refused => false,
        }
    }

    /// Whether a refused line is wanted.
    pub(crate) fn wants_refused(self) -> bool
        ensures { result ≡ wants_refused self }
    {
        match self {
            Wanted::Matching | Wanted::Others => false,
            Wanted::Refused => true,
        }
    }
}

/// What the queries of a question are for.
#[derive(Clone, Copy, Debug, PartialEq, Eq)]
pub enum Queries {
    /// They filter: a node matches only where one of them selects a node.
    Filter,
    /// They are columns: a node matches whether or not they select one.
    Columns,
}

impl Queries {
    ghost use Rattle.jp_grep.specs.Matching.{let_match};

    /// Whether they let a node match, by whether one of them selects a node.
    pub(crate) fn let_match(self, some: bool) -> bool
        ensures { result ≡ let_match self some }
    {
        match self {
            Queries::Filter => some,
            Queries::Columns => true,
        }
    }

    /// A query as it is asked for that.
    fn compile(
        self,
        alloc: Global,
        origin: Origin,
        query: &Checked,
    ) -> Result<AskedQuery, AllocError>
        ensures { IfOk result (λ asked. query_path asked ≡ path (origin_view origin) (checked_view query.now)) }
    {
        match self {
            Queries::Filter => AskedQuery::compile(alloc, origin, query),
            Queries::Columns => AskedQuery::compile_column(alloc, origin, query),
        }
    }
}

/// What is asked of each line, or of each node that a query selects in it: a node matches where each condition holds of it, and
/// some query selects a node or the queries are columns. Of a line the root is asked.
#[derive(Drop)]
pub struct Question {
    /// The query whose nodes are asked, where it is not the root of each line.
    pub(crate) each: Option<Program>,
    pub(crate) purpose: Queries,
    pub(crate) queries: Vec<AskedQuery>,
    /// The names that they begin with, where they are columns whose members are found together.
    pub(crate) first_names: Option<FirstNames>,
    pub(crate) conditions: Vec<Condition>,
    pub(crate) wanted: Wanted,
    ghost gathered: { ForSome first_names (λ found. names_of found.names ≡ map first_name queries.items) },
}

impl Question {
    ghost use Rattle.jp_grep.specs.LineAnswers.{Knows};
    ghost use Rattle.jp_grep.specs.Matching.{all_hold, conditions_of, each_of, let_match, matches, queries_of, selects, wants_found};

    /// Of lines, with no query and no condition yet.
    pub fn new(alloc: Global, wanted: Wanted, purpose: Queries) -> Question
        ensures each { each_of result ≡ None }
        ensures queries { queries_of result ≡ [] }
        ensures conditions { conditions_of result ≡ [] }
        ensures wanted { result.wanted ≡ wanted }
        ensures purpose { result.purpose ≡ purpose }
    {
        Question {
            each: None,
            purpose,
            queries: Vec::new(alloc),
            first_names: None,
            conditions: Vec::new(alloc),
            wanted,
        }
    }

    /// Asks the nodes that a query selects in a line, one by one and in their order, in place of its root.
    ///
    /// If memory is refused, the answer is `AllocError`, and the question is as before.
    pub fn ask_each(&mut self, alloc: Global, query: &Checked) -> Result<(), AllocError>
        ensures each { OnOk result (each_of self.new ≡ Some (checked_view query.now)) }
        ensures refused { OnErr result (each_of self.new ≡ each_of self.old) }
        ensures queries { queries_of self.new ≡ queries_of self.old }
        ensures conditions { conditions_of self.new ≡ conditions_of self.old }
        ensures wanted { self.new.wanted ≡ self.old.wanted }
        ensures purpose { self.new.purpose ≡ self.old.purpose }
    {
        let program = Program::compile(alloc, query.segments())?;
        self.each = Some(program);
        Ok(())
    }

    /// Adds a query after the others. It begins at the root of the line, or at the node that is asked.
    ///
    /// If memory is refused, the answer is `AllocError`, and the question is as before.
    pub fn add_query(
        &mut self,
        alloc: Global,
        origin: Origin,
        query: &Checked,
    ) -> Result<(), AllocError>
        ensures added { OnOk result (queries_of self.new ≡ queries_of self.old ++ path (origin_view origin) (checked_view query.now) ∷ []) }
        ensures refused { OnErr result (queries_of self.new ≡ queries_of self.old) }
        ensures each { each_of self.new ≡ each_of self.old }
        ensures conditions { conditions_of self.new ≡ conditions_of self.old }
        ensures wanted { self.new.wanted ≡ self.old.wanted }
        ensures purpose { self.new.purpose ≡ self.old.purpose }
    {
        let query = self.purpose.compile(alloc, origin, query)?;
        self.first_names = None;
        self.queries.push(query)?;
        Ok(())
    }

    /// From then on, and until a query is added, the members of the names that columns begin with are found together, where they
    /// are many. The question means what it meant.
    ///
    /// If memory is refused, the answer is `AllocError`.
    pub fn gather_columns(&mut self, alloc: Global) -> Result<(), AllocError>
        ensures each { each_of self.new ≡ each_of self.old }
        ensures queries { queries_of self.new ≡ queries_of self.old }
        ensures conditions { conditions_of self.new ≡ conditions_of self.old }
        ensures wanted { self.new.wanted ≡ self.old.wanted }
        ensures purpose { self.new.purpose ≡ self.old.purpose }
    {
        self.first_names = FirstNames::of(alloc, &self.queries)?;
        Ok(())
    }

    /// Adds a condition after the others. In it `@` is the node that is asked, and `$` the value of its line.
    ///
    /// If memory is refused, the answer is `AllocError`, and the question is as before.
    pub fn add_condition(
        &mut self,
        alloc: Global,
        condition: &CheckedCondition,
    ) -> Result<(), AllocError>
        ensures added { OnOk result (conditions_of self.new ≡ conditions_of self.old ++ expression (checked_condition_view condition.now) ∷ []) }
        ensures refused { OnErr result (conditions_of self.new ≡ conditions_of self.old) }
        ensures each { each_of self.new ≡ each_of self.old }
        ensures queries { queries_of self.new ≡ queries_of self.old }
        ensures wanted { self.new.wanted ≡ self.old.wanted }
        ensures purpose { self.new.purpose ≡ self.old.purpose }
    {
        let predicate = Predicate::compile(alloc, condition.expression())?;
        self.conditions.push(Condition::Expression(predicate))?;
        Ok(())
    }

    /// Adds after the others the condition that the value of a query is one of a list, or, where that is not wanted, is none of
    /// it. A query that selects no node, or several, has no value, which is in no list.
    ///
    /// If memory is refused, the answer is `AllocError`, and the question is as before.
    pub fn add_list(
        &mut self,
        alloc: Global,
        origin: Origin,
        query: &Checked,
        listed: Listed,
        wanted: bool,
    ) -> Result<(), AllocError>
        ensures added { OnOk result (conditions_of self.new ≡ conditions_of self.old ++ membership (path (origin_view origin) (checked_view query.now)) listed wanted ∷ []) }
        ensures refused { OnErr result (conditions_of self.new ≡ conditions_of self.old) }
        ensures each { each_of self.new ≡ each_of self.old }
        ensures queries { queries_of self.new ≡ queries_of self.old }
        ensures wanted { self.new.wanted ≡ self.old.wanted }
        ensures purpose { self.new.purpose ≡ self.old.purpose }
    {
        let query = AskedQuery::compile(alloc, origin, query)?;
        self.conditions.push(Condition::Membership {
            query,
            listed,
            wanted,
        })?;
        Ok(())
    }

    /// Whether each condition holds of a node. It stops at the first that does not.
    pub(crate) fn all_hold<'a>(
        &self,
        alloc: Global,
        asked: &AskedNode<'a>,
        answers: &mut LineAnswers<'a>,
    ) -> Result<bool, AllocError>
        requires node { IsOfItsLine asked.now }
        requires knows { Knows self.now (text_of_view asked.now.line) answers.old }
        ensures knows { OnOk result (Knows self.now (text_of_view asked.now.line) answers.new) }
        ensures truth { IfOk result (λ answer. answer ≡ all_hold (conditions_of self.now) (node_of asked.now.node) (asked_tree asked.now)) }
    {
        for (index, condition) in self.conditions.iter().enumerate() {
            if !condition.holds(alloc, asked, &mut answers.conditions[index])? {
                return Ok(false);
            }
        }
        Ok(true)
    }

    /// Whether a query selects a node. It stops at the first that does.
    fn selects<'a>(
        &self,
        alloc: Global,
        asked: &AskedNode<'a>,
        answers: &mut LineAnswers<'a>,
    ) -> Result<bool, AllocError>
        requires node { IsOfItsLine asked.now }
        requires knows { Knows self.now (text_of_view asked.now.line) answers.old }
        ensures knows { OnOk result (Knows self.now (text_of_view asked.now.line) answers.new) }
        ensures truth { IfOk result (λ answer. answer ≡ selects (queries_of self.now) (node_of asked.now.node) (asked_tree asked.now)) }
    {
        for (index, query) in self.queries.iter().enumerate() {
            if query.selects(alloc, asked, &mut answers.queries[index])? {
                return Ok(true);
            }
        }
        Ok(false)
    }

    /// Whether a node is wanted, by whether one of the queries that it was asked selects a node.
    pub(crate) fn wants_found(&self, some: bool) -> bool
        ensures { result ≡ wants_found self.now.wanted (let_match self.now.purpose some) }
    {
        self.wanted.wants_found(self.purpose.let_match(some))
    }

    /// Whether a node matches.
    #[inline(always)]
    pub(crate) fn matches<'a>(
        &self,
        alloc: Global,
        asked: &AskedNode<'a>,
        answers: &mut LineAnswers<'a>,
    ) -> Result<bool, AllocError>
        requires node { IsOfItsLine asked.now }
        requires knows { Knows self.now (text_of_view asked.now.line) answers.old }
        ensures knows { OnOk result (Knows self.now (text_of_view asked.now.line) answers.new) }
        ensures truth { IfOk result (λ answer. answer ≡ matches self.now (node_of asked.now.node) (asked_tree asked.now)) }
    {
        if !self.all_hold(alloc, asked, answers)? {
            return Ok(false);
        }
        match self.purpose {
            Queries::Filter => self.selects(alloc, asked, answers),
            Queries::Columns => Ok(true),
        }
    }
}
