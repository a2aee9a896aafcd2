//! The members of the names that the queries of a table begin with, found together where they are many.

ghost use Rattle.std.specs.Prelude.{◌≡◌, IfOk, IfSome, OnOk, map};
ghost use Rattle.std.specs.Option.{ForSome};
ghost use Rattle.jp_children.specs.Found.{node_list};
ghost use Rattle.jp_columns.specs.Columns.{names_of};
ghost use Rattle.jp_eval.specs.Compiled.{program_view};
ghost use Rattle.jp_lines.specs.Views.{text_of_view};
ghost use Rattle.jp_model.specs.Meaning.Selecting.{nodes, path_nodes};
ghost use Rattle.jp_nodes.specs.Cursors.{line_of, node_of};
ghost use Rattle.jp_syntax.specs.View.{origin_view};
ghost use Rattle.jp_grep.specs.Asked.{IsOfItsLine, asked_tree, first_name, query_path};
ghost use Rattle.jp_grep.specs.LineAnswers.{KnowsMembers};
ghost use Rattle.jp_grep.specs.Members.{AreFound, AreMembers, IsFoundOf, found_by};

use crate::asked::{AskedNode, AskedQuery};
use crate::question::Question;
use jp_columns::ColumnNames;
use jp_nodes::Cursor;
use jp_syntax::Origin;
use std::alloc::{AllocError, Global};

/// From how many columns of one origin on their members are found together.
const MANY: usize = 32;

/// How many queries of an origin begin with a name.
fn count_of(queries: &[AskedQuery], origin: Origin) -> usize {
    queries
        .iter()
        .filter(|query| query.origin == origin && query.first.is_some())
        .count()
}

/// The names that the queries of a table begin with, where many of one origin do.
#[derive(Drop)]
pub(crate) struct FirstNames {
    /// That of each query, and the empty one where a query begins otherwise: what is found for that is not asked.
    pub(crate) names: ColumnNames,
    /// Whether many begin at the root of the line.
    of_root: bool,
    /// Whether many begin at the node that is asked.
    of_current: bool,
}

impl FirstNames {
    /// Those of some queries, where there are many.
    ///
    /// If memory is refused, the answer is `AllocError`.
    pub(crate) fn of(
        alloc: Global,
        queries: &[AskedQuery],
    ) -> Result<Option<FirstNames>, AllocError>
        ensures { IfOk result (λ found. ForSome found (λ first_names. names_of first_names.names ≡ map first_name queries.now)) }
    {
        let of_root = count_of(queries, Origin::Root) >= MANY;
        let of_current = count_of(queries, Origin::Current) >= MANY;
        if !of_root && !of_current {
            return Ok(None);
        }
        let mut names = Vec::new(alloc);
        for query in queries {
            names.push(String::from_str(alloc, query.first_name())?)?;
        }
        Ok(Some(FirstNames {
            names: ColumnNames::new(alloc, names)?,
            of_root,
            of_current,
        }))
    }
}

/// The members of the names that the queries of a table begin with, by where the queries begin: one for each query, or none
/// where they are not found together.
#[derive(Drop)]
pub(crate) struct Members<'r> {
    /// Whether those of the root of the line at hand are found.
    pub(crate) is_root_found: bool,
    pub(crate) of_root: Vec<Option<Cursor<'r>>>,
    pub(crate) of_current: Vec<Option<Cursor<'r>>>,
}

/// Finds the members of a node in place of those that were found before, where that is wanted.
fn find_members<'r>(
    wanted: bool,
    names: &ColumnNames,
    node: Cursor<'r>,
    found: &mut Vec<Option<Cursor<'r>>>,
) -> Result<(), AllocError>
    ensures { OnOk result (AreMembers (names_of names.now) (node_of node.entry) (line_of node.entry) found.new.items) }
{
    if !wanted {
        found.clear();
        return Ok(());
    }
    names.find(node, found)?;
    Ok(())
}

impl<'r> Members<'r> {
    /// With nothing found.
    pub(crate) fn new(alloc: Global) -> Members<'r> {
        Members {
            is_root_found: false,
            of_root: Vec::new(alloc),
            of_current: Vec::new(alloc),
        }
    }

    /// Finds the members of a node, and of the root of its line once in the line, in place of those that were found before.
    ///
    /// If memory is refused, the answer is `AllocError`.
    pub(crate) fn find(
        &mut self,
        question: &Question,
        asked: &AskedNode<'r>,
    ) -> Result<(), AllocError>
        requires node { IsOfItsLine asked.now }
        requires knows { KnowsMembers question.now (text_of_view asked.now.line) self.old }
        ensures found { OnOk result (AreFound (map first_name question.now.queries.items) asked.now self.new) }
        ensures knows { OnOk result (KnowsMembers question.now (text_of_view asked.now.line) self.new) }
    {
        let Some(
            FirstNames {
                names,
                of_root,
                of_current,
            },
        ) = &question.first_names
        else {
            self.of_root.clear();
            self.of_current.clear();
            return Ok(());
        };
        if !self.is_root_found {
            find_members(*of_root, names, asked.line.root(), &mut self.of_root)?;
            self.is_root_found = true;
        }
        find_members(*of_current, names, asked.node, &mut self.of_current)?;
        Ok(())
    }

    /// Those of the queries that begin there.
    fn of(&self, origin: Origin) -> &[Option<Cursor<'r>>]
        ensures { result.now ≡ found_by (origin_view origin) self.now }
    {
        match origin {
            Origin::Root => &self.of_root,
            Origin::Current => &self.of_current,
        }
    }

    /// Where the program of a query begins: at the member of the name that it begins with, if that is there. It may have been
    /// found.
    pub(crate) fn begin(
        &self,
        index: usize,
        query: &AskedQuery,
        asked: &AskedNode<'r>,
    ) -> Option<Cursor<'r>>
        requires node { IsOfItsLine asked.now }
        requires member { IsFoundOf query.now asked.now self.now index }
        ensures nodes { nodes (program_view query.now.program) (node_list result) (asked_tree asked.now) ≡ path_nodes (query_path query.now) (node_of asked.now.node) (asked_tree asked.now) }
        ensures line { IfSome result (λ c. line_of c ≡ text_of_view asked.now.line) }
    {
        match self.of(query.origin).get(index) {
            Some(member) if query.first.is_some() => *member,
            _ => query.begin(asked),
        }
    }
}
