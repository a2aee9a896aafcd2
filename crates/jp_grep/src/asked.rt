//! A node that is asked, and what a query selects from it.

ghost use Rattle.std.specs.Prelude.{◌≡◌, ◌∷◌, [], drop, map, IfOk, IfSome, OnOk, Some};
ghost use Rattle.std.specs.Str.{chars};
ghost use Rattle.jp_children.specs.Found.{AreOf, node_list};
ghost use Rattle.jp_columns.specs.Names.{text_of};
ghost use Rattle.jp_eval.specs.Compiled.{program_view};
ghost use Rattle.jp_eval.specs.Found.{found_in};
ghost use Rattle.jp_eval.specs.Remembers.{Remembers};
ghost use Rattle.jp_lines.specs.Views.{text_of_view, tree_of_view};
ghost use Rattle.jp_model.specs.Meaning.Selecting.{nodes, path_nodes, start};
ghost use Rattle.jp_model.specs.Query.Syntax.{child_segment, name_selector, no_selectors, path, selector};
ghost use Rattle.jp_nodes.specs.Cursors.{line_of, node_of};
ghost use Rattle.jp_syntax.specs.View.{origin_view, segment_view, segments_view};
ghost use Rattle.jp_types.specs.Checks.{checked_view};
ghost use Rattle.jp_grep.specs.Asked.{IsOfItsLine, after_name, asked_tree, first_name, query_path};
ghost use Rattle.jp_grep.specs.LineAnswers.{KnowsQuery};
ghost use Rattle.jp_grep.specs.Matching.{has_nodes};

use crate::line_answers::LineAnswer;
use jp_children::find_member;
use jp_eval::{Frame, Program};
use jp_lines::LineView;
use jp_nodes::Cursor;
use jp_syntax::{Origin, Segment, Selector, singular_selector};
use jp_types::Checked;
use std::alloc::{AllocError, Global};

/// A node of a line that is asked: `@` is the node, and `$` the value of the line (RFC 9535, section 2.3.5.1).
#[derive(Clone, Copy)]
pub(crate) struct AskedNode<'r> {
    pub(crate) line: LineView<'r>,
    pub(crate) node: Cursor<'r>,
}

impl<'r> AskedNode<'r> {
    /// Where a query begins.
    #[inline(always)]
    fn start(&self, origin: Origin) -> Cursor<'r>
        requires { IsOfItsLine self.now }
        ensures node { node_of result ∷ [] ≡ start (origin_view origin) (node_of self.now.node) (asked_tree self.now) }
        ensures line { line_of result ≡ text_of_view self.now.line }
    {
        match origin {
            Origin::Root => self.line.root(),
            Origin::Current => self.node,
        }
    }
}

/// A query that is asked, and where it begins.
#[derive(Drop)]
pub(crate) struct AskedQuery {
    pub(crate) origin: Origin,
    /// The name that it begins with, where it is a column that begins with one.
    pub(crate) first: Option<String>,
    /// The query, or what comes after that name.
    pub(crate) program: Program,
}

/// The name of the member that a segment selects, where it selects one by its name alone.
fn name_of(segment: &Segment) -> Option<&String>
    ensures { IfSome result (λ name. segment_view segment.now ≡ child_segment (selector (name_selector (text_of name.now)) no_selectors)) }
{
    match singular_selector(segment)? {
        Selector::Name(name) => Some(name),
        _ => None,
    }
}

/// The name that segments begin with.
fn first_name(segments: &[Segment]) -> Option<&String>
    ensures { IfSome result (λ name. segments_view segments.now ≡ after_name (Some name.now) (segments_view (drop 1 segments.now))) }
{
    name_of(segments.first()?)
}

impl AskedQuery {
    /// The query of these segments, from there on.
    pub(crate) fn compile(
        alloc: Global,
        origin: Origin,
        query: &Checked,
    ) -> Result<AskedQuery, AllocError>
        ensures { IfOk result (λ asked. query_path asked ≡ path (origin_view origin) (checked_view query.now)) }
    {
        let program = Program::compile(alloc, query.segments())?;
        Ok(AskedQuery {
            origin,
            first: None,
            program,
        })
    }

    /// The same as a column of a table.
    pub(crate) fn compile_column(
        alloc: Global,
        origin: Origin,
        query: &Checked,
    ) -> Result<AskedQuery, AllocError>
        ensures { IfOk result (λ asked. query_path asked ≡ path (origin_view origin) (checked_view query.now)) }
    {
        let segments = query.segments();
        let Some(name) = first_name(segments) else {
            return AskedQuery::compile(alloc, origin, query);
        };
        let first = String::from_str(alloc, name)?;
        let program = Program::compile(alloc, &segments[1..])?;
        Ok(AskedQuery {
            origin,
            first: Some(first),
            program,
        })
    }

    /// The name that it begins with, and the empty one where it begins otherwise.
    pub(crate) fn first_name(&self) -> &str
        ensures { chars result.now ≡ first_name self.now }
    {
        match &self.first {
            Some(name) => name,
            None => "",
        }
    }

    /// Where its program begins: at the member of the name that it begins with, if that is there.
    #[inline(always)]
    pub(crate) fn begin<'a>(&self, asked: &AskedNode<'a>) -> Option<Cursor<'a>>
        requires { IsOfItsLine asked.now }
        ensures nodes { nodes (program_view self.now.program) (node_list result) (asked_tree asked.now) ≡ path_nodes (query_path self.now) (node_of asked.now.node) (asked_tree asked.now) }
        ensures line { IfSome result (λ c. line_of c ≡ text_of_view asked.now.line) }
    {
        let start = asked.start(self.origin);
        match &self.first {
            Some(name) => find_member(start, name, false),
            None => Some(start),
        }
    }

    /// Finds the nodes that it selects. The frame has them then. What it asks of the root of the line is asked once.
    pub(crate) fn find_again<'a>(
        &self,
        alloc: Global,
        asked: &AskedNode<'a>,
        frame: &mut Frame<'a>,
    ) -> Result<(), AllocError>
        requires node { IsOfItsLine asked.now }
        requires remembers { Remembers self.now.program (text_of_view asked.now.line) frame.old }
        ensures nodes { OnOk result (map node_of (found_in frame.new) ≡ path_nodes (query_path self.now) (node_of asked.now.node) (asked_tree asked.now)) }
        ensures lines { AreOf (text_of_view asked.now.line) (found_in frame.new) }
        ensures remembers { OnOk result (Remembers self.now.program (text_of_view asked.now.line) frame.new) }
    {
        let start = self.begin(asked);
        self.find_from(alloc, start, asked, frame)
    }

    /// Finds the nodes that it selects, where its program begins at a node, or at none.
    pub(crate) fn find_from<'a>(
        &self,
        alloc: Global,
        start: Option<Cursor<'a>>,
        asked: &AskedNode<'a>,
        frame: &mut Frame<'a>,
    ) -> Result<(), AllocError>
        requires node { IsOfItsLine asked.now }
        requires start { nodes (program_view self.now.program) (node_list start) (asked_tree asked.now) ≡ path_nodes (query_path self.now) (node_of asked.now.node) (asked_tree asked.now) }
        requires line { IfSome start (λ c. line_of c ≡ text_of_view asked.now.line) }
        requires remembers { Remembers self.now.program (text_of_view asked.now.line) frame.old }
        ensures nodes { OnOk result (map node_of (found_in frame.new) ≡ path_nodes (query_path self.now) (node_of asked.now.node) (asked_tree asked.now)) }
        ensures lines { AreOf (text_of_view asked.now.line) (found_in frame.new) }
        ensures remembers { OnOk result (Remembers self.now.program (text_of_view asked.now.line) frame.new) }
    {
        match start {
            Some(start) => self
                .program
                .run_again(alloc, start, asked.line.root(), frame),
            None => {
                frame.forget();
                Ok(())
            }
        }
    }

    /// Finds the nodes that it selects, where its program begins at a node, or at none. The frame of the answer has them then.
    pub(crate) fn answer_from<'a>(
        &self,
        alloc: Global,
        start: Option<Cursor<'a>>,
        asked: &AskedNode<'a>,
        answer: &mut LineAnswer<'a>,
    ) -> Result<(), AllocError>
        requires node { IsOfItsLine asked.now }
        requires start { nodes (program_view self.now.program) (node_list start) (asked_tree asked.now) ≡ path_nodes (query_path self.now) (node_of asked.now.node) (asked_tree asked.now) }
        requires line { IfSome start (λ c. line_of c ≡ text_of_view asked.now.line) }
        requires knows { KnowsQuery (text_of_view asked.now.line) self.now answer.old }
        ensures nodes { OnOk result (map node_of (found_in answer.new.frame) ≡ path_nodes (query_path self.now) (node_of asked.now.node) (asked_tree asked.now)) }
        ensures lines { OnOk result (AreOf (text_of_view asked.now.line) (found_in answer.new.frame)) }
        ensures knows { OnOk result (KnowsQuery (text_of_view asked.now.line) self.now answer.new) }
    {
        self.find_from(alloc, start, asked, &mut answer.frame)?;
        answer.is_found = self.origin == Origin::Root;
        Ok(())
    }

    /// Finds the nodes that it selects, and tells whether there is one. The frame of the answer has them then. One that begins at
    /// the root of the line is asked once in the line.
    pub(crate) fn find<'a>(
        &self,
        alloc: Global,
        asked: &AskedNode<'a>,
        answer: &mut LineAnswer<'a>,
    ) -> Result<bool, AllocError>
        requires node { IsOfItsLine asked.now }
        requires knows { KnowsQuery (text_of_view asked.now.line) self.now answer.old }
        ensures some { IfOk result (λ some. some ≡ has_nodes (path_nodes (query_path self.now) (node_of asked.now.node) (asked_tree asked.now))) }
        ensures nodes { OnOk result (map node_of (found_in answer.new.frame) ≡ path_nodes (query_path self.now) (node_of asked.now.node) (asked_tree asked.now)) }
        ensures lines { OnOk result (AreOf (text_of_view asked.now.line) (found_in answer.new.frame)) }
        ensures knows { OnOk result (KnowsQuery (text_of_view asked.now.line) self.now answer.new) }
    {
        if !answer.is_found {
            let start = self.begin(asked);
            self.answer_from(alloc, start, asked, answer)?;
        }
        Ok(!answer.frame.found().is_empty())
    }

    /// Whether it selects a node. It stops at the first. One that begins at the root of the line is asked once in the line.
    #[inline(always)]
    pub(crate) fn selects<'a>(
        &self,
        alloc: Global,
        asked: &AskedNode<'a>,
        answer: &mut LineAnswer<'a>,
    ) -> Result<bool, AllocError>
        requires node { IsOfItsLine asked.now }
        requires knows { KnowsQuery (text_of_view asked.now.line) self.now answer.old }
        ensures some { IfOk result (λ some. some ≡ has_nodes (path_nodes (query_path self.now) (node_of asked.now.node) (asked_tree asked.now))) }
        ensures knows { OnOk result (KnowsQuery (text_of_view asked.now.line) self.now answer.new) }
    {
        if let Some(some) = answer.known {
            return Ok(some);
        }
        let Some(start) = self.begin(asked) else {
            return Ok(false);
        };
        answer.is_found = false;
        let (root, frame) = (asked.line.root(), &mut answer.frame);
        let some = self.program.selects_again(alloc, start, root, frame)?;
        if self.origin == Origin::Root {
            answer.known = Some(some);
        }
        Ok(some)
    }
}
