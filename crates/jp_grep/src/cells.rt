//! The cells of a node, one for each query.

ghost use Rattle.std.specs.Prelude.{◌≡◌, ◌∷◌, ◌++◌, [], List, IfOk, IfSome, OnOk, Some, slice_get, take};
ghost use Rattle.jp_model.specs.Meaning.Selecting.{path_nodes};
ghost use Rattle.jp_nodes.specs.Cursors.{line_of, node_of};
ghost use Rattle.jp_children.specs.Found.{node_list};
ghost use Rattle.jp_lines.specs.Views.{text_of_view};
ghost use Rattle.jp_table.specs.Cells.{Cell};
ghost use Rattle.jp_table.specs.Held.{Holds, row_bytes};
ghost use Rattle.jp_grep.specs.LineAnswers.{Knows};
ghost use Rattle.jp_grep.specs.Asked.{IsOfItsLine, asked_tree, query_path};
ghost use Rattle.jp_grep.specs.Matching.{has_nodes, queries_of, selects};
ghost use Rattle.jp_grep.specs.Members.{IsFoundOf};
ghost use Rattle.jp_grep.specs.Tables.{nodes_cell, table_row};

use crate::answer::Answerer;
use crate::asked::{AskedNode, AskedQuery};
use crate::room::NodeRoom;
use crate::spelling::cell_kind;
use itoa::Buffer;
use jp_form::Table;
use jp_nodes::Cursor;
use jp_table::CellKind;
use std::alloc::AllocError;

impl<'q> Answerer<'q> {
    /// The first node that a query selects. The member of the name that it begins with may have been found.
    fn first_node<'r>(
        self,
        index: usize,
        query: &AskedQuery,
        asked: &AskedNode<'r>,
        room: &mut NodeRoom<'r>,
    ) -> Result<Option<Cursor<'r>>, AllocError>
        requires node { IsOfItsLine asked.now }
        requires member { IsFoundOf query.now asked.now room.old.answers.members index }
        requires query { slice_get self.question.now.queries.items index ≡ Some query.now }
        requires knows { Knows self.question.now (text_of_view asked.now.line) room.old.answers }
        ensures node { IfOk result (λ first. node_list first ≡ take 1 (path_nodes (query_path query.now) (node_of asked.now.node) (asked_tree asked.now))) }
        ensures line { IfOk result (λ first. IfSome first (λ c. line_of c ≡ text_of_view asked.now.line)) }
        ensures members { room.new.answers.members ≡ room.old.answers.members }
        ensures cells { room.new.cells ≡ room.old.cells }
        ensures row { room.new.row ≡ room.old.row }
        ensures knows { OnOk result (Knows self.entry.question.now (text_of_view asked.now.line) room.new.answers) }
    {
        let answer = &room.answers.queries[index];
        if answer.is_found {
            return Ok(answer.first_found());
        }
        let start = room.answers.members.begin(index, query, asked);
        let answer = &mut room.answers.queries[index];
        query.answer_from(self.alloc, start, asked, answer)?;
        Ok(answer.first_found())
    }

    /// Adds the cell of a query to the cells of a node, and tells whether it selects a node.
    fn add_cell<'r>(
        self,
        table: Table,
        index: usize,
        query: &AskedQuery,
        asked: &AskedNode<'r>,
        room: &mut NodeRoom<'r>,
    ) -> Result<bool, AllocError>
        requires node { IsOfItsLine asked.now }
        requires member { IsFoundOf query.now asked.now room.old.answers.members index }
        requires query { slice_get self.question.now.queries.items index ≡ Some query.now }
        requires knows { Knows self.question.now (text_of_view asked.now.line) room.old.answers }
        ensures cell { (cells : List Cell) → Holds table room.old.cells cells → OnOk result (Holds table room.new.cells
            (cells ++ nodes_cell table (text_of_view asked.now.line) (path_nodes (query_path query.now) (node_of asked.now.node) (asked_tree asked.now)) ∷ [])) }
        ensures some { IfOk result (λ some. some ≡ has_nodes (path_nodes (query_path query.now) (node_of asked.now.node) (asked_tree asked.now))) }
        ensures members { room.new.answers.members ≡ room.old.answers.members }
        ensures row { room.new.row ≡ room.old.row }
        ensures knows { OnOk result (Knows self.entry.question.now (text_of_view asked.now.line) room.new.answers) }
    {
        let Some(node) = self.first_node(index, query, asked, room)? else {
            room.cells.add(table, CellKind::Nothing, &[])?;
            return Ok(false);
        };
        let text = room.speller.cell_text(table, node, &mut room.cell)?;
        room.cells.add(table, cell_kind(node.kind()), text)?;
        Ok(true)
    }

    /// Makes the cells of a node, and tells whether a query selects a node.
    pub(crate) fn make_cells<'r>(
        self,
        table: Table,
        number: u64,
        asked: &AskedNode<'r>,
        room: &mut NodeRoom<'r>,
    ) -> Result<bool, AllocError>
        requires node { IsOfItsLine asked.now }
        requires knows { Knows self.question.now (text_of_view asked.now.line) room.old.answers }
        ensures cells { OnOk result (row_bytes room.new.cells ≡ table_row table (queries_of self.entry.question.now) self.entry.form.now number (text_of_view asked.now.line) (asked_tree asked.now) (node_of asked.now.node)) }
        ensures some { IfOk result (λ some. some ≡ selects (queries_of self.entry.question.now) (node_of asked.now.node) (asked_tree asked.now)) }
        ensures row { room.new.row ≡ room.old.row }
        ensures knows { OnOk result (Knows self.entry.question.now (text_of_view asked.now.line) room.new.answers) }
    {
        let mut digits = Buffer::new();
        let digits = digits.format(number).as_bytes();
        room.cells
            .begin(table, self.form, self.form.name.as_bytes(), digits)?;
        room.answers.members.find(self.question, asked)?;
        let mut some = false;
        for (index, query) in self.question.queries.iter().enumerate() {
            some |= self.add_cell(table, index, query, asked, room)?;
        }
        room.cells.end()?;
        Ok(some)
    }
}
