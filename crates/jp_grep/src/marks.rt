//! The nodes of the queries, coloured in a selected line.

ghost use Rattle.std.specs.Prelude.{◌≡◌, ◌++◌, map, OnOk};
ghost use Rattle.jp_model.specs.Json.Tree.{span};
ghost use Rattle.jp_model.specs.Meaning.Nodes.{Node};
ghost use Rattle.jp_nodes.specs.Cursors.{node_of};
ghost use Rattle.jp_lines.specs.Views.{text_of_view};
ghost use Rattle.jp_grep.specs.LineAnswers.{Knows};
ghost use Rattle.jp_grep.specs.Asked.{IsOfItsLine, asked_tree};
ghost use Rattle.jp_grep.specs.Rows.{marks_of, whole_marked};

use crate::answer::Answerer;
use crate::asked::AskedNode;
use crate::room::NodeRoom;
use crate::spelling::append_printed;
use jp_form::Units;
use jp_model::{Framing, Span};
use jp_nodes::Cursor;
use jp_paint::push_marked;
use std::alloc::AllocError;

/// Appends where some nodes stand.
fn push_spans(nodes: &[Cursor<'_>], spans: &mut Vec<Span>) -> Result<(), AllocError>
    ensures { OnOk result (spans.new.items ≡ spans.old.items ++ map (λ (found : Node). span found.tree) (map node_of nodes.now)) }
{
    for node in nodes {
        spans.push(node.span())?;
    }
    Ok(())
}

impl<'q> Answerer<'q> {
    /// Lists where the nodes stand that the queries select.
    fn list_marks<'r>(
        self,
        asked: &AskedNode<'r>,
        room: &mut NodeRoom<'r>,
    ) -> Result<(), AllocError>
        requires node { IsOfItsLine asked.now }
        requires knows { Knows self.question.now (text_of_view asked.now.line) room.old.answers }
        ensures marks { OnOk result (room.new.marks.items ≡ marks_of self.entry.question.now (asked_tree asked.now) (node_of asked.now.node)) }
        ensures row { room.new.row ≡ room.old.row }
        ensures knows { OnOk result (Knows self.entry.question.now (text_of_view asked.now.line) room.new.answers) }
    {
        room.marks.clear();
        for (index, query) in self.question.queries.iter().enumerate() {
            let answer = &mut room.answers.queries[index];
            query.find(self.alloc, asked, answer)?;
            push_spans(answer.frame.found(), &mut room.marks)?;
        }
        Ok(())
    }

    /// Appends a line as it is printed, the nodes of the queries coloured.
    pub(crate) fn append_marked<'r>(
        self,
        asked: &AskedNode<'r>,
        text: &'r [u8],
        room: &mut NodeRoom<'r>,
    ) -> Result<(), AllocError>
        requires node { IsOfItsLine asked.now }
        requires text { text_of_view asked.now.line ≡ text.now }
        requires knows { Knows self.question.now (text_of_view asked.now.line) room.old.answers }
        ensures marked { OnOk result (room.new.row.items ≡ room.old.row.items ++ whole_marked self.entry.form.now.units (marks_of self.entry.question.now (asked_tree asked.now) (node_of asked.now.node)) text.now (asked_tree asked.now)) }
        ensures knows { OnOk result (Knows self.entry.question.now (text_of_view asked.now.line) room.new.answers) }
    {
        self.list_marks(asked, room)?;
        let root = asked.line.root();
        match self.form.units {
            Units::Lines(Framing::Lines) => {
                let whole = Span {
                    start: 0,
                    end: text.len() as u32,
                };
                push_marked(text, whole, &mut room.marks, &mut room.row)
            }
            Units::Lines(Framing::Sequence) => {
                push_marked(text, root.span(), &mut room.marks, &mut room.row)
            }
            Units::Pieces(_) => {
                room.cell.clear();
                push_marked(text, root.span(), &mut room.marks, &mut room.cell)?;
                append_printed(self.form.units, &room.cell, &mut room.row)
            }
        }
    }
}
