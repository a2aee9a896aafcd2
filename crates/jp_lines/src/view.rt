//! A line with its tape.

ghost use Rattle.std.specs.Prelude.{◌≡◌, ◌<◌, Some, length, slice_get};
ghost use Rattle.jp_model.specs.Meaning.Nodes.{root_node, subtree};
ghost use Rattle.jp_nodes.specs.Cursors.{line_of, place_of, node_of};
ghost use Rattle.jp_nodes.specs.Forms.{IsPackedTapeOf};

use jp_nodes::Cursor;

/// A line with its tape.
#[derive(Clone, Copy)]
pub struct LineView<'a> {
    words: &'a [u64],
    line: &'a [u8],
    ghost made: { IsPackedTapeOf words.now line.now },
}

impl<'a> LineView<'a> {
    ghost use Rattle.jp_lines.specs.Views.{text_of_view, tree_of_view};

    /// A line with the words of its tape.
    pub fn new(words: &'a [u64], line: &'a [u8]) -> LineView<'a>
        requires { IsPackedTapeOf words.now line.now }
        ensures { text_of_view result ≡ line.now }
    {
        LineView { words, line }
    }

    /// The root node of the line.
    pub fn root(self) -> Cursor<'a>
        ensures line { line_of result ≡ text_of_view self.entry }
        ensures place { place_of result ≡ 0 }
        ensures node { node_of result ≡ root_node (tree_of_view self.entry) }
    {
        Cursor::of_words(self.words, self.line)
    }

    /// The node at a place that an index gives.
    pub fn at(self, place: u32) -> Cursor<'a>
        requires { place < length (subtree (root_node (tree_of_view self))) }
        ensures line { line_of result ≡ text_of_view self.entry }
        ensures place { place_of result ≡ place }
        ensures node { slice_get (subtree (root_node (tree_of_view self.entry))) place ≡ Some (node_of result) }
    {
        self.root().go_to(place)
    }
}
