//! Laws of rows: a node's row can be read apart, and its bytes are a JSON text of the node.

ghost use Rattle.std.specs.Prelude.{◌≡◌, ℕ, ◌+◌, ◌-◌, List, [], ◌∷◌, ◌++◌, decimal};
ghost use Rattle.jp_model.specs.declared.Framing.{Framing};
ghost use Rattle.jp_model.specs.declared.Framing.TheVariants.{Lines as in_lines, Sequence as in_sequence};
ghost use Rattle.jp_model.specs.declared.Span.{Span};
ghost use Rattle.jp_model.specs.Json.Spelling.{Spells, Text};
ghost use Rattle.jp_model.specs.Json.Tree.{Tree, node, container, Container, Children, span};
ghost use Rattle.jp_model.specs.Lines.{pieces, HasNoSeparator};
ghost use Rattle.jp_model.specs.Meaning.Nodes.{Node, root_node};
ghost use Rattle.jp_model.specs.Meaning.Paths.{path_text};
ghost use Rattle.jp_model.specs.Rows.{row_start, line_feed, tab, source, node_text};
ghost use Rattle.jp_laws.specs.Nodes.{IsWithin};
ghost use Rattle.jp_laws.specs.Spans.{earlier, StandInOrder};

/// The fields of a node's row can be told apart: its first two tabs part them. In `Lines` its one line feed ends it, and in a
/// sequence its one record separator begins it, where the line itself holds none, as no line does.
pub fn rows_can_be_read_apart()
    ensures fields { (f : Framing) (number : ℕ) (line : List ℕ) (n : Node)
        → pieces 0x09 (node_text f number line n) ≡ (row_start f ++ decimal number) ∷ path_text n.location ∷ pieces 0x09 (source line n.tree ++ line_feed) }
    ensures lines { (number : ℕ) (line : List ℕ) (n : Node) → HasNoSeparator 0x0A line
        → pieces 0x0A (node_text in_lines number line n) ≡ (decimal number ++ tab ++ path_text n.location ++ tab ++ source line n.tree) ∷ [] ∷ [] }
    ensures sequence { (number : ℕ) (line : List ℕ) (n : Node) → HasNoSeparator 0x1E line
        → pieces 0x1E (node_text in_sequence number line n) ≡ [] ∷ (decimal number ++ tab ++ path_text n.location ++ tab ++ source line n.tree ++ line_feed) ∷ [] }
{}

/// The bytes of a row are a JSON text that spells the node's tree, as many bytes earlier as the node follows the front of
/// its line.
pub fn the_bytes_of_a_row_spell_its_node()
    ensures { (line : List ℕ) (t : Tree) (n : Node) → Text line t → IsWithin (root_node t) n → Text (source line n.tree) (earlier (span n.tree).start n.tree) }
{}

/// The spans of children lie between the brackets of their parent, in order and apart.
pub fn children_stand_in_order()
    ensures { (line : List ℕ) (t : Tree) (n : Node) (s : Span) (kind : Container) (cs : Children) → Text line t → IsWithin (root_node t) n → n.tree ≡ node s (container kind cs)
        → StandInOrder (s.start + 1) (s.end - 1) cs }
{}
