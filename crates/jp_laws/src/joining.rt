//! Laws of what is put together: queries, selectors, collections and sequences answer part by part.

ghost use Rattle.std.specs.Prelude.{◌≡◌, ℕ, List, [], ◌∷◌, ◌++◌, length, map};
ghost use Rattle.jp_model.specs.Json.Spelling.{Text};
ghost use Rattle.jp_model.specs.Json.Status.{LineStatus};
ghost use Rattle.jp_model.specs.Json.Tree.{Tree};
ghost use Rattle.jp_model.specs.Lines.{sequence_texts};
ghost use Rattle.jp_model.specs.Meaning.Nodes.{Node, root_node, subtree};
ghost use Rattle.jp_model.specs.Meaning.Selecting.{nodes};
ghost use Rattle.jp_model.specs.Query.Syntax.{Segments, Selectors};
ghost use Rattle.jp_model.specs.Rows.{rows};
ghost use Rattle.jp_laws.specs.Nodes.{IsWithin};
ghost use Rattle.jp_laws.specs.Queries.{BeginsInTurn, beside, children_by, continued, lines_later};

/// A query that goes on after another selects what the rest selects of the nodes that the first selects, one after another
/// (RFC 9535, section 2.1.2).
///
/// That the nodes of a query are turned round at its end is refused here.
pub fn segments_go_on_from_node_to_node()
    ensures { (a b : Segments) (list : List Node) (t : Tree) → nodes (continued a b) list t ≡ nodes b (nodes a list t) t }
{}

/// `[a,b]` selects of a node what `[a]` selects, and then what `[b]` does, nodes that both select twice (RFC 9535, section
/// 2.5.1.2).
///
/// A union of sets, in which a node that two selectors select comes once, is refused here.
pub fn selectors_are_asked_in_turn()
    ensures { (a b : Selectors) (n : Node) (t : Tree) → nodes (children_by (beside a b)) (n ∷ []) t ≡ nodes (children_by a) (n ∷ []) t ++ nodes (children_by b) (n ∷ []) t }
{}

/// A node and its descendants come in the order in which they begin in the line: parents before their children, and each child
/// with all below it before the next (RFC 9535, section 2.5.2.2).
///
/// That the last child comes first, with all below it, is refused here.
pub fn descendants_begin_in_turn()
    ensures { (line : List ℕ) (t : Tree) (n : Node) → Text line t → IsWithin (root_node t) n → BeginsInTurn (subtree n) }
{}

/// The rows of lines that are joined are the rows of the first and then those of the second, whose numbers go on.
///
/// That each row has the number of the first line is refused here.
pub fn rows_of_joined_lines_go_on()
    ensures { (q : Segments) (a b : List LineStatus) → rows q (a ++ b) ≡ rows q a ++ map (lines_later (length a)) (rows q b) }
{}

/// The texts of a sequence to which one that begins with a record separator is joined are the texts of both (RFC 7464, section
/// 2.1).
///
/// That a sequence ends with its first empty text is refused here.
pub fn texts_of_joined_sequences_go_on()
    ensures { (a b : List ℕ) → sequence_texts (a ++ 0x1E ∷ b) ≡ sequence_texts a ++ sequence_texts (0x1E ∷ b) }
{}
