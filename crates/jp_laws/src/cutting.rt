//! Laws of how collections and scripts are cut.

ghost use Rattle.std.specs.Prelude.{◌≡◌, ◌⊎◌, ℕ, List, [], ◌∷◌, ◌++◌, All, IsUtf8, codes, flat_map, drop};
ghost use Rattle.std.specs.List.{join_with_byte};
ghost use Rattle.jp_model.specs.declared.Framing.TheVariants.{Lines as in_lines, Sequence as in_sequence};
ghost use Rattle.jp_model.specs.declared.LineFault.TheVariants.{Truncated};
ghost use Rattle.jp_model.specs.Json.Spelling.{Text};
ghost use Rattle.jp_model.specs.Json.Tree.{Tree};
ghost use Rattle.jp_model.specs.Json.Status.{LineStatus, refused, HasStatus};
ghost use Rattle.jp_model.specs.Lines.{lines, pieces, first_piece, closed_lines, open_line, HasNoSeparator, without_byte_order_mark};
ghost use Rattle.jp_laws.specs.Scripts.{with_line_feeds};

/// Cutting is undone by joining: the pieces of a text, the empty last one included, are the text again with the separator
/// between them, and none of them holds a separator. So the lines that a line feed ends, each with its line feed, and what
/// follows the last one are the text; and so are what comes before the first record separator and the texts of a
/// sequence, each after its record separator (RFC 7464, section 2.1).
pub fn cutting_is_undone_by_joining()
    ensures joined { (separator : ℕ) (text : List ℕ) → join_with_byte separator (pieces separator text) ≡ text }
    ensures clear { (separator : ℕ) (text : List ℕ) → All (HasNoSeparator separator) (pieces separator text) }
    ensures lines { (text : List ℕ) → with_line_feeds (closed_lines text) ++ open_line text ≡ text }
    ensures sequence { (text : List ℕ) → first_piece (pieces 0x1E text) ++ flat_map (λ piece. 0x1E ∷ piece) (drop 1 (pieces 0x1E text)) ≡ text }
{}

/// White space in front of the first record separator of a sequence belongs to no text (RFC 7464, section 2.1).
///
/// That it is a text in front of the others is refused here.
pub fn white_space_before_a_sequence_is_no_text()
    ensures { lines in_sequence (codes " \n" ++ 0x1E ∷ codes "1\n") ≡ codes "1\n" ∷ [] }
{}

/// A byte order mark at the front is all that is dropped of a collection before it is cut (RFC 8259, section 8.1).
pub fn only_a_byte_order_mark_is_dropped()
    ensures { (bytes : List ℕ) → (bytes ≡ without_byte_order_mark bytes) ⊎ (bytes ≡ 0xEF ∷ 0xBB ∷ 0xBF ∷ without_byte_order_mark bytes) }
{}

/// A line is never refused as truncated: that is a fault of texts in a sequence alone (RFC 7464, section 2.4).
pub fn lines_are_never_truncated()
    ensures { (line : List ℕ) → HasStatus in_lines line (refused Truncated) → ⊥ }
{}

/// A line with a line feed after it has in a sequence the status that it has as a line (RFC 7464, section 2.4).
///
/// That a number, `true`, `false` or `null` is truncated in a sequence whatever stands after it is refused here.
pub fn lines_are_texts_of_sequences()
    ensures { (line : List ℕ) (x : LineStatus) → HasStatus in_lines line x → HasStatus in_sequence (line ++ 0x0A ∷ []) x }
{}

/// A line that spells a tree is UTF-8, as RFC 8259, section 8.1, asks of it.
pub fn lines_with_a_tree_are_utf8()
    ensures { (line : List ℕ) (t : Tree) → Text line t → IsUtf8 line }
{}
