//! Laws of the definitions.

ghost use Rattle.std.specs.Prelude.{◌≡◌, ℕ, ◌≤◌, All, List, length, map};
ghost use Rattle.jp_model.specs.declared.Framing.{Framing};
ghost use Rattle.jp_model.specs.Json.Marks.{marks};
ghost use Rattle.jp_model.specs.Json.Places.{bytes_between};
ghost use Rattle.jp_model.specs.Json.Spelling.{Text};
ghost use Rattle.jp_model.specs.Json.Tree.{Tree};
ghost use Rattle.jp_masks.specs.Tokens.{tokens};
ghost use Rattle.jp_masks.specs.Found.{LineAt, all_at, lines_in};

/// The lines that are found are where the lines of the collection are, with the marks of each line alone.
pub fn lines_are_those_of_the_text()
    ensures bytes { (framing : Framing) (text : List ℕ) → map (λ (line : LineAt). bytes_between text line.start line.end) (all_at framing text) ≡ lines_in framing text }
    ensures marks { (framing : Framing) (text : List ℕ) → map (λ (line : LineAt). line.positions) (all_at framing text) ≡ map marks (lines_in framing text) }
    ensures within { (framing : Framing) (text : List ℕ) → All (λ (line : LineAt). (line.start ≤ line.end) × (line.end ≤ length text)) (all_at framing text) }
{}

/// The marks of a JSON text are the first bytes of its tokens and the closing quotes of its strings and names.
pub fn marks_are_tokens()
    ensures { (line : List ℕ) (t : Tree) (text : Text line t) → marks line ≡ tokens line t text.value }
{}
