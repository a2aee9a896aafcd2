//! Worked examples: rows of one letter each, of which the capital ones are selected, with a bar for a gap, and what is shown of them.

ghost use Rattle.std.specs.Prelude.{◌≡◌, [], ◌++◌, codes, true, false};
ghost use Rattle.jp_context.specs.Groups.{context_text};
ghost use Rattle.jp_context.specs.Told.{told_rows};
ghost use Rattle.jp_context.specs.Worked.{letters};

/// Rows before and after those that are selected.
pub fn worked_groups()
    ensures after { context_text false 0 1 (told_rows (letters (codes "aBcdEFgh"))) ≡ codes "B\nc\n--\nE\nF\ng\n" }
    ensures before { context_text false 1 0 (told_rows (letters (codes "aBcdEFgh"))) ≡ codes "a\nB\n--\nd\nE\nF\n" }
    ensures groups_that_touch { context_text false 1 1 (told_rows (letters (codes "aBcdE"))) ≡ codes "a\nB\nc\nd\nE\n" }
    ensures groups_that_overlap { context_text false 2 2 (told_rows (letters (codes "aBcdeF"))) ≡ codes "a\nB\nc\nd\ne\nF\n" }
    ensures no_context { context_text false 0 0 (told_rows (letters (codes "AbCDe"))) ≡ codes "A\n--\nC\nD\n" }
    ensures none_selected { context_text false 2 2 (told_rows (letters (codes "abc"))) ≡ [] }
    ensures colours { context_text true 0 0 (told_rows (letters (codes "AbC"))) ≡ codes "A\n" ++ codes "\u{1b}[36m\u{1b}[K--\u{1b}[m\u{1b}[K\n" ++ codes "C\n" }
{}

/// Streams one after another, and a stream of which a line was given up: no row is context of one on the other side of a gap, and
/// two hyphens stand between rows that are.
pub fn worked_gaps()
    ensures streams { context_text false 2 2 (told_rows (letters (codes "|abC|def|G"))) ≡ codes "a\nb\nC\n--\nG\n" }
    ensures streams_that_touch { context_text false 0 0 (told_rows (letters (codes "|A|B"))) ≡ codes "A\n--\nB\n" }
    ensures after { context_text false 0 2 (told_rows (letters (codes "aB|cdEf"))) ≡ codes "B\n--\nE\nf\n" }
    ensures before { context_text false 2 0 (told_rows (letters (codes "Ab|cDe"))) ≡ codes "A\n--\nc\nD\n" }
    ensures many { context_text false 1 1 (told_rows (letters (codes "||A||b||C|"))) ≡ codes "A\n--\nC\n" }
{}
