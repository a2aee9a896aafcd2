//! Worked examples of the cut: streams and their pieces, for each kind of text.
#![tactic(auto, unfolding(crate::specs::Cuts::cut_of, crate::specs::Cuts::take_in, crate::specs::Machine::step))]

ghost use Rattle.std.specs.Prelude.{◌≡◌, [], ◌∷◌, ◌++◌, codes, true, false};
ghost use Rattle.jp_cut.specs.Cuts.{cut_of, pieces_of};
ghost use Rattle.jp_cut.specs.Worked.{closed, unclosed, bytes_and_ends};
ghost use Rattle.jp_cut.specs.declared.machine.Pieces.TheVariants as pieces;

/// JSON texts with white space between them (RFC 8259, section 2).
pub fn worked_texts()
    ensures texts_over_lines { bytes_and_ends (pieces_of pieces.Texts (codes "{\n\"a\": 1}\n[2]\r\n"))
        ≡ closed (codes "{\n\"a\": 1}") ∷ closed (codes "[2]") ∷ [] }
    ensures no_white_space_between { bytes_and_ends (pieces_of pieces.Texts (codes "{}[]\"a\"1{}"))
        ≡ closed (codes "{}") ∷ closed (codes "[]") ∷ closed (codes "\"a\"") ∷ closed (codes "1") ∷ closed (codes "{}") ∷ [] }
    ensures words_end_before_white_space { bytes_and_ends (pieces_of pieces.Texts (codes "1 true\tnull"))
        ≡ closed (codes "1") ∷ closed (codes "true") ∷ closed (codes "null") ∷ [] }
    ensures a_word_with_a_comma { bytes_and_ends (pieces_of pieces.Texts (codes "1,2")) ≡ closed (codes "1,2") ∷ [] }
    ensures a_closing_bracket_alone { bytes_and_ends (pieces_of pieces.Texts (codes "] 1"))
        ≡ closed (codes "]") ∷ closed (codes "1") ∷ [] }
    ensures brackets_in_a_string { bytes_and_ends (pieces_of pieces.Texts (codes "[\"]\"]1"))
        ≡ closed (codes "[\"]\"]") ∷ closed (codes "1") ∷ [] }
    ensures an_escaped_quote { bytes_and_ends (pieces_of pieces.Texts (codes "[\"\\\"]\"]1"))
        ≡ closed (codes "[\"\\\"]\"]") ∷ closed (codes "1") ∷ [] }
    ensures an_escaped_reverse_solidus { bytes_and_ends (pieces_of pieces.Texts (codes "\"\\\\\"1"))
        ≡ closed (codes "\"\\\\\"") ∷ closed (codes "1") ∷ [] }
    ensures brackets_of_the_other_kind { bytes_and_ends (pieces_of pieces.Texts (codes "[}{]"))
        ≡ closed (codes "[}") ∷ closed (codes "{]") ∷ [] }
    ensures an_open_bracket { bytes_and_ends (pieces_of pieces.Texts (codes "{\"a\":1\n{}"))
        ≡ unclosed (codes "{\"a\":1\n{}") ∷ [] }
    ensures an_open_string { bytes_and_ends (pieces_of pieces.Texts (codes "1 \"a"))
        ≡ closed (codes "1") ∷ unclosed (codes "\"a") ∷ [] }
    ensures white_space_alone { pieces_of pieces.Texts (codes " \n\t\r") ≡ [] }
    ensures a_byte_order_mark { bytes_and_ends (pieces_of pieces.Texts (0xEF ∷ 0xBB ∷ 0xBF ∷ codes "1"))
        ≡ closed (codes "1") ∷ [] }
    ensures a_second_byte_order_mark { bytes_and_ends
        (pieces_of pieces.Texts (0xEF ∷ 0xBB ∷ 0xBF ∷ 0xEF ∷ 0xBB ∷ 0xBF ∷ codes "{}"))
        ≡ closed (0xEF ∷ 0xBB ∷ 0xBF ∷ []) ∷ closed (codes "{}") ∷ [] }
    ensures half_a_byte_order_mark { bytes_and_ends (pieces_of pieces.Texts (0xEF ∷ 0xBB ∷ []))
        ≡ closed (0xEF ∷ 0xBB ∷ []) ∷ [] }
    ensures record_separators { bytes_and_ends (pieces_of pieces.Texts (0x1E ∷ codes "{}\n" ++ 0x00 ∷ []))
        ≡ closed (0x1E ∷ []) ∷ closed (codes "{}") ∷ closed (0x00 ∷ []) ∷ [] }
{}

/// The elements of arrays (RFC 8259, section 5).
pub fn worked_elements()
    ensures two { bytes_and_ends (pieces_of pieces.Elements (codes "[1,2]")) ≡ closed (codes "1") ∷ closed (codes "2") ∷ [] }
    ensures white_space_before_an_element { bytes_and_ends (pieces_of pieces.Elements (codes "[\n {},\n [] ]"))
        ≡ closed (codes "{}") ∷ closed (codes "[] ") ∷ [] }
    ensures commas_of_other_arrays { bytes_and_ends (pieces_of pieces.Elements (codes "[[1,2],{\"a\":[3,4]},\",\"]"))
        ≡ closed (codes "[1,2]") ∷ closed (codes "{\"a\":[3,4]}") ∷ closed (codes "\",\"") ∷ [] }
    ensures an_empty_array { pieces_of pieces.Elements (codes "[ ]") ≡ [] }
    ensures two_arrays_and_an_object { bytes_and_ends (pieces_of pieces.Elements (codes "[1][2]{\"a\":[3,4]}"))
        ≡ closed (codes "1") ∷ closed (codes "2") ∷ closed (codes "{\"a\":[3,4]}") ∷ [] }
    ensures a_number_in_front_of_an_array { bytes_and_ends (pieces_of pieces.Elements (codes "1[2]"))
        ≡ closed (codes "1") ∷ closed (codes "2") ∷ [] }
    ensures a_comma_alone { bytes_and_ends (pieces_of pieces.Elements (codes "[,]")) ≡ closed [] ∷ closed [] ∷ [] }
    ensures a_last_comma { bytes_and_ends (pieces_of pieces.Elements (codes "[1, ]")) ≡ closed (codes "1") ∷ closed [] ∷ [] }
    ensures no_end { bytes_and_ends (pieces_of pieces.Elements (codes "[1,2"))
        ≡ closed (codes "1") ∷ unclosed (codes "2") ∷ [] }
    ensures no_end_behind_a_comma { bytes_and_ends (pieces_of pieces.Elements (codes "[1,"))
        ≡ closed (codes "1") ∷ unclosed [] ∷ [] }
    ensures an_open_array_alone { bytes_and_ends (pieces_of pieces.Elements (codes "[")) ≡ unclosed [] ∷ [] }
    ensures a_brace_ends_an_array { bytes_and_ends (pieces_of pieces.Elements (codes "[1}2"))
        ≡ closed (codes "1}") ∷ closed (codes "2") ∷ [] }
    ensures a_brace_alone { bytes_and_ends (pieces_of pieces.Elements (codes "[}")) ≡ closed (codes "}") ∷ [] }
    ensures a_bracket_in_an_object { bytes_and_ends (pieces_of pieces.Elements (codes "[{]]1"))
        ≡ closed (codes "{]") ∷ closed (codes "1") ∷ [] }
    ensures an_open_string { bytes_and_ends (pieces_of pieces.Elements (codes "[1,\"]"))
        ≡ closed (codes "1") ∷ unclosed (codes "\"]") ∷ [] }
{}

/// The line feeds before each piece.
pub fn worked_line_feeds()
    ensures of_texts { pieces_of pieces.Texts (codes "\n{\n}\n1\n")
        ≡ record { bytes = codes "{\n}"; is_closed = true; line_feeds = 1 }
        ∷ record { bytes = codes "1"; is_closed = true; line_feeds = 3 } ∷ [] }
    ensures of_elements { pieces_of pieces.Elements (codes "[\n1\n,\n2]")
        ≡ record { bytes = codes "1\n"; is_closed = true; line_feeds = 1 }
        ∷ record { bytes = codes "2"; is_closed = true; line_feeds = 3 } ∷ [] }
{}

/// What ended, and what is open yet.
pub fn worked_reads()
    ensures a_bracket_ends_with_its_last_byte { bytes_and_ends (cut_of pieces.Texts (codes "[1]")).ended
        ≡ closed (codes "[1]") ∷ [] }
    ensures a_number_ends_with_the_byte_behind_it { bytes_and_ends (cut_of pieces.Texts (codes "12")).ended ≡ [] }
    ensures the_byte_behind_it { bytes_and_ends (cut_of pieces.Texts (codes "12 ")).ended ≡ closed (codes "12") ∷ [] }
    ensures an_element_ends_with_its_comma { bytes_and_ends (cut_of pieces.Elements (codes "[1,")).ended
        ≡ closed (codes "1") ∷ [] }
    ensures it_is_open_before { bytes_and_ends (cut_of pieces.Elements (codes "[[1]")).ended ≡ [] }
{}
