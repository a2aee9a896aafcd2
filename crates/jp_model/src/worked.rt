//! Worked examples of the smaller definitions. What a script writes over a collection, from bytes to bytes, is computed in
//! `test_definitions`, where the texts of queries are read.

ghost use Rattle.std.specs.Prelude.{◌≡◌, [], ◌∷◌, ◌++◌, pos, Some, None, true, false, take, codes};
ghost use Rattle.std.specs.declared.cmp.Ordering.TheVariants.{Equal};
ghost use Rattle.jp_model.specs.declared.LineFault.TheVariants.{Utf8, Grammar, Truncated, Surrogate, Number, Duplicate};
ghost use Rattle.jp_devices.specs.Devices.{Begins};
ghost use Rattle.jp_model.specs.Json.Marks.{marks};
ghost use Rattle.jp_model.specs.Json.Numbers.{numeral_of, is_long_exponent, mantissa, scale, number_equal, number_order};
ghost use Rattle.jp_model.specs.Json.Reader.{is_numeral, body_at, spanned, tree_of, status_of};
ghost use Rattle.jp_model.specs.Json.Spelling.{Text};
ghost use Rattle.jp_model.specs.Json.Status.{blank, refused, parsed};
ghost use Rattle.jp_model.specs.Json.Strings.{has_lone_surrogate};
ghost use Rattle.jp_model.specs.Json.Tree.{number, string, boolean, container, array, object, no_child, child};
ghost use Rattle.jp_model.specs.Lines.{lines, is_framed};
ghost use Rattle.jp_model.specs.Meaning.Compare.{text_less};
ghost use Rattle.jp_model.specs.Pattern.Reading.{pattern_of};
ghost use Rattle.jp_model.specs.Pattern.Tree.{range, members, one_of, empty, followed_by, never, either_of};
ghost use Rattle.jp_model.specs.Query.Spelling.{SpellsQuery};
ghost use Rattle.jp_model.specs.Query.Syntax.{Segments, equal, greater, root, current, null_literal, number_literal, no_segments, descendant_segment, name_selector, wildcard_selector, selector, negated, compare, exists, constant, single, nodes_argument, path};
ghost use Rattle.jp_model.specs.Script.Commands.{command_lines, closed_command_lines};
ghost use Rattle.jp_model.specs.Worked.{minus, one, just, key, slice, filtered, here, all_here, member_of, both, answer_of, one_argument, matches};
ghost use Rattle.jp_model.specs.declared.Framing.TheVariants as framings;

/// The status of small lines, by the order of the faults.
pub fn worked_statuses()
    ensures an_object { status_of framings.Lines (codes "{\"a\":1}")
        ≡ parsed
        (spanned 0 7 (container object (child (Some (record { body = record { start = 2; end = 3 }; points = codes "a" })) (spanned 5 6 (number (pos 1) (pos 0))) no_child))) }
    ensures a_word_behind_a_blank { status_of framings.Lines (codes " true") ≡ parsed (spanned 1 5 (boolean true)) }
    ensures an_escaped_pair { status_of framings.Lines (codes " [\"\\uD834\\udd1e\\n\"]")
        ≡ parsed (spanned 1 19 (container array (child None (spanned 2 18 (string (0x1D11E ∷ 0x0A ∷ []))) no_child))) }
    ensures white_space { status_of framings.Lines (codes " \t ") ≡ blank }
    ensures no_utf8 { status_of framings.Lines (codes "\"" ++ 0xFF ∷ codes "\"") ≡ refused Utf8 }
    ensures a_last_comma { status_of framings.Lines (codes "[1,]") ≡ refused Grammar }
    ensures a_leading_zero { status_of framings.Lines (codes "01") ≡ refused Grammar }
    ensures a_byte_order_mark { status_of framings.Lines (0xEF ∷ 0xBB ∷ 0xBF ∷ codes "1") ≡ refused Grammar }
    ensures half_a_pair { status_of framings.Lines (codes "[\"\\ud800\"]") ≡ refused Surrogate }
    ensures a_long_exponent { status_of framings.Lines (codes "1e1234567890123456") ≡ refused Number }
    ensures a_long_exponent_of_zero { status_of framings.Lines (codes "0e1000000000000000") ≡ refused Number }
    ensures equal_names { status_of framings.Lines (codes "{\"a\":1,\"\\u0061\":2}") ≡ refused Duplicate }
    ensures a_cut_number { status_of framings.Sequence (codes " 12") ≡ refused Truncated }
    ensures grammar_before_the_cut { status_of framings.Sequence (codes "12x") ≡ refused Grammar }
    ensures a_word_with_its_end { status_of framings.Sequence (codes "true\n") ≡ parsed (spanned 0 4 (boolean true)) }
    ensures brackets_show_their_end { status_of framings.Sequence (codes "[]") ≡ parsed (spanned 0 2 (container array no_child)) }
{}

/// A line that spells its tree, by the grammar (RFC 8259).
pub fn worked_texts()
    ensures an_object { Text (codes "{\"a\":1}")
        (spanned 0 7 (container object (child (Some (record { body = record { start = 2; end = 3 }; points = codes "a" })) (spanned 5 6 (number (pos 1) (pos 0))) no_child))) }
    ensures the_reader_finds_it { tree_of (codes "{\"a\":1}")
        ≡ Some
        (spanned 0 7 (container object (child (Some (record { body = record { start = 2; end = 3 }; points = codes "a" })) (spanned 5 6 (number (pos 1) (pos 0))) no_child))) }
{}

/// Texts that spell their queries, by the grammar (RFC 9535, appendix A).
pub fn worked_queries()
    ensures the_root { SpellsQuery (codes "$") no_segments }
    ensures a_filter { SpellsQuery (codes "$[?@.a==null]") (filtered (compare (single (member_of current (codes "a"))) equal (constant null_literal))) }
    ensures an_escaped_single_quote { SpellsQuery (codes "$['\\'']") (key (codes "'") no_segments) }
    ensures an_escaped_double_quote { SpellsQuery (codes "$[\"\\\"\"]") (key (codes "\"") no_segments) }
    ensures the_other_quote { SpellsQuery (codes "$[\"'\"]") (key (codes "'") no_segments) }
    ensures a_slice_with_blanks { SpellsQuery (codes "$[1 : 2 : -1]") (slice (Some (pos 1)) (Some (pos 2)) (Some (minus 1))) }
    ensures a_surrogate_pair { SpellsQuery (codes "$['\\ud83d\\ude00']") (key (0x1F600 ∷ []) no_segments) }
    ensures a_call { SpellsQuery (codes "$[?count( @.* )>1e2]")
        (filtered (compare (answer_of (one_argument (codes "count") (nodes_argument all_here))) greater (constant (number_literal (codes "1e2"))))) }
    ensures a_negated_group { SpellsQuery (codes "$ .a[?!(@ && $)]")
        (key (codes "a") (filtered (negated (both (exists here) (exists (path root no_segments)))))) }
    ensures descendants_and_two_selectors { SpellsQuery (codes "$..['a' , *]")
        (one (descendant_segment (selector (name_selector (codes "a")) (just wildcard_selector)))) }
    ensures no_blank_at_the_end { (q : Segments) → SpellsQuery (codes "$ ") q → ⊥ }
{}

/// Texts of a sequence, and bytes before the first (RFC 7464).
pub fn worked_framings()
    ensures two_separators_are_no_text { lines framings.Sequence (0x1E ∷ 0x1E ∷ []) ≡ [] }
    ensures bytes_before_the_first_separator { is_framed framings.Sequence (codes "x" ++ 0x1E ∷ codes "1\n") ≡ false }
    ensures white_space_before_the_first_separator { is_framed framings.Sequence (codes " \n" ++ 0x1E ∷ codes "1\n") ≡ true }
{}

/// Command lines of a script that is cut, and the beginning of an output.
pub fn worked_command_lines()
    ensures command_lines_of_a_cut_script { command_lines (codes "query $\nche") ≡ codes "query $" ∷ codes "che" ∷ [] }
    ensures closed_command_lines_of_a_cut_script { closed_command_lines (codes "query $\nche") ≡ codes "query $" ∷ [] }
    ensures closed_command_lines_cut_before_a_line_feed { closed_command_lines (codes "query $.a") ≡ [] }
    ensures one_final_carriage_return { command_lines (codes "check\r\nappend \r\r\n") ≡ codes "check" ∷ codes "append \r" ∷ [] }
    ensures a_cut_row_begins_the_output { Begins (codes "1\t$['a'") (codes "1\t$['a']\t1\n= 1\n") }
    ensures another_row_does_not { Begins (codes "1\t$['b'") (codes "1\t$['a']\t1\n= 1\n") → ⊥ }
    ensures a_script_over_its_limit { closed_command_lines (take 9 (codes "query $.a\n")) ≡ [] }
{}

/// Numbers, their values and their order, and the bodies of strings (RFC 8259, sections 6 and 7).
pub fn worked_numbers_and_strings()
    ensures a_leading_zero { is_numeral (numeral_of (codes "01")) ≡ false }
    ensures an_exponent_of_16_digits { is_long_exponent (numeral_of (codes "1e1000000000000000")) ≡ true }
    ensures leading_zeros_of_an_exponent { is_long_exponent (numeral_of (codes "1e0000000000000000001")) ≡ false }
    ensures its_mantissa { mantissa (numeral_of (codes "1e0000000000000000001")) ≡ pos 1 }
    ensures its_scale { scale (numeral_of (codes "1e0000000000000000001")) ≡ pos 1 }
    ensures its_value { number_equal (pos 1) (pos 1) (pos 10) (pos 0) ≡ true }
    ensures fractions { number_equal (pos 10) (minus 1) (pos 100) (minus 2) ≡ true }
    ensures great_exponents { number_order (pos 1) (pos 999999999999999) (pos 10) (pos 999999999999998) ≡ Equal }
    ensures strings_by_scalars { text_less (0xFFFF ∷ []) (0x10000 ∷ []) ≡ true }
    ensures a_front_is_less { text_less (codes "a") (codes "ab") ≡ true }
    ensures no_escape { body_at (codes "\\x\"") 0 ≡ None }
    ensures half_a_pair { body_at (codes "\\udc00\"") 0 ≡ Some (0xDC00 ∷ [], 6) }
    ensures it_stands_alone { has_lone_surrogate (0xDC00 ∷ []) ≡ true }
    ensures a_pair { body_at (codes "\\ud83d\\ude00\"") 0 ≡ Some (0x1F600 ∷ [], 12) }
{}

/// The marks of a line.
pub fn worked_marks()
    ensures of_an_object { marks (codes "{\"a\":1}") ≡ 0 ∷ 1 ∷ 3 ∷ 4 ∷ 5 ∷ 6 ∷ [] }
    ensures behind_an_escaped_quote { marks (codes "[\\\"a\"]") ≡ 0 ∷ 1 ∷ 4 ∷ [] }
    ensures behind_a_string { marks (codes "\"a\"b") ≡ 0 ∷ 2 ∷ 3 ∷ [] }
    ensures of_nothing { marks [] ≡ [] }
    ensures of_two_words { marks (codes " 12 x") ≡ 1 ∷ 4 ∷ [] }
{}

/// Patterns, and texts that they match (RFC 9485).
pub fn worked_patterns()
    ensures a_bar { pattern_of (codes "a|")
        ≡ Some (either_of (followed_by (one_of (members false (range 0x61 0x61 ∷ []))) empty) (either_of empty never)) }
    ensures no_class_escape { pattern_of (codes "\\d") ≡ None }
    ensures no_double_quantifier { pattern_of (codes "a**") ≡ None }
    ensures no_group_options { pattern_of (codes "(?:a)") ≡ None }
    ensures no_open_brace { pattern_of (codes "{") ≡ None }
    ensures no_bracket { pattern_of (codes "]") ≡ None }
    ensures no_empty_class { pattern_of (codes "[]") ≡ None }
    ensures no_surrogates { pattern_of (codes "\\p{Cs}") ≡ None }
    ensures no_other_case { pattern_of (codes "\\p{l}") ≡ None }
    ensures no_count_backward { pattern_of (codes "x{2,1}") ≡ None }
    ensures no_large_count { pattern_of (codes "x{1000000000}") ≡ None }
    ensures a_caret { matches (codes "[^]") (codes "^") ≡ true }
    ensures not_a_caret { matches (codes "[^^]") (codes "^") ≡ false }
    ensures a_negated_range { matches (codes "[^a-c]") (codes "d") ≡ true }
    ensures a_last_hyphen { matches (codes "[a-]") (codes "-") ≡ true }
    ensures a_first_hyphen { matches (codes "[-a]") (codes "-") ≡ true }
    ensures an_empty_branch { matches (codes "a|") [] ≡ true }
    ensures zeros_of_a_count { matches (codes "x{0000000000001}") (codes "x") ≡ true }
    ensures counts_of_counts { matches (codes "(a{0,999999999}){999999999}") (codes "aaa") ≡ true }
    ensures pairs { matches (codes "(a{2}){2,999999999}") (codes "aaaa") ≡ true }
    ensures no_pairs { matches (codes "(a{2}){2,999999999}") (codes "aaaaa") ≡ false }
    ensures a_dot_is_no_carriage_return { matches (codes ".") (0x0D ∷ []) ≡ false }
{}
