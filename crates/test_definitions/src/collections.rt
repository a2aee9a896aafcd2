//! Refused lines, plans, edits and framings, from bytes to bytes.
#![tactic(auto, unfolding(crate::specs::Written::written, crate::specs::Written::written_by))]

ghost use Rattle.std.specs.Prelude.{◌≡◌, [], ◌∷◌, ◌++◌, replicate, true, codes};
ghost use Rattle.test_definitions.specs.Written.{written, written_by, nested};
ghost use Rattle.jp_model.specs.declared.Framing.TheVariants as framings;

/// Lines that are refused, each by its first fault.
pub fn refusals()
    ensures equal_names { written (codes "{\"a\":1,\"\\u0061\":2}\n{\"a\":{\"a\":1}}\n") (codes "query $..a\n")
        ≡ codes "1\t!duplicate\n2\t$['a']\t{\"a\":1}\n2\t$['a']['a']\t1\n= 2\n" }
    ensures cut_lines { written (codes "\"abc\n\"def\"\n[\"x") (codes "query $\ncheck\n")
        ≡ codes "1\t!grammar\n2\t$\t\"def\"\n3\t!grammar\n= 1\n1\t!grammar\n3\t!grammar\n= 3 lines, 2 refused, 0 blank\n" }
    ensures five_wrong_texts { written (codes "[\\\"a\"]\n[1\\\"]\n[12x]\n[1,]\n[01]\n") (codes "check\n")
        ≡ codes "1\t!grammar\n2\t!grammar\n3\t!grammar\n4\t!grammar\n5\t!grammar\n= 5 lines, 5 refused, 0 blank\n" }
    ensures an_escaped_quote_ends_no_string { written (codes "[\"xxxxxxxxxxxxxxxxxxxxxxxxxxxxxxxxxxxxxxxxxxxxxxxxxxxxxxxxxxx\\\\\\\\\\\"]\n") (codes "check\n")
        ≡ codes "1\t!grammar\n= 1 lines, 1 refused, 0 blank\n" }
    ensures no_utf8_and_half_a_pair { written (codes "\"" ++ 0xFF ∷ codes "\"\n\"\\ud800\"\n[\"\\ud83d\\ude00\"]\n") (codes "query $[?length(@)==1]\n")
        ≡ codes "1\t!utf8\n2\t!surrogate\n3\t$[0]\t\"\\ud83d\\ude00\"\n= 1\n" }
    ensures exponents_of_15_and_16_digits { written (codes "[1e999999999999999]\n1e1000000000000000") (codes "query $[0]\nquery $[?@==1e1000000000000000]\n")
        ≡ codes "1\t$[0]\t1e999999999999999\n2\t!number\n= 1\nerror: query number\n" }
    ensures depths_of_512_and_513 { written (nested 512 ++ codes "\n" ++ nested 513 ++ codes "\n" ++ replicate 513 0x5B) (codes "check\n")
        ≡ codes "2\t!depth\n3\t!grammar\n= 3 lines, 2 refused, 0 blank\n" }
{}

/// Indexes, and the plans that `explain` shows.
pub fn plans()
    ensures index_of_the_root { written (codes "{\"a\":1}\n") (codes "explain $\nindex $\nindexes\nexplain $\nexplain $..b\n")
        ≡ codes "scan\nopen 1 of 1\nindexed 1\n$\n= 1\nseek $\nopen 1 of 1\nseek $\ndescend-name ['b']\nopen 1 of 1\n" }
    ensures guard_and_scan { written (codes "{\"kind\":\"book\",\"items\":[{\"p\":1},{\"p\":2}]}\n{\"kind\":\"pen\",\"items\":[{\"p\":1}]}\nx\n") (codes "index $.kind\nindexes\nexplain $.items[?$.kind=='book' && @.p>1]\n"
        ++ codes "query $.items[?$.kind=='book' && @.p>1]\ndrop $.kind\nexplain $.items[?$.kind=='book' && @.p>1]\n"
        ++ codes "query $.items[?$.kind=='book' && @.p>1]\n")
        ≡ codes "indexed 2\n$['kind']\n= 1\nguard $['kind'] == 'book'\nwalk ['items']\nchild 1\nopen 1 of 2\n"
        ++ codes "1\t$['items'][1]\t{\"p\":2}\n3\t!grammar\n= 1\ndropped\nscan\nwalk ['items']\nchild 1\nopen 2 of 2\n"
        ++ codes "1\t$['items'][1]\t{\"p\":2}\n3\t!grammar\n= 1\n" }
    ensures seeks { written (codes "{\"a\":{\"b\":[5]}}\n{\"c\":1}\n") (codes "index $.a.b\nexplain $.a.b[0]\nquery $.a.b[0]\nexplain $.a.b[*]..[0,1]\nexplain $..b\nindex $.a.b[-1]\n"
        ++ codes "explain $.a.b[-1]\n")
        ≡ codes "indexed 1\nseek $['a']['b']\nwalk [0]\nopen 1 of 2\n1\t$['a']['b'][0]\t5\n= 1\nseek $['a']['b']\n"
        ++ codes "child 1\ndescend 2\nopen 1 of 2\nscan\ndescend-name ['b']\nopen 2 of 2\nindexed 1\nseek $['a']['b'][-1]\n"
        ++ codes "open 1 of 2\n" }
    ensures what_is_no_guard { written (codes "{\"p\":1}\n{\"r\":2}\n") (codes "index $.p\nquery $[?$.p==$.q]\nquery $[?$.p!=1]\nexplain $[?$.p!=1]\nexplain $[?$.p==1 || @==2]\n")
        ≡ codes "indexed 1\n2\t$['r']\t2\n= 1\n2\t$['r']\t2\n= 1\nscan\nchild 1\nopen 2 of 2\nscan\nchild 1\nopen 2 of 2\n" }
    ensures conjuncts { written (codes "{\"p\":1}\n{\"r\":2}\n") (codes "index $.p\nexplain $[?(@==1 && $.p==1)]\nexplain $[?@==3 && (@==1 && $.p==1)]\n")
        ≡ codes "indexed 1\nguard $['p'] == 1\nchild 1\nopen 1 of 2\nguard $['p'] == 1\nchild 1\nopen 1 of 2\n" }
    ensures literal_on_the_left { written (codes "{\"p\":1}\n{\"r\":2}\n") (codes "index $.p\nexplain $[?2>=$.p]\n")
        ≡ codes "indexed 1\nguard $['p'] <= 2\nchild 1\nopen 1 of 2\n" }
    ensures first_of_two_guards { written (codes "{\"a\":1,\"b\":2}\n{\"a\":1}\n") (codes "index $.b\nexplain $[?$.a==1 && $.b==2]\nquery $[?$.a==1 && $.b==2]\n")
        ≡ codes "indexed 1\nguard $['b'] == 2\nchild 1\nopen 1 of 2\n1\t$['a']\t1\n1\t$['b']\t2\n= 2\n" }
    ensures guard_of_null { written (codes "{\"p\":null}\n{\"r\":2}\n") (codes "index $.p\nexplain $[?$.p==null]\n")
        ≡ codes "indexed 1\nguard $['p'] == null\nchild 1\nopen 1 of 2\n" }
    ensures ranges_of_numbers { written (codes "{\"p\":1}\n{\"p\":\"a\"}\n{\"p\":2}\n{\"p\":null}\n{\"q\":0}\n{\"p\":[1]}\n") (codes "index $.p\nexplain $[?$.p<2]\nexplain $[?1.5<$.p]\nquery $[?$.p>=1]\ndrop $.p\nquery $[?$.p>=1]\n")
        ≡ codes "indexed 5\nguard $['p'] < 2\nchild 1\nopen 1 of 6\nguard $['p'] > 1.5\nchild 1\nopen 1 of 6\n"
        ++ codes "1\t$['p']\t1\n3\t$['p']\t2\n= 2\ndropped\n1\t$['p']\t1\n3\t$['p']\t2\n= 2\n" }
    ensures ranges_of_other_kinds { written (codes "{\"p\":1}\n{\"p\":\"a\"}\n{\"p\":2}\n{\"p\":null}\n{\"q\":0}\n{\"p\":[1]}\n") (codes "index $.p\nexplain $[?$.p<='a']\nexplain $[?$.p<'a']\nexplain $[?$.p>=null]\nexplain $[?$.p<null]\n")
        ≡ codes "indexed 5\nguard $['p'] <= 'a'\nchild 1\nopen 1 of 6\nguard $['p'] < 'a'\nchild 1\nopen 0 of 6\n"
        ++ codes "guard $['p'] >= null\nchild 1\nopen 1 of 6\nguard $['p'] < null\nchild 1\nopen 0 of 6\n" }
    ensures index_errors { written (codes "{}\n") (codes "index $..a\nindex $.a0\nindex $.a1\nindex $.a2\nindex $.a3\nindex $.a4\nindex $.a5\nindex $.a6\n"
        ++ codes "index $.a7\nindex $.a8\nindex $.a9\nindex $.a10\nindex $.a11\nindex $.a12\nindex $.a13\nindex $.a14\n"
        ++ codes "index $.a15\nindex $['a0']\nindex $.a16\ndrop $.b\nfrob\nquery\n")
        ≡ codes "error: index path\nindexed 0\nindexed 0\nindexed 0\nindexed 0\nindexed 0\nindexed 0\nindexed 0\n"
        ++ codes "indexed 0\nindexed 0\nindexed 0\nindexed 0\nindexed 0\nindexed 0\nindexed 0\nindexed 0\nindexed 0\n"
        ++ codes "error: index exists\nerror: index limit\nerror: index missing\nerror: command\nerror: command\n" }
    ensures refused_queries_of_plans { written (codes "{\"a\":1}\n") (codes "explain $[\nindex $[\ndrop $[\n")
        ≡ codes "error: query syntax\nerror: index path\nerror: index path\n" }
{}

/// Edits, and what they refuse.
pub fn edits()
    ensures guards_see_edits { written (codes "{\"kind\":\"book\",\"items\":[{\"p\":1},{\"p\":2}]}\n{\"kind\":\"pen\",\"items\":[{\"p\":1}]}\nx\n") (codes "index $.kind\nreplace 2 {\"kind\":\"book\"}\nappend {\"kind\":\"pen\"}\nexplain $[?$.kind=='book']\n"
        ++ codes "replace 9 1\nreplace 09 1\n")
        ≡ codes "indexed 2\nreplaced 2\nappended 4\nguard $['kind'] == 'book'\nchild 1\nopen 2 of 3\nerror: line\n"
        ++ codes "error: command\n" }
    ensures a_line_that_becomes_wrong { written (codes "{\"kind\":\"book\",\"items\":[{\"p\":1},{\"p\":2}]}\n{\"kind\":\"pen\",\"items\":[{\"p\":1}]}\nx\n") (codes "index $.kind\nreplace 1 x\nexplain $[?$.kind=='book']\nquery $.kind\n")
        ≡ codes "indexed 2\nreplaced 1\nguard $['kind'] == 'book'\nchild 1\nopen 0 of 1\n1\t!grammar\n"
        ++ codes "2\t$['kind']\t\"pen\"\n3\t!grammar\n= 1\n" }
    ensures a_blank_line_that_becomes_a_tree { written (codes "{\"kind\":\"book\",\"items\":[{\"p\":1},{\"p\":2}]}\n{\"kind\":\"pen\",\"items\":[{\"p\":1}]}\nx\n") (codes "index $.kind\nreplace 1 x\nappend \ncheck\nreplace 4 {\"kind\":\"book\"}\nexplain $[?$.kind=='book']\n")
        ≡ codes "indexed 2\nreplaced 1\nappended 4\n1\t!grammar\n3\t!grammar\n= 4 lines, 2 refused, 1 blank\nreplaced 4\n"
        ++ codes "guard $['kind'] == 'book'\nchild 1\nopen 1 of 2\n" }
    ensures malformed_edits { written (codes "{\"kind\":\"book\",\"items\":[{\"p\":1},{\"p\":2}]}\n{\"kind\":\"pen\",\"items\":[{\"p\":1}]}\nx\n") (codes "append\nreplace 1\nreplace 0 1\nreplace 9999999999 1\n")
        ≡ codes "error: command\nerror: command\nerror: command\nerror: line\n" }
    ensures size_of_edits { written_by framings.Lines 8 [] (codes "{\"a\":1}\n") (codes "append 1\nreplace 1 {}\nappend 1\n")
        ≡ codes "error: size\nreplaced 1\nappended 2\n" }
    ensures size_counts_a_line_feed_that_was_not_there { written_by framings.Lines 7 [] (codes "{\"a\":1}") (codes "replace 1 {\"a\":1}\n")
        ≡ codes "error: size\n" }
    ensures want_of_memory { written_by framings.Lines 8 (true ∷ []) (codes "{\"a\":1}\n") (codes "replace 1 {}\nappend 1\n")
        ≡ codes "error: memory\nerror: size\n" }
{}

/// Byte order marks, carriage returns, and text sequences (RFC 7464).
pub fn framings()
    ensures mark_and_carriage_returns { written (0xEF ∷ 0xBB ∷ 0xBF ∷ codes "1\r\n \r\n{\"b\": \"\\u00e9\"}") (codes "query $\nquery $[?@=='" ++ 0xC3 ∷ 0xA9 ∷ codes "']\ncheck\n")
        ≡ codes "1\t$\t1\n3\t$\t{\"b\": \"\\u00e9\"}\n= 2\n3\t$['b']\t\"\\u00e9\"\n= 1\n= 3 lines, 0 refused, 1 blank\n" }
    ensures a_text_of_two_lines_and_a_cut_one { written_by framings.Sequence 4294967295 [] (0x1E ∷ codes "{\"a\":\n1}\n" ++ 0x1E ∷ codes "12" ++ 0x1E ∷ codes "34\n") (codes "query $\n")
        ≡ 0x1E ∷ codes "1\t$\t{\"a\":\n1}\n" ++ 0x1E ∷ codes "2\t!truncated\n" ++ 0x1E ∷ codes "3\t$\t34\n= 2\n" }
    ensures empty_and_blank_texts { written_by framings.Sequence 4294967295 [] (0x1E ∷ 0x1E ∷ codes "1\n" ++ 0x1E ∷ codes "\n" ++ 0x1E ∷ 0x1E ∷ codes "[1]") (codes "query $\ncheck\n")
        ≡ 0x1E ∷ codes "1\t$\t1\n" ++ 0x1E ∷ codes "3\t$\t[1]\n= 2\n= 3 lines, 0 refused, 1 blank\n" }
    ensures a_cut_string { written_by framings.Sequence 4294967295 [] (0x1E ∷ codes "\"abc" ++ 0x1E ∷ codes "\"def\"") (codes "query $\n")
        ≡ 0x1E ∷ codes "1\t!grammar\n" ++ 0x1E ∷ codes "2\t$\t\"def\"\n= 1\n" }
    ensures truncated_before_number { written_by framings.Sequence 4294967295 [] (0x1E ∷ codes "1e1000000000000000") (codes "check\n")
        ≡ 0x1E ∷ codes "1\t!truncated\n= 1 lines, 1 refused, 0 blank\n" }
    ensures number_with_its_end { written_by framings.Sequence 4294967295 [] (0x1E ∷ codes "1e1000000000000000\n") (codes "check\n")
        ≡ 0x1E ∷ codes "1\t!number\n= 1 lines, 1 refused, 0 blank\n" }
    ensures grammar_before_truncated { written_by framings.Sequence 4294967295 [] (0x1E ∷ codes "tru") (codes "check\n")
        ≡ 0x1E ∷ codes "1\t!grammar\n= 1 lines, 1 refused, 0 blank\n" }
    ensures no_text { written_by framings.Sequence 4294967295 [] [] (codes "query $\n") ≡ codes "= 0\n" }
    ensures white_space_alone { written_by framings.Sequence 4294967295 [] (codes "\n") (codes "query $\n")
        ≡ codes "= 0\n" }
    ensures edits_of_a_sequence { written_by framings.Sequence 4294967295 [] [] (codes "append 12\nappend 12 \nappend " ++ 0x1E ∷ codes "\ncheck\n")
        ≡ codes "appended 1\nappended 2\nerror: separator\n" ++ 0x1E ∷ codes "1\t!truncated\n= 2 lines, 1 refused, 0 blank\n" }
{}
