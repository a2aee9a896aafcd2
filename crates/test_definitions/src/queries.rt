//! What queries select, and which are refused, from bytes to bytes.
#![tactic(auto, unfolding(crate::specs::Written::written))]

ghost use Rattle.std.specs.Prelude.{◌≡◌, [], ◌++◌, codes};
ghost use Rattle.test_definitions.specs.Written.{written, times_in_row};

/// Names, indexes, wildcards and descendants, and the paths and bytes of the nodes (RFC 9535, sections 2.3, 2.5 and 2.7).
pub fn selecting()
    ensures name { written (codes "{\"a\":1}\n") (codes "query $.a\n")
        ≡ codes "1\t$['a']\t1\n= 1\n" }
    ensures name_without_line_feeds { written (codes "{\"a\":1}") (codes "query $.a")
        ≡ codes "1\t$['a']\t1\n= 1\n" }
    ensures no_line { written [] (codes "query $\ncheck\n") ≡ codes "= 0\n= 0 lines, 0 refused, 0 blank\n" }
    ensures blank_line { written (codes "\n") (codes "query $\ncheck\n")
        ≡ codes "= 0\n= 1 lines, 0 refused, 1 blank\n" }
    ensures descendants { written (codes "{\"a\":[{\"b\":1},{\"b\":2}],\"b\":3}\n") (codes "query $..b\n")
        ≡ codes "1\t$['b']\t3\n1\t$['a'][0]['b']\t1\n1\t$['a'][1]['b']\t2\n= 3\n" }
    ensures depth_first { written (codes "[[[1]],[2]]\n") (codes "query $..*\n")
        ≡ codes "1\t$[0]\t[[1]]\n1\t$[1]\t[2]\n1\t$[0][0]\t[1]\n1\t$[0][0][0]\t1\n1\t$[1][0]\t2\n= 5\n" }
    ensures escaped_name { written (codes "{\"'\\\\\\t\\u0001\":0}\n") (codes "query $.*\n")
        ≡ codes "1\t$['\\'\\\\\\t\\u0001']\t0\n= 1\n" }
    ensures unchanged_bytes { written (codes "{\"a\": [ 1 ] }\n") (codes "query $.a\n")
        ≡ codes "1\t$['a']\t[ 1 ]\n= 1\n" }
    ensures last_index { written (codes "[0,1,2,3]\n") (codes "query $[-1]\n")
        ≡ codes "1\t$[3]\t3\n= 1\n" }
    ensures index_past_the_end { written (codes "[0,1,2,3]\n") (codes "query $[9]\n")
        ≡ codes "= 0\n" }
    ensures index_twice { written (codes "[0,1,2,3]\n") (codes "query $[0,0]\n")
        ≡ codes "1\t$[0]\t0\n1\t$[0]\t0\n= 2\n" }
{}

/// Slices (RFC 9535, section 2.3.4).
pub fn slices()
    ensures backward { written (codes "[0,1,2,3]\n") (codes "query $[::-1]\n")
        ≡ codes "1\t$[3]\t3\n1\t$[2]\t2\n1\t$[1]\t1\n1\t$[0]\t0\n= 4\n" }
    ensures step_of_0 { written (codes "[0,1,2,3]\n") (codes "query $[1:3:0]\n")
        ≡ codes "= 0\n" }
    ensures backward_by_two { written (codes "[0,1,2,3]\n") (codes "query $[3:0:-2]\n")
        ≡ codes "1\t$[3]\t3\n1\t$[1]\t1\n= 2\n" }
    ensures backward_past_the_front { written (codes "[0,1,2,3]\n") (codes "query $[:-5:-1]\n")
        ≡ codes "1\t$[3]\t3\n1\t$[2]\t2\n1\t$[1]\t1\n1\t$[0]\t0\n= 4\n" }
    ensures huge_step { written (codes "[0,1,2,3]\n") (codes "query $[-9007199254740991:9007199254740991:9007199254740991]\n")
        ≡ codes "1\t$[0]\t0\n= 1\n" }
{}

/// Existence tests and comparisons (RFC 9535, section 2.3.5.2), with exact numbers.
pub fn filters()
    ensures a_member_that_is_null_is_there { written (codes "[{\"a\":null},{}]\n") (codes "query $[?@.a]\n")
        ≡ codes "1\t$[0]\t{\"a\":null}\n= 1\n" }
    ensures a_member_is_not_there { written (codes "[{\"a\":null},{}]\n") (codes "query $[?!@.a]\n")
        ≡ codes "1\t$[1]\t{}\n= 1\n" }
    ensures null_is_a_value { written (codes "[{\"a\":null},{}]\n") (codes "query $[?@.a==null]\n")
        ≡ codes "1\t$[0]\t{\"a\":null}\n= 1\n" }
    ensures nothing_equals_nothing { written (codes "[{}, {\"a\":null}]\n") (codes "query $[?@.a==@.b]\n")
        ≡ codes "1\t$[0]\t{}\n= 1\n" }
    ensures equal_numbers { written (codes "[1,1.0,100e-2,0.1e1,1.0000000000000000000000001]\n") (codes "query $[?@==1]\n")
        ≡ codes "1\t$[0]\t1\n1\t$[1]\t1.0\n1\t$[2]\t100e-2\n1\t$[3]\t0.1e1\n= 4\n" }
    ensures no_number_is_rounded { written (codes "[1,1.0,100e-2,0.1e1,1.0000000000000000000000001]\n") (codes "query $[?@>1]\n")
        ≡ codes "1\t$[4]\t1.0000000000000000000000001\n= 1\n" }
    ensures minus_zero_is_zero { written (codes "[0e5,-0,0.000]\n") (codes "query $[?@==-0]\n")
        ≡ codes "1\t$[0]\t0e5\n1\t$[1]\t-0\n1\t$[2]\t0.000\n= 3\n" }
    ensures great_exponents { written (codes "[1e999999999999999]\n") (codes "query $[?@>1e999999999999998]\n")
        ≡ codes "1\t$[0]\t1e999999999999999\n= 1\n" }
    ensures members_in_any_order { written (codes "[{\"a\":1,\"b\":2},{\"b\":2.0,\"a\":1}]\n") (codes "query $[?@==$[0]]\n")
        ≡ codes "1\t$[0]\t{\"a\":1,\"b\":2}\n1\t$[1]\t{\"b\":2.0,\"a\":1}\n= 2\n" }
{}

/// `match` and `search` over strings (RFC 9535, sections 2.4.6 and 2.4.7).
pub fn matching()
    ensures whole_string { written (codes "[\"abc\",\"abb\",\"^a\",\"z\",\"a\\nc\",\"^\"]\n") (codes "query $[?match(@,'a.c')]\n")
        ≡ codes "1\t$[0]\t\"abc\"\n= 1\n" }
    ensures part_of_a_string { written (codes "[\"abc\",\"abb\",\"^a\",\"z\",\"a\\nc\",\"^\"]\n") (codes "query $[?search(@,'b{2,}')]\n")
        ≡ codes "1\t$[1]\t\"abb\"\n= 1\n" }
    ensures class_of_a_caret { written (codes "[\"abc\",\"abb\",\"^a\",\"z\",\"a\\nc\",\"^\"]\n") (codes "query $[?match(@,'[^]')]\n")
        ≡ codes "1\t$[5]\t\"^\"\n= 1\n" }
    ensures caret_for_itself { written (codes "[\"abc\",\"abb\",\"^a\",\"z\",\"a\\nc\",\"^\"]\n") (codes "query $[?match(@,'^a')]\n")
        ≡ codes "1\t$[2]\t\"^a\"\n= 1\n" }
    ensures no_pattern { written (codes "[\"abc\",\"abb\",\"^a\",\"z\",\"a\\nc\",\"^\"]\n") (codes "query $[?match(@,'[z-a]')]\n")
        ≡ codes "= 0\n" }
    ensures empty_pattern { written (codes "[\"abc\",\"abb\",\"^a\",\"z\",\"a\\nc\",\"^\"]\n") (codes "query $[?search(@,'')]\n")
        ≡ codes "1\t$[0]\t\"abc\"\n1\t$[1]\t\"abb\"\n1\t$[2]\t\"^a\"\n1\t$[3]\t\"z\"\n1\t$[4]\t\"a\\nc\"\n1\t$[5]\t\"^\"\n= 6\n" }
    ensures pattern_of_the_text { written (codes "[{\"s\":\"ab\",\"p\":\"a.\"},{\"s\":\"ab\",\"p\":\"(\"},{\"s\":1,\"p\":\".\"}]\n") (codes "query $[?match(@.s,@.p)]\n")
        ≡ codes "1\t$[0]\t{\"s\":\"ab\",\"p\":\"a.\"}\n= 1\n" }
{}

/// `length`, `count` and `value` (RFC 9535, sections 2.4.4, 2.4.5 and 2.4.8).
pub fn functions()
    ensures length_behind_4_backslashes { written (codes "[\"xxxxxxxxxxxxxxxxxxxxxxxxxxxxxxxxxxxxxxxxxxxxxxxxxxxxxxxxxxx\\\\\\\\\"]\n") (codes "check\nquery $[?length(@)==61]\n")
        ≡ codes "= 1 lines, 0 refused, 0 blank\n"
        ++ codes "1\t$[0]\t\"xxxxxxxxxxxxxxxxxxxxxxxxxxxxxxxxxxxxxxxxxxxxxxxxxxxxxxxxxxx\\\\\\\\\"\n= 1\n" }
    ensures length_behind_5_backslashes { written (codes "[\"xxxxxxxxxxxxxxxxxxxxxxxxxxxxxxxxxxxxxxxxxxxxxxxxxxxxxxxxxxx\\\\\\\\\\\"\"]\n") (codes "check\nquery $[?length(@)==62]\n")
        ≡ codes "= 1 lines, 0 refused, 0 blank\n"
        ++ codes "1\t$[0]\t\"xxxxxxxxxxxxxxxxxxxxxxxxxxxxxxxxxxxxxxxxxxxxxxxxxxxxxxxxxxx\\\\\\\\\\\"\"\n= 1\n" }
    ensures value_of_a_single_node { written (codes "[{\"a\":1},{\"a\":1,\"b\":{\"a\":1}}]\n") (codes "query $[?value(@..a)==1]\n")
        ≡ codes "1\t$[0]\t{\"a\":1}\n= 1\n" }
    ensures count_of_nodes { written (codes "[{\"a\":1},{\"a\":1,\"b\":{\"a\":1}}]\n") (codes "query $[?count(@..a)==2]\n")
        ≡ codes "1\t$[1]\t{\"a\":1,\"b\":{\"a\":1}}\n= 1\n" }
    ensures count_of_duplicates { written (codes "[{\"a\":1},{\"a\":1,\"b\":{\"a\":1}}]\n") (codes "query $[?count(@['a','a'])==2]\n")
        ≡ codes "1\t$[0]\t{\"a\":1}\n1\t$[1]\t{\"a\":1,\"b\":{\"a\":1}}\n= 2\n" }
    ensures length_of_nothing { written (codes "[{\"a\":1},{\"a\":1,\"b\":{\"a\":1}}]\n") (codes "query $[?length(@.x)==length(@.y)]\n")
        ≡ codes "1\t$[0]\t{\"a\":1}\n1\t$[1]\t{\"a\":1,\"b\":{\"a\":1}}\n= 2\n" }
    ensures length_of_a_number { written (codes "[{\"a\":1},{\"a\":1,\"b\":{\"a\":1}}]\n") (codes "query $[?length(count(@.*))==1]\n")
        ≡ codes "= 0\n" }
{}

/// Queries that are refused, each by its first fault.
pub fn query_faults()
    ensures types { written [] (codes "query $[?count(@.*)]\nquery $[?length(@.*)==1]\nquery $[?match(@.a)]\n")
        ≡ codes "error: query types\nerror: query types\nerror: query types\n" }
    ensures arguments { written [] (codes "query $[?count(1)==1]\nquery $[?value(@.a)]\nquery $[?count(@.a,@.b)==1]\n")
        ≡ codes "error: query types\nerror: query types\nerror: query types\n" }
    ensures function_before_types { written [] (codes "query $[?foo(@)]\nquery $[?foo(@) && count(1)==1]\n")
        ≡ codes "error: query function\nerror: query function\n" }
    ensures integer { written [] (codes "query $[9007199254740992]\n")
        ≡ codes "error: query integer\n" }
    ensures size { written [] (codes "query $" ++ times_in_row 513 (codes "[0]") ++ codes "\n") ≡ codes "error: query size\n" }
{}
