//! Which trees the texts of queries spell, and which texts are refused.
#![tactic(auto, unfolding(crate::specs::Texts::reads, crate::specs::Written::reading))]

ghost use Rattle.std.specs.Prelude.{◌≡◌, [], ◌∷◌, pos, negsuc, Some, None, codes};
ghost use Rattle.jp_model.specs.declared.QueryFault.TheVariants.{Syntax, Integer, Number, Function};
ghost use Rattle.jp_model.specs.Query.Status.{query, refused_query};
ghost use Rattle.jp_model.specs.Query.Syntax.{equal, root, current, true_literal, number_literal, no_segments, segment, child_segment, name_selector, index_selector, slice_selector, no_selectors, selector, negated, compare, exists, test, constant, single, constant_argument, nodes_argument, condition, result_argument, no_arguments, argument, no_logicals, logical, and_all, path, call};
ghost use Rattle.jp_query.specs.Status.{query_of, relative_query_of};
ghost use Rattle.test_definitions.specs.Texts.{reads, one_child, filtered};

/// Texts that are read, each with its tree.
pub fn texts_that_are_read()
    ensures a_name { reads (codes "$.a") ≡ Some (one_child (name_selector (codes "a"))) }
    ensures escapes { reads (codes "$['\\uD83D\\uDE00\\u0061\\'\\n']") ≡ Some (one_child (name_selector (0x1F600 ∷ 97 ∷ 39 ∷ 10 ∷ []))) }
    ensures an_index_from_the_end { reads (codes "$[-1]") ≡ Some (one_child (index_selector (negsuc 0))) }
    ensures a_slice_of_blanks { reads (codes "$[ : : ]") ≡ Some (one_child (slice_selector None None None)) }
    ensures a_slice { reads (codes "$[1:2 :-3]") ≡ Some (one_child (slice_selector (Some (pos 1)) (Some (pos 2)) (Some (negsuc 2)))) }
    ensures blanks_before_a_segment { reads (codes "$.a .b") ≡ Some (segment (child_segment (selector (name_selector (codes "a")) no_selectors)) (one_child (name_selector (codes "b")))) }
    ensures a_test { reads (codes "$[?@.a]") ≡ Some (filtered (exists (path current (one_child (name_selector (codes "a")))))) }
    ensures a_comparison { reads (codes "$[?@.a==1]") ≡ Some (filtered (compare (single (path current (one_child (name_selector (codes "a"))))) equal (constant (number_literal (codes "1"))))) }
    ensures not_a_comparison { reads (codes "$[?!(@ == -1.5e+2)]") ≡ Some (filtered (negated (compare (single (path current no_segments)) equal (constant (number_literal (codes "-1.5e+2")))))) }
    ensures a_call_that_begins_as_a_word { reads (codes "$[?true(@)]") ≡ Some (filtered (test (call (codes "true") (argument (nodes_argument (path current no_segments)) no_arguments)))) }
    ensures arguments { reads (codes "$[?f(1,$,@&&@,true==1,g())]")
        ≡ Some
        (filtered (test (call (codes "f")
        (argument (constant_argument (number_literal (codes "1")))
        (argument (nodes_argument (path root no_segments))
        (argument (condition (and_all (logical (exists (path current no_segments)) (logical (exists (path current no_segments)) no_logicals))))
        (argument (condition (compare (constant true_literal) equal (constant (number_literal (codes "1")))))
        (argument (result_argument (call (codes "g") no_arguments)) no_arguments)))))))) }
{}

/// Texts that no rule of the grammar derives.
pub fn texts_that_are_not_read()
    ensures blanks_behind { reads (codes "$.a ") ≡ None }
    ensures negative_zero { reads (codes "$[-0]") ≡ None }
    ensures a_leading_zero { reads (codes "$[01]") ≡ None }
    ensures half_a_pair { reads (codes "$['\\uD83D\\u0061']") ≡ None }
    ensures the_other_quote_escaped { reads (codes "$['\\\"']") ≡ None }
    ensures blanks_in_a_singular_query { reads (codes "$[?@[ 0 ]==1]") ≡ None }
    ensures a_literal_alone { reads (codes "$[?true]") ≡ None }
    ensures no_singular_query { reads (codes "$[?@.*==1]") ≡ None }
    ensures not_before_a_comparison { reads (codes "$[?!@.a==1]") ≡ None }
    ensures parentheses_as_a_side { reads (codes "$[?(@.a)==1]") ≡ None }
{}

/// Faults in their order.
pub fn texts_with_a_fault()
    ensures an_integer { query_of (codes "$[9007199254740992]") ≡ refused_query Integer }
    ensures no_query_with_an_integer { query_of (codes "$[9007199254740992") ≡ refused_query Syntax }
    ensures an_exponent { query_of (codes "$[?@==1e1000000000000000]") ≡ refused_query Number }
    ensures an_unknown_function { query_of (codes "$[?f()]") ≡ refused_query Function }
{}

/// Rel-queries, each with its tree or its first fault.
pub fn texts_of_rel_queries()
    ensures no_segments { relative_query_of (codes "@") ≡ query no_segments }
    ensures a_name { relative_query_of (codes "@.sku") ≡ query (one_child (name_selector (codes "sku"))) }
    ensures two_brackets { relative_query_of (codes "@['a'][0]") ≡ query (segment (child_segment (selector (name_selector (codes "a")) no_selectors)) (one_child (index_selector (pos 0)))) }
    ensures a_filter { relative_query_of (codes "@[?$.c]") ≡ query (filtered (exists (path root (one_child (name_selector (codes "c")))))) }
    ensures nothing { relative_query_of [] ≡ refused_query Syntax }
    ensures a_query { relative_query_of (codes "$.a") ≡ refused_query Syntax }
    ensures no_query { query_of (codes "@.a") ≡ refused_query Syntax }
    ensures blanks_before { relative_query_of (codes " @") ≡ refused_query Syntax }
    ensures blanks_behind { relative_query_of (codes "@ ") ≡ refused_query Syntax }
    ensures an_integer { relative_query_of (codes "@.a[9007199254740992]") ≡ refused_query Integer }
    ensures an_exponent { relative_query_of (codes "@[?@==1e1000000000000000]") ≡ refused_query Number }
    ensures an_unknown_function { relative_query_of (codes "@[?f()]") ≡ refused_query Function }
    ensures not_utf8 { relative_query_of (64 ∷ 0xC3 ∷ []) ≡ refused_query Syntax }
{}
