//! What is not so: four sentences that one may well believe of jpq, each with an example, computed by the definitions, that
//! breaks it.
#![tactic(auto, unfolding(crate::specs::Written::written, crate::specs::Written::written_by))]

ghost use Rattle.std.specs.Prelude.{◌≡◌, [], ◌∷◌, ◌++◌, codes};
ghost use Rattle.test_definitions.specs.Written.{written, written_by};
ghost use Rattle.jp_model.specs.declared.Framing.TheVariants as framings;

/// It is not so that another index never opens more lines: the guard is the first comparison whose path has an index, and not
/// the one that holds in the fewest lines.
pub fn an_index_may_open_more_lines()
    ensures { written (codes "{\"a\":1,\"b\":1}\n{\"a\":2,\"b\":2}\n{\"a\":3,\"b\":3}\n") (codes "index $.b\nexplain $[?$.a>0 && $.b==1]\nindex $.a\nexplain $[?$.a>0 && $.b==1]\n")
        ≡ codes "indexed 3\nguard $['b'] == 1\nchild 1\nopen 1 of 3\nindexed 3\nguard $['a'] > 0\nchild 1\nopen 3 of 3\n" }
{}

/// It is not so that edits of two lines may be exchanged: at the limit of the collection's size the first may make room for the
/// second.
pub fn edits_of_two_lines_may_not_be_exchanged()
    ensures shorter_first { written_by framings.Lines 6 [] (codes "aa\nbb\n") (codes "replace 1 a\nreplace 2 bbb\n") ≡ codes "replaced 1\nreplaced 2\n" }
    ensures longer_first { written_by framings.Lines 6 [] (codes "aa\nbb\n") (codes "replace 2 bbb\nreplace 1 a\n") ≡ codes "error: size\nreplaced 1\n" }
{}

/// It is not so that the lines of two files that are joined are the lines of both: a byte order mark is dropped at the front of
/// a file alone.
pub fn files_that_are_joined_may_have_other_lines()
    ensures first { written (codes "1\n") (codes "query $\n") ≡ codes "1\t$\t1\n= 1\n" }
    ensures second { written (0xEF ∷ 0xBB ∷ 0xBF ∷ codes "2\n") (codes "query $\n") ≡ codes "1\t$\t2\n= 1\n" }
    ensures joined { written (codes "1\n" ++ 0xEF ∷ 0xBB ∷ 0xBF ∷ codes "2\n") (codes "query $\n") ≡ codes "1\t$\t1\n2\t!grammar\n= 1\n" }
{}

/// It is not so that the rows of `$..*` stand in the order of the line: the children of a node come before those of its
/// children.
pub fn rows_may_go_back_in_the_line()
    ensures { written (codes "[[1],2]\n") (codes "query $..*\n") ≡ codes "1\t$[0]\t[1]\n1\t$[1]\t2\n1\t$[0][0]\t1\n= 3\n" }
{}
