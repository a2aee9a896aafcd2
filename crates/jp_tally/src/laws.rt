//! Laws of tallies.

ghost use Rattle.std.specs.Prelude.{◌≡◌, ℕ, List, length, sum_by};
ghost use Rattle.std.specs.List.Sorted.{IsPermutation};
ghost use Rattle.jp_tally.specs.Tallies.{Entry, IsTally};

/// The sum of the counts of a tally is the number of the rows: each row is counted, and none twice.
pub fn counts_sum_to_the_rows()
    ensures { (rows : List (List ℕ)) (tally : List Entry) → IsTally rows tally → sum_by (λ entry. entry.count) tally ≡ length rows }
{}

/// Rows in another order have the same tally.
pub fn no_order_of_rows_matters()
    ensures { (rows other : List (List ℕ)) (tally : List Entry) → IsPermutation rows other → IsTally rows tally → IsTally other tally }
{}

/// Rows, in whichever order, have one tally, and so one text.
pub fn rows_have_one_tally()
    ensures { (rows other : List (List ℕ)) (left right : List Entry) → IsPermutation rows other → IsTally rows left → IsTally other right → left ≡ right }
{}
