//! Laws of slices and indexes (RFC 9535, sections 2.3.3 and 2.3.4).

ghost use Rattle.std.specs.Prelude.{◌≡◌, ℕ, ◌+◌, ◌-◌, ◌<◌, ◌≤◌, ℤ, pos, negsuc, List, [], IsTrue, int_lt, Option, flat_map};
ghost use Rattle.jp_model.specs.Meaning.Nodes.{Node, child_count};
ghost use Rattle.jp_model.specs.Meaning.Slices.{indexed, sliced};
ghost use Rattle.jp_laws.specs.Slices.{lower, upper, SelectsUp, SelectsDown};

/// A slice selects the elements whose indexes the loops of RFC 9535, section 2.3.4.2.2, select, one after another: for a
/// step above 0 `lower`, `lower + step` and so on below `upper`, for one below 0 `upper`, `upper + step` and so on above
/// `lower`, and for 0 none.
pub fn slices_are_the_loop()
    ensures up { (first last : Option ℤ) (step : ℤ) (n : Node) → IsTrue (int_lt (pos 0) step) → (indexes : List ℤ)
        × SelectsUp step (upper first last step (pos (child_count n))) (lower first last step (pos (child_count n))) indexes
        × (sliced first last step n ≡ flat_map (λ i. indexed i n) indexes) }
    ensures down { (first last : Option ℤ) (step : ℤ) (n : Node) → IsTrue (int_lt step (pos 0)) → (indexes : List ℤ)
        × SelectsDown step (lower first last step (pos (child_count n))) (upper first last step (pos (child_count n))) indexes
        × (sliced first last step n ≡ flat_map (λ i. indexed i n) indexes) }
    ensures none { (first last : Option ℤ) (n : Node) → sliced first last (pos 0) n ≡ [] }
{}

/// A negative index counts from the end, and an index that is out of range on either side selects nothing (RFC 9535, section
/// 2.3.3.2).
pub fn negative_indexes_count_from_the_end()
    ensures negative { (k : ℕ) (n : Node) → k < child_count n → indexed (negsuc k) n ≡ indexed (pos (child_count n - (k + 1))) n }
    ensures before { (k : ℕ) (n : Node) → child_count n ≤ k → indexed (negsuc k) n ≡ [] }
    ensures past { (k : ℕ) (n : Node) → child_count n ≤ k → indexed (pos k) n ≡ [] }
{}
