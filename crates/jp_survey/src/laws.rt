//! Laws of surveys.

ghost use Rattle.std.specs.Prelude.{◌≡◌, ℕ, List, All, Any, length, sum_by, true};
ghost use Rattle.std.specs.List.Sorted.{IsPermutation};
ghost use Rattle.jp_survey.specs.Folds.{fits};
ghost use Rattle.jp_survey.specs.Paths.{Line};
ghost use Rattle.jp_survey.specs.Surveys.{Entry, IsSurvey, marks_in};

/// Lines in another order have the same survey, whichever objects are folded.
pub fn no_order_of_lines_matters()
    ensures { (fold : ℕ) (lines other : List Line) (survey : List Entry) → IsPermutation lines other → IsSurvey fold lines survey → IsSurvey fold other survey }
{}

/// The sum of the numbers of nodes in a survey is how many nodes there are: each is counted once, or once for each surveyed node that it
/// lies in.
pub fn nodes_sum_to_all_nodes()
    ensures { (fold : ℕ) (lines : List Line) (survey : List Entry) → IsSurvey fold lines survey → sum_by (λ entry. entry.nodes) survey ≡ length (marks_in lines) }
{}

/// Each row of a survey is that of some node: with its indexes, and the names where names are folded, its path is that of a node,
/// which is of its kind.
pub fn each_row_is_of_a_node()
    ensures { (fold : ℕ) (lines : List Line) (survey : List Entry) → IsSurvey fold lines survey
        → All (λ entry. Any (λ mark. (fits entry.path mark.path ≡ true) × (mark.kind ≡ entry.kind)) (marks_in lines)) survey }
{}
