//! Laws of the rows that are shown.

ghost use Rattle.std.specs.Prelude.{◌≡◌, ◌++◌, ◌<◌, ◌≤◌, [], ℕ, Bool, List, All, false, length, map, true};
ghost use Rattle.std.specs.List.{list_all};
ghost use Rattle.jp_devices.specs.Devices.{Begins};
ghost use Rattle.jp_context.specs.Colours.{ColoursComeOffRows, ColoursComeOffTold};
ghost use Rattle.jp_context.specs.Groups.{context_text, marks};
ghost use Rattle.jp_context.specs.Near.{IsNear, begins_anew, hidden, is_passed, is_stream, shown_at};
ghost use Rattle.jp_context.specs.Told.{ToldRow};

/// Each row that is selected is shown, whatever stands near it. This refuses a definition in which a row that is already shown
/// after another is passed over as one that is selected.
pub fn selected_rows_are_shown()
    ensures { (before after : ℕ) (rows : List ToldRow) → All (λ mark. mark.row.selected ≡ true → mark.shown ≡ true) (marks before after rows) }
{}

/// With no context the rows that are selected are shown, and no other. This refuses a definition that counts one row too many.
pub fn without_context_selected_rows_alone()
    ensures { (rows : List ToldRow) → map (λ mark. mark.shown) (marks 0 0 rows) ≡ map (λ row. row.selected) rows }
{}

/// A row of a stream is shown exactly where one that is selected stands near enough: at most `before` rows after it, or at most
/// `after` rows before it. This refuses a definition that shows a row too many or too few on one side, such as one that counts the
/// row that is selected among those after it.
pub fn rows_near_selected_ones_are_shown()
    ensures near { (before after : ℕ) (rows : List ToldRow) → is_stream rows ≡ true → (place : ℕ) → shown_at (marks before after rows) place ≡ true → IsNear before after rows place }
    ensures shown { (before after : ℕ) (rows : List ToldRow) → is_stream rows ≡ true → (place : ℕ) → place < length rows → IsNear before after rows place → shown_at (marks before after rows) place ≡ true }
{}

/// Streams are shown apart, as the two sides of a line that was given up are: no row is context of one on the other side of a gap.
/// This refuses a definition that counts rows on across one.
pub fn streams_are_shown_apart()
    ensures { (before after : ℕ) (rows more : List ToldRow) → begins_anew more ≡ true → marks before after (rows ++ more) ≡ marks before after rows ++ marks before after more }
{}

/// No row is shown of a stream in which nothing is selected.
pub fn streams_without_a_selected_row_are_hidden()
    ensures { (before after : ℕ) (rows : List ToldRow) → list_all is_passed rows ≡ true → marks before after rows ≡ map hidden rows }
{}

/// Each row is judged once, in order, so none is shown twice. This refuses a definition that shows a row both after one that is
/// selected and before the next one.
pub fn each_row_is_judged_once()
    ensures { (before after : ℕ) (rows : List ToldRow) → map (λ mark. mark.row) (marks before after rows) ≡ rows }
{}

/// What is shown stays when more rows come. This refuses a definition that takes back what was written.
pub fn what_is_shown_stays()
    ensures { (coloured : Bool) (before after : ℕ) (rows more : List ToldRow) → Begins (context_text coloured before after rows) (context_text coloured before after (rows ++ more)) }
{}

/// Rows that differ from others by the escape sequences of colours alone are shown where those are, and what is shown differs by
/// escape sequences alone: also where groups are parted by hyphens in colour, and where a row in colours is told for a node. This
/// refuses a definition in which the hyphens of groups are let out with colours.
pub fn rows_in_colours_are_shown_alike()
    ensures rows { ColoursComeOffRows }
    ensures told { ColoursComeOffTold }
{}
