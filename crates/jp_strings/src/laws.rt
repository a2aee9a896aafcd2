//! Laws of the definitions.
ghost use Rattle.std.specs.Prelude.{◌≡◌, ◌↔◌, ℕ, ◌≤◌, List, length};
ghost use Rattle.jp_model.specs.Json.Places.{bytes_between};
ghost use Rattle.jp_model.specs.Json.Strings.{SpellsBody};
ghost use Rattle.jp_strings.specs.Points.{points_of};

/// A body within a line is that body by itself, and a body spells no other code points than
/// `points_of` computes.
pub fn bodies_are_read()
    ensures alone { (line points : List ℕ) (start end : ℕ) → start ≤ end → end ≤ length line
        → SpellsBody line start end points
        ↔ SpellsBody (bytes_between line start end) 0 (length (bytes_between line start end)) points }
    ensures points { (body points : List ℕ) → SpellsBody body 0 (length body) points
        → points_of body ≡ points }
{}
