//! Laws of function calls (RFC 9535, section 2.4), and of the look-up of a row's line.

ghost use Rattle.std.specs.Prelude.{◌≡◌, ℕ, List, true, flat_map};
ghost use Rattle.jp_model.specs.declared.Framing.{Framing};
ghost use Rattle.jp_model.specs.Json.Tree.{Tree};
ghost use Rattle.jp_model.specs.Meaning.Nodes.{Node};
ghost use Rattle.jp_model.specs.Meaning.Selecting.{nodes};
ghost use Rattle.jp_model.specs.Query.Syntax.{Segments};
ghost use Rattle.jp_model.specs.Query.Typing.{segments_typed};
ghost use Rattle.jp_model.specs.Rows.{rows};
ghost use Rattle.jp_model.specs.Script.Machine.{statuses, row_text};
ghost use Rattle.jp_laws.specs.Fallbacks.{Fallbacks, defaults, nodes_by, row_text_by};

/// No default is reached: whatever the definitions answered for calls with other arguments than their function takes, and for
/// arguments that are asked for what they are not, a well-typed query selects the same nodes (RFC 9535, section 2.4.3); and
/// each row's line is there, whatever stood for one that is not. With the answers that the definitions do give, `nodes_by` is
/// `nodes`, for every query.
pub fn no_default_is_reached()
    ensures own { (q : Segments) (list : List Node) (t : Tree) → nodes_by defaults q list t ≡ nodes q list t }
    ensures queries { (d : Fallbacks) (q : Segments) (list : List Node) (t : Tree) → segments_typed q ≡ true → nodes_by d q list t ≡ nodes q list t }
    ensures rows { (d : List ℕ) (f : Framing) (lines : List (List ℕ)) (q : Segments)
        → flat_map (row_text_by d f lines) (rows q (statuses f lines)) ≡ flat_map (row_text f lines) (rows q (statuses f lines)) }
{}
