//! A law of plans: how many lines they open at most.

ghost use Rattle.std.specs.Prelude.{◌≤◌, length};
ghost use Rattle.jp_plan.specs.Planned.{Planned, lines_opened};

/// A plan opens no more lines than there are (profile).
pub fn no_more_lines_are_opened()
    ensures { (plan : Planned) → length (lines_opened plan) ≤ length plan.over.state.lines }
{}
