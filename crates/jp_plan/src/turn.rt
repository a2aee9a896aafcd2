//! Two ascending lists of lines, taken in turn.

ghost use Rattle.std.specs.Prelude.{◌≡◌, [], drop, MatchOption};
ghost use Rattle.jp_plan.specs.Turns.{IsNext};

/// The line that comes next.
#[derive(Clone, Copy)]
pub(crate) enum Turn {
    /// It is opened.
    Open(u32),
    /// It is refused.
    Refuse(u32),
}

/// Which line comes first, of those that are opened and those that are refused.
pub(crate) fn next_turn(opened: &[u32], refused: &[u32]) -> Option<Turn>
    ensures { MatchOption result ((opened.now ≡ []) × (refused.now ≡ [])) (λ turn. IsNext turn opened.now refused.now) }
{
    match opened {
        [] => match refused {
            [] => None,
            [refusal, ..] => Some(Turn::Refuse(*refusal)),
        },
        [line, ..] => match refused {
            [] => Some(Turn::Open(*line)),
            [refusal, ..] => {
                if *line < *refusal {
                    Some(Turn::Open(*line))
                } else {
                    Some(Turn::Refuse(*refusal))
                }
            }
        },
    }
}

/// The list after its first line.
pub(crate) fn behind_first(list: &[u32]) -> &[u32]
    ensures { result.now ≡ drop 1 list.now }
{
    match list {
        [] => list,
        [_, rest @ ..] => rest,
    }
}
