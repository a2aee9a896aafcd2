//! A condition that is well-typed.

ghost use Rattle.std.specs.Prelude.{◌≡◌, true};
ghost use Rattle.jp_model.specs.Query.Typing.{logical_typed};
ghost use Rattle.jp_syntax.specs.Queries.{condition_view};

use jp_syntax::{Condition, Logical};

/// A logical expression that stands alone and is well-typed (RFC 9535, section 2.4.3).
#[derive(Drop)]
pub struct CheckedCondition {
    condition: Condition,
    ghost typed: { logical_typed (condition_view condition) ≡ true },
}

impl CheckedCondition {
    ghost use Rattle.jp_syntax.specs.Sound.{logical_has_sound_literals};
    ghost use Rattle.jp_syntax.specs.View.{logical_view};
    ghost use Rattle.jp_types.specs.CheckedConditions.{checked_condition_view};

    /// A condition whose types fit.
    pub(crate) fn new(condition: Condition) -> CheckedCondition
        requires { logical_typed (condition_view condition) ≡ true }
        ensures { result.condition ≡ condition }
    {
        CheckedCondition { condition }
    }

    /// The expression.
    pub fn expression(&self) -> &Logical
        ensures value { logical_view result.now ≡ checked_condition_view self.now }
        ensures typed { logical_typed (logical_view result.now) ≡ true }
        ensures sound { logical_has_sound_literals (logical_view result.now) ≡ true }
    {
        self.condition.expression()
    }
}
