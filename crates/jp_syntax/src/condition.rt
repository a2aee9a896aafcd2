//! A logical expression that stands alone.

ghost use Rattle.std.specs.Prelude.{◌≡◌, true};
ghost use Rattle.jp_syntax.specs.Filters.{filter_by};
ghost use Rattle.jp_syntax.specs.Sound.{logical_has_sound_literals};
ghost use Rattle.jp_syntax.specs.View.{logical_view};
ghost use Rattle.jp_syntax.specs.WellFormed.{IsWellFormed};

use crate::tree::Logical;

/// A logical expression that is no part of a query, as in `@.level == "error"` (RFC 9535, section 2.3.5). Some text within the
/// limits spells it between `$[?` and `]`.
#[derive(Drop)]
pub struct Condition {
    expression: Logical,
    ghost well_formed: { ∥ IsWellFormed (filter_by (logical_view expression)) ∥₁ },
    ghost sound: { logical_has_sound_literals (logical_view expression) ≡ true },
}

impl Condition {
    ghost use Rattle.jp_syntax.specs.Queries.{condition_view};

    /// Takes an expression that is known to be well-formed (RFC 9535, section 2.1), so that each number literal can be read.
    pub fn new(expression: Logical) -> Condition
        requires well_formed { ∥ IsWellFormed (filter_by (logical_view expression)) ∥₁ }
        requires sound { logical_has_sound_literals (logical_view expression) ≡ true }
        ensures { condition_view result ≡ logical_view expression }
    {
        Condition { expression }
    }

    /// The expression.
    pub fn expression(&self) -> &Logical
        ensures value { logical_view result.now ≡ condition_view self.now }
        ensures well_formed { ∥ IsWellFormed (filter_by (condition_view self.now)) ∥₁ }
        ensures sound { logical_has_sound_literals (condition_view self.now) ≡ true }
    {
        &self.expression
    }
}
