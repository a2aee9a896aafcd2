//! An expression that was read.

use jp_syntax::Logical;

/// An expression, and whether it is a query or a call alone, with neither `!` nor parentheses.
#[derive(Drop)]
pub(crate) struct Parsed {
    pub(crate) is_bare: bool,
    pub(crate) logical: Box<Logical>,
}
