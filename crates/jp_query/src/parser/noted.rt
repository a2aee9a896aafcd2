//! What is noted while a text is read.

/// Where what was met stands that is refused only once the text is known to be a query: by how many scalars of the text are left
/// there.
#[derive(Drop)]
pub(crate) struct Noted {
    /// Of the first integer of a selector that is not exact (RFC 9535, section 2.1).
    pub(crate) integer: Option<usize>,
    /// Of the first number literal whose exponent is too long.
    pub(crate) exponent: Option<usize>,
    /// Of each function, in the order of the text.
    pub(crate) functions: Vec<usize>,
}
