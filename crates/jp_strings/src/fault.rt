//! Why bytes are not the body of a string.

/// Why bytes are not the body of a string.
#[derive(Clone, Copy, Debug, PartialEq, Eq)]
pub enum StringFault {
    /// They are not a body.
    Shape,
    /// They are a body, and half of a surrogate pair stands alone in it (RFC 8259, section 8.2).
    Surrogate,
}
