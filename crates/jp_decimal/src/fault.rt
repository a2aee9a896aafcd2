//! Why bytes are refused as a number.

/// Why bytes are refused as a number.
#[derive(Clone, Copy, Debug, PartialEq, Eq)]
pub enum NumberFault {
    /// They are not a number of RFC 8259, section 6.
    Shape,
    /// They are a number whose exponent has more than 15 digits after its leading zeros (profile).
    Exponent,
}
