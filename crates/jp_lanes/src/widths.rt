//! How many bytes are looked at together.

/// A block: as many as there are bits in a word.
pub(crate) const BLOCK: usize = 64;

/// A quarter of a block: a vector of 128 bits.
pub(crate) const QUARTER: usize = 16;

/// An eighth of a block: a vector of 64 bits.
pub(crate) const EIGHTH: usize = 8;

/// A sixteenth of a block: a vector of 32 bits.
pub(crate) const SIXTEENTH: usize = 4;
