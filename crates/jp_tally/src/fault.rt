//! Why a tally is not written.

/// Why the rows of a tally are not written.
#[derive(Clone, Copy, Debug, PartialEq, Eq)]
pub enum TallyFault {
    /// A growth was refused.
    Memory,
    /// A write failed, or took no byte.
    Write,
}
