//! Why a survey is not written.

/// Why the rows of a survey are not written.
#[derive(Clone, Copy, Debug, PartialEq, Eq)]
pub enum SurveyFault {
    /// A growth was refused.
    Memory,
    /// A write failed, or took no byte.
    Write,
}
