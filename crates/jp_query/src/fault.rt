//! Why a text was not read as a query.

use jp_model::QueryFault;

/// Why a text was not read as a query.
#[derive(Clone, Copy, Debug, PartialEq, Eq)]
pub enum ParseFault {
    /// The text is refused by its first fault.
    Refused(QueryFault),
    /// Memory ran out.
    Memory,
}
