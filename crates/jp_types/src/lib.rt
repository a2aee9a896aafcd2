//! Which queries are well-typed (RFC 9535, section 2.4.3).
//!
//! Public calls:
//!
//! - `check`, `Checked`: a well-typed query, or the fault and the query
//! - `check_condition`, `CheckedCondition`: the same of a logical expression that stands alone
//! - `signature_of`, `Signature`, `Kind`, `fits`: the types of a function; whether an argument may stand for a parameter
//! - `Walk`: whether a tree keeps its limits and is well-typed, and how many functions stand before the first that is at fault
//! - `Limit`, `integer_passes`, `literal_passes`: what a limit asks of an integer and of a literal
#![tactic(auto)]

mod checked;
mod checking;
mod condition;
mod limits;
mod numbers;
mod signature;
mod typing;
mod walk;

pub use checked::Checked;
pub use checking::{check, check_condition};
pub use condition::CheckedCondition;
pub use limits::{Limit, integer_passes, literal_passes};
pub use signature::{Kind, Signature, signature_of};
pub use typing::fits;
pub use walk::Walk;
