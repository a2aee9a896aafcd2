//! Exact decimals: the numbers of RFC 8259, section 6, read as views of their bytes and compared by exact value, far
//! outside the range of 64 bits too.
//!
//! Public calls:
//!
//! - `Decimal`: a number by its exact value: `read`, `compare`, `equal`; `NumberFault`
//! - `Decimal::to_numeral`, `Numeral`: the number with digits of its own, and back, in constant time
//! - `Decimal::canonical`, `DecimalKey`: one key for all spellings of a value, ordered as the values. Its variants and the
//!   fields of `KeySize` (sign, power and digits) are public for the order and the definitions of keys above; invariants keep
//!   them canonical
#![tactic(auto)]

mod canonical;
mod decimal;
mod fault;
mod key;
mod keys;
pub mod laws;
mod measured;
mod numeral;
mod ordering;
mod owned;
mod parts;
mod reading;

pub use decimal::Decimal;
pub use fault::NumberFault;
pub use key::{DecimalKey, KeySize};
pub use numeral::Numeral;
