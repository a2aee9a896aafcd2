//! Worked examples, from bytes to bytes: what a script writes over a collection, computed from the definitions alone. No
//! code of jpq takes part: the examples show that the definitions say what the RFCs say.
#![tactic(auto)]

pub mod collections;
pub mod queries;
pub mod texts;
pub mod untrue;
