//! Laws of the definitions, each the contract of a function that does nothing: what a reader may believe of `jp_model/specs`.
#![tactic(auto)]

pub mod calls;
pub mod canonical;
pub mod comparisons;
pub mod cutting;
pub mod joining;
pub mod nodes;
pub mod order;
pub mod paths;
pub mod patterns;
pub mod rows;
pub mod scripts;
pub mod slices;
pub mod texts;
