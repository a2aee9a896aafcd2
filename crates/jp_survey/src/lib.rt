//! What is in the lines: a row for each path of the nodes that a search tells, and for each kind of value there (profile).
//!
//! Proved: what is written has one row for each path and each kind of value there, in order, with in how many lines there is such a
//! node and how many there are. In the paths the objects of more than `fold` names are folded, from the top down; below one that is
//! folded the number of lines is a hyphen. Not proved: how much memory is taken.
//!
//! Public calls:
//!
//! - `Survey`: a sink that surveys the nodes that it is told; `write_rows` writes what is in them
//! - `SurveyFault`: why that was not written
//! - `laws`: what holds of each survey
#![tactic(auto)]

mod count;
mod fault;
mod folding;
mod kind;
pub mod laws;
mod links;
mod listing;
mod order;
mod survey;
mod text;
mod tree;
mod walk;

pub use fault::SurveyFault;
pub use survey::Survey;

#[cfg(test)]
mod tests;
