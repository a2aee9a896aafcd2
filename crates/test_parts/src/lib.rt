//! What public functions answer that no script shows: of crates whose own proof would be made once more with their tests.
//!
//! A crate's own tests are proved safe together with all of the crate. Here they use what is proved already, so that
//! they need no second proof of it.
#![tactic(auto)]

#[cfg(test)]
mod canon;
#[cfg(test)]
mod decimal;
#[cfg(test)]
mod eval;
#[cfg(test)]
mod iregexp;
#[cfg(test)]
mod query;
#[cfg(test)]
mod rows;
#[cfg(test)]
mod tapes;
#[cfg(test)]
mod values;
