//! What `run`, the program's words, stores and plans answer to calls that no script over a file can make: devices that fail,
//! that never end or that count their calls, and views of single lines. What a script answers is in the examples of
//! `test_scripts`.
//!
//! A crate's own tests are proved safe together with all of the crate. Here they use what is proved already, so that
//! those proofs are not made twice.
#![tactic(auto)]

#[cfg(test)]
mod buffered;
#[cfg(test)]
mod devices;
#[cfg(test)]
mod faults;
#[cfg(test)]
mod plans;
#[cfg(test)]
mod stopped;
#[cfg(test)]
mod stores;
#[cfg(test)]
mod words;
