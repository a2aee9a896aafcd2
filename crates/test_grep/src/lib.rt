//! What a search reads: which reads follow one another, where a reader gives its bytes in any pieces and fails at one read too many.
#![tactic(auto)]

#[cfg(test)]
mod devices;
#[cfg(test)]
mod reads;
