//! Sets of JSON values, asked for one that is equal (RFC 9535, section 2.3.5.2.2).
//!
//! Public calls:
//!
//! - `Listed`: the values of some lines of canonical text, and whether one is equal to another value
//!
//! A value is known by its canonical text (the crate `jp_canon`): one text for all values that are equal, whatever the order of
//! their members, the spelling of their numbers, or the escapes of their strings. The texts stay as they came, each with a line
//! feed after it, and for each the set keeps its hash and where it stands, in 24 bytes. They are sorted once, by hash and text,
//! so that no list takes more than n log n comparisons, and no question more than log n. Where each bucket of hashes begins is
//! kept too, a byte for each text: where the hashes are spread evenly a question looks at few texts. A value that is asked for is
//! copied only where its source is not seen to be canonical text: a plain string and a whole number are looked up as they stand.
#![tactic(auto)]

mod hash;
mod listed;
mod slot;
mod source;
mod texts;

pub use listed::Listed;
