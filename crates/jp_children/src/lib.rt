//! The children of a node that a name, an index or a slice selects (RFC 9535, sections 2.3.1, 2.3.3 and 2.3.4), and the node
//! that a singular path leads to.
//!
//! Public calls:
//!
//! - `find_member`, `find_element`: the child of a name or an index
//! - `Slice`, `Rising`, `find_falling`: the elements of a slice, up or down
//! - `is_array`, `normal`, `skip_siblings`: what these are made of
//! - `follow`: the node of a singular path, without memory
#![tactic(auto)]

mod children;
mod steps;

/// What a call gives that may be refused memory.
type Result<T> = std::result::Result<T, std::alloc::AllocError>;

pub use children::{
    Rising, Slice, find_element, find_falling, find_member, is_array, normal, skip_siblings,
};
pub use steps::follow;
