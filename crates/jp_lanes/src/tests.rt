//! Each lane and each position.

mod classes;
mod search;
