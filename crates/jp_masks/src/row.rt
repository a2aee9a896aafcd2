//! One line among those that were found.

/// A line whose end is known: where it is, and which of the positions are its marks.
#[derive(Clone, Copy, Drop)]
pub struct Row {
    pub start: u32,
    pub end: u32,
    pub positions_start: usize,
    pub positions_end: usize,
}
