//! A line that was read.

ghost use Rattle.std.specs.Prelude.{◌≡◌};

use crate::Status;
use jp_model::Span;

/// A line without its separator.
#[derive(Drop)]
pub enum Line {
    /// Its bytes are among those that were loaded. Where it has a tree, its nodes are among the tapes that were loaded: `nodes`
    /// of them, from the word at `tape` on.
    Loaded {
        status: Status,
        nodes: u32,
        span: Span,
        tape: usize,
    },
    /// It is boxed, since few lines are edited, and a record of a line is to be small.
    Edited(Box<EditedLine>),
}

/// A line that was edited. Its bytes are its own, and so are the nodes of its tape, where it has a tree.
#[derive(Drop)]
pub struct EditedLine {
    /// What it is.
    pub status: Status,
    /// The number of nodes of its tree, where it has one.
    pub nodes: u32,
    /// Its bytes.
    pub text: Vec<u8>,
    /// The words of its tape, where it has a tree.
    pub tape: Vec<u64>,
}

impl Line {
    ghost use Rattle.jp_lines.specs.Stored.{told_of, is_fault_status, is_tree_status};

    /// What it is.
    pub fn status(&self) -> Status
        ensures { result ≡ told_of self.now }
    {
        match self {
            Line::Loaded { status, .. } => *status,
            Line::Edited(line) => line.status,
        }
    }

    /// Whether it has a tree.
    pub fn is_tree(&self) -> bool
        ensures { result ≡ is_tree_status (told_of self.now) }
    {
        matches!(self.status(), Status::Tree)
    }

    /// Whether it is refused.
    pub fn is_refused(&self) -> bool
        ensures { result ≡ is_fault_status (told_of self.now) }
    {
        matches!(self.status(), Status::Refused(_))
    }
}
