//! A pattern as a graph of states, of any number. From a state a text goes on after a scalar, or without one.

ghost use Rattle.std.specs.Prelude.{◌≡◌, ◌<◌, length};
ghost use Rattle.jp_iregexp.specs.Graphs.{behind_of, free_of};

use crate::class::Class;

/// The number of the state at which a text ends. Nothing follows it.
pub(crate) const END: usize = 0;

/// How a text goes on.
#[derive(Drop)]
pub(crate) enum State {
    /// After a scalar of the class, from the state with this number.
    Scalar { class: Class, next: usize },
    /// From any of these states.
    Fan(Vec<usize>),
    /// After an ASCII scalar, from the state that stands at its place, if there is one.
    Switch(Vec<Option<usize>>),
}

impl State {
    /// The states from which a text goes on without a scalar.
    #[inline(always)]
    pub(crate) fn free(&self) -> &[usize]
        ensures { result.now ≡ free_of self.now }
    {
        match self {
            State::Fan(targets) => targets.as_slice(),
            _ => &[],
        }
    }

    /// The state from which a text goes on after the scalar.
    #[inline(always)]
    pub(crate) fn behind(&self, scalar: char) -> Option<usize>
        ensures { result ≡ behind_of self.now scalar }
    {
        match self {
            State::Scalar { class, next } if class.contains(scalar) => Some(*next),
            State::Switch(rows) => match rows.get(scalar as usize) {
                Some(row) => *row,
                None => None,
            },
            _ => None,
        }
    }
}

/// The states of a pattern, of which the first is the end, and the one where a text starts.
#[derive(Drop)]
pub(crate) struct Graph {
    pub(crate) states: Vec<State>,
    pub(crate) start: usize,
    ghost ended: { 0 < length states.items },
}
