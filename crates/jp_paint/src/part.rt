//! The parts of a row and their colours.

ghost use Rattle.std.specs.Prelude.{◌≡◌, ◌++◌, OnOk};
ghost use Rattle.jp_paint.specs.Colours.{painted, start_of, stop};

use std::alloc::AllocError;

/// A part of a row that has a colour of its own: that which grep gives it by default.
#[derive(Clone, Copy, Debug, PartialEq, Eq)]
pub enum Part {
    /// The name of a file: magenta.
    Name,
    /// The number of a line, or the path of a value: green.
    Place,
    /// A sign after one of these, or between groups of rows: cyan.
    Sign,
    /// A node that a query selects, within its line: bold red.
    Node,
}

impl Part {
    /// What begins its colour. As grep does, each sequence clears the line after it, so that a line that wraps has no background
    /// of another colour.
    pub fn start(self) -> &'static [u8]
        ensures { result.now ≡ start_of self }
    {
        match self {
            Part::Name => b"\x1b[35m\x1b[K",
            Part::Place => b"\x1b[32m\x1b[K",
            Part::Sign => b"\x1b[36m\x1b[K",
            Part::Node => b"\x1b[01;31m\x1b[K",
        }
    }
}

/// What ends a colour.
pub fn stop() -> &'static [u8]
    ensures { result.now ≡ stop }
{
    b"\x1b[m\x1b[K"
}

/// Appends a part of a row, in its colour where it is `coloured`. If memory is refused, what was appended is to be forgotten.
pub fn push_painted(
    coloured: bool,
    part: Part,
    bytes: &[u8],
    text: &mut Vec<u8>,
) -> Result<(), AllocError>
    ensures { OnOk result (text.new.items ≡ text.old.items ++ painted coloured part bytes.now) }
{
    if !coloured {
        return text.extend_from_slice(bytes);
    }
    text.extend_from_slice(part.start())?;
    text.extend_from_slice(bytes)?;
    text.extend_from_slice(stop())
}
