//! What is held of a stream that is cut into JSON texts, or into elements of arrays.

ghost use Rattle.std.specs.Prelude.{◌<◌, ◌^◌, length};

use jp_cut::{Cutter, PieceAt};

/// What came of a stream that is cut into pieces, and is not answered yet.
#[derive(Drop)]
pub(crate) struct Cutting {
    pub(crate) cutter: Cutter,
    /// The front of the stream, as long as it may become the mark of another format. It is not cut yet.
    pub(crate) front: Vec<u8>,
    pub(crate) is_first: bool,
    /// The pieces that ended and are not answered yet.
    pub(crate) pieces: Vec<PieceAt>,
    ghost few: { length cutter.held.items < 2 ^ 32 },
}
