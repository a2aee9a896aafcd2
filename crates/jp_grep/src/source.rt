//! A stream as it is read.

ghost use Rattle.std.specs.Prelude.{[]};
ghost use Rattle.jp_grep.specs.Stands.{Stands};

use crate::cutting::Cutting;
use crate::stream::Stream;
use jp_form::Units;
use std::alloc::Global;

/// What came of a stream and is not answered yet, by what plays its lines.
#[derive(Drop)]
pub(crate) enum Source {
    Lines(Stream),
    Pieces(Cutting),
}

impl Source {
    /// At the front of a stream.
    pub(crate) fn new(alloc: Global, units: Units) -> Source
        ensures { Stands units [] result [] }
    {
        match units {
            Units::Lines(framing) => Source::Lines(Stream::new(alloc, framing)),
            Units::Pieces(pieces) => Source::Pieces(Cutting::new(alloc, pieces)),
        }
    }
}
