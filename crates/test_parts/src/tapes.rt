//! Tapes of small lines.

ghost use Rattle.std.specs.Prelude.{IfOk};
ghost use Rattle.jp_nodes.specs.Tapes.{IsTapeOf};

use jp_masks::line_marks;
use jp_model::{Framing, is_blank};
use jp_tape::{Tape, build};
use std::alloc::{AllocError, Global};

/// Why a line has no tape.
#[derive(Debug, Drop)]
pub(crate) enum NoTape {
    Line,
    Memory,
}

impl From<AllocError> for NoTape {
    fn from(_error: AllocError) -> NoTape {
        NoTape::Memory
    }
}

/// The tape of a line of fewer than 4,294,967,296 bytes.
pub(crate) fn tape_of(alloc: Global, line: &[u8]) -> Result<Tape, NoTape>
    ensures { IfOk result (λ tape. IsTapeOf tape line.now) }
{
    if is_blank(line) || line.len() > 0xffff_ffff {
        return Err(NoTape::Line);
    }
    let is_utf8 = std::str::from_utf8(line).is_ok();
    let marks = line_marks(alloc, line)?;
    match build(alloc, line, &marks, is_utf8, Framing::Lines) {
        Ok(tape) => Ok(tape),
        Err(_) => Err(NoTape::Line),
    }
}
