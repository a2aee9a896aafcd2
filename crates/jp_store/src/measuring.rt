//! The counts of lines that were loaded.

ghost use Rattle.std.specs.Prelude.{ℕ, List, ◌<◌, ◌^◌, All, map, length, IfOk};
ghost use Rattle.jp_model.specs.declared.Framing.{Framing};
ghost use Rattle.jp_model.specs.Script.Machine.{bytes_held};
ghost use Rattle.jp_store.specs.Stored.{AreCounted};
ghost use Rattle.jp_lines.specs.Stored.{IsRead, stored_text};

use crate::counts::Counts;
use jp_index::LineSet;
use jp_lines::{Line, text_of};
use std::alloc::{AllocError, Global};

/// What is counted of all lines, by one pass over them.
pub(crate) fn measure(alloc: Global, bytes: &[u8], lines: &[Line]) -> Result<Counts, AllocError>
    requires few { length lines.now < 2 ^ 32 }
    requires room { bytes_held (map (stored_text bytes.now) lines.now) < 2 ^ 64 }
    requires read { (framing : Framing) × (tapes : List ℕ) × All (IsRead framing bytes.now tapes) lines.now }
    ensures { (framing : Framing) (tapes : List ℕ) → All (IsRead framing bytes.now tapes) lines.now
        → IfOk result (λ counts. AreCounted framing (map (stored_text bytes.now) lines.now) counts) }
{
    let mut refused = LineSet::new(alloc);
    refused.reserve(lines.len() as u32)?;
    let mut counts = Counts {
        held: 0,
        trees: 0,
        refused,
    };
    let mut number = 0;
    for line in lines {
        number += 1;
        let size = text_of(bytes, line).len() as u64 + 1;
        let held = counts.held + size;
        counts.change(held, number, false, line);
    }
    Ok(counts)
}
