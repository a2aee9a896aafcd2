//! The marks of one line.

ghost use Rattle.std.specs.Prelude.{◌≡◌, ℕ, ◌+◌, ◌*◌, ◌^◌, ◌<◌, ◌≤◌, true, List, ◌++◌, map, length, flat_map, nat_lt, IfOk, OnOk};
ghost use Rattle.jp_model.specs.Json.Marks.{marks};
ghost use Rattle.jp_model.specs.Json.Spelling.{Text};
ghost use Rattle.jp_model.specs.Json.Tree.{Tree};
ghost use Rattle.jp_masks.specs.Tokens.{tokens};
ghost use Rattle.jp_lanes.specs.Word.{bit, Says};
ghost use Rattle.jp_masks.specs.OneLine.{HasMarked};
ghost use Rattle.jp_masks.specs.Positions.{set_bits};

use crate::block::{BLOCK, Carry, scan_block};
use arrayvec::ArrayVec;
use jp_lanes::pad;
use std::alloc::{AllocError, Global};

/// The whole blocks at the front, and the bytes after them.
pub fn split_blocks(bytes: &[u8]) -> (&[[u8; 64]], &[u8])
    ensures all { flat_map (λ b. b) result.0.now ++ result.1.now ≡ bytes.now }
    ensures count { 64 * length result.0.now + length result.1.now ≡ length bytes.now }
    ensures short { length result.1.now < 64 }
{
    bytes.as_chunks::<64>()
}

/// The bits of the first bytes of a block.
pub fn first_bits(count: usize) -> u64
    requires { count < 64 }
    ensures { Says result (λ i. nat_lt i count) }
{
    (1 << count) - 1
}

/// The positions of the marks of a block that begins at `base`, ascending.
fn block_positions(base: u32, marks: u64) -> ArrayVec<u32, BLOCK>
    requires { (i : ℕ) → i < 64 → bit marks i ≡ true → base + i < 2 ^ 32 }
    ensures { result.items ≡ map (λ i. base + i) (set_bits marks) }
{
    let mut positions = ArrayVec::new();
    let mut rest = marks;
    while rest != 0 {
        positions.push(base + rest.trailing_zeros());
        rest &= rest - 1;
    }
    positions
}

/// Adds the marks of a whole block that begins at `base`, and returns what is known after it.
fn mark_block(
    positions: &mut Vec<u32>,
    base: u32,
    known: Carry,
    block: &[u8; 64],
) -> Result<Carry, AllocError>
    requires { base + 64 ≤ 2 ^ 32 }
    ensures { (read : List ℕ) → HasMarked read positions.old.items known base
        → IfOk result (λ next. HasMarked (read ++ block.now) positions.new.items next (base + 64)) }
{
    let found = scan_block(block, None, known);
    positions.extend_from_slice(&block_positions(base, found.marks))?;
    Ok(found.next)
}

/// Finds the positions of the marks of one line, ascending, in the room of positions that are forgotten. They are those that
/// `line_marks` gives.
///
/// # Errors
///
/// Memory ran out.
pub fn find_line_marks(line: &[u8], positions: &mut Vec<u32>) -> Result<(), AllocError>
    requires { length line.now < 2 ^ 32 }
    ensures marks { OnOk result (positions.new.items ≡ marks line.now) }
    ensures tokens { (t : Tree) (text : Text line.now t) → OnOk result (positions.new.items ≡ tokens line.now t text.value) }
{
    let (blocks, rest) = split_blocks(line);
    positions.clear();
    let mut known = Carry::START;
    let mut base = 0;
    for block in blocks {
        known = mark_block(positions, base, known, block)?;
        base += 64;
    }
    let found = scan_block(&pad(rest), None, known);
    let last = found.marks & first_bits(rest.len());
    positions.extend_from_slice(&block_positions(base, last))?;
    Ok(())
}

/// The positions of the marks of one line, ascending: its unescaped quotes, and outside of strings each structural byte
/// and each byte that begins another token. They are defined for every list of bytes, a JSON text or not; of a JSON text
/// they are the first bytes of its tokens and the closing quotes of its strings and names (RFC 8259, section 2). A line
/// feed counts as white space.
pub fn line_marks(alloc: Global, line: &[u8]) -> Result<Vec<u32>, AllocError>
    requires { length line.now < 2 ^ 32 }
    ensures marks { IfOk result (λ found. found.items ≡ marks line.now) }
    ensures tokens { (t : Tree) (text : Text line.now t) → IfOk result (λ found. found.items ≡ tokens line.now t text.value) }
{
    let mut positions = Vec::new(alloc);
    find_line_marks(line, &mut positions)?;
    Ok(positions)
}
