//! The lines of an index in order of their keys, kept in chunks.

ghost use Rattle.std.specs.Prelude.{◌≡◌, ℕ, ◌+◌, ◌-◌, ◌<◌, ◌≤◌, true, false, List, [], ◌∷◌, ◌++◌, All, Contains, IfOk, MatchOption, OnOk, length, filter, insert, remove, take, drop, vec_len, vec_capacity};
ghost use Rattle.std.specs.Option.{ForSome, is_some};
ghost use Rattle.std.specs.List.Sorted.{IsPartitionPoint};
ghost use Rattle.std.specs.Ordering.{is_le};
ghost use Rattle.std.specs.declared.cmp.Ordering.TheVariants.{Less};
ghost use Rattle.jp_syntax.specs.View.{op_view};
ghost use Rattle.jp_index.specs.ByKey.{line_order, Ascend, AreByKey, but};
ghost use Rattle.jp_index.specs.Cells.{key_at};
ghost use Rattle.jp_index.specs.Chunks.{IsChunk, IsSpare, begins_by, chunk_at, lines_before, lines_behind, lines_in, with_chunk};
ghost use Rattle.jp_index.specs.Edges.{in_front, is_between};

use crate::comparing::{compare_lines, is_in_front, key_of_line};
use crate::edge::Edge;
use crate::order::{find_line, position_of, run_of};
use crate::slot::Slot;
use jp_syntax::CompareOp;
use jp_values::Key;
use std::alloc::{AllocError, Global};

/// The number of lines that a chunk has room for. It holds fewer.
const CHUNK: usize = 512;

/// Lines in order of key and line. What moves when one is put in or taken out is one chunk, and the list of chunks where a
/// chunk is split or is empty.
#[derive(Drop)]
pub(crate) struct Order {
    /// Their lines one after another are in order. No chunk is empty.
    chunks: Vec<Vec<u32>>,
    /// A chunk without a line, which takes half of one that is full.
    spare: Option<Vec<u32>>,
    ghost each: { All IsChunk chunks.items },
    ghost empty: { ForSome spare IsSpare },
}

/// Whether a chunk begins with a line that comes before another, or with that line.
fn begins_before(cells: &[Option<Slot>], chunk: &[u32], line: u32) -> bool
    ensures { result ≡ begins_by (λ a. is_le (line_order (key_at cells.now) a line)) chunk.now }
{
    match chunk.first() {
        Some(first) => compare_lines(cells, *first, line).is_le(),
        None => false,
    }
}

/// Whether a chunk begins in front of an edge of a key.
fn begins_in_front(cells: &[Option<Slot>], chunk: &[u32], edge: Edge, key: &Key) -> bool
    ensures { result ≡ begins_by (λ a. in_front edge (key_at cells.now a) key.now) chunk.now }
{
    match chunk.first() {
        Some(first) => is_in_front(cells, *first, edge, key),
        None => false,
    }
}

/// The chunk that a line is in, or is to be put in: the last one that begins with it or before it, or the first.
fn chunk_of(cells: &[Option<Slot>], chunks: &[Vec<u32>], line: u32) -> usize
    requires { All IsChunk chunks.now }
    ensures within { 1 ≤ length chunks.now → result < length chunks.now }
    ensures before { Ascend (key_at cells.now) (lines_in chunks.now) → All (λ a. line_order (key_at cells.now) a line ≡ Less) (lines_before chunks.now result) }
    ensures behind { Ascend (key_at cells.now) (lines_in chunks.now) → All (λ a. line_order (key_at cells.now) line a ≡ Less) (lines_behind chunks.now result) }
{
    chunks
        .partition_point(|chunk| begins_before(cells, chunk, line))
        .saturating_sub(1)
}

/// How many chunks begin in front of an edge of a key.
fn chunks_in_front(cells: &[Option<Slot>], chunks: &[Vec<u32>], edge: Edge, key: &Key) -> usize
    requires { All IsChunk chunks.now }
    ensures within { result ≤ length chunks.now }
    ensures before { Ascend (key_at cells.now) (lines_in chunks.now) → (n : ℕ) → n ≤ result - 1 → All (λ a. in_front edge (key_at cells.now a) key.now ≡ true) (lines_in (take n chunks.now)) }
    ensures behind { Ascend (key_at cells.now) (lines_in chunks.now) → All (λ a. in_front edge (key_at cells.now a) key.now ≡ false) (lines_in (drop result chunks.now)) }
{
    chunks.partition_point(|chunk| begins_in_front(cells, chunk, edge, key))
}

/// Takes out a line by its position in a chunk, and the chunk where it was the only one.
fn remove_at(chunks: &mut Vec<Vec<u32>>, at: usize, position: usize)
    requires each { All IsChunk chunks.old.items }
    requires at { at < length chunks.old.items }
    requires position { position < length (chunk_at chunks.old.items at) }
    ensures lines { lines_in chunks.new.items ≡ with_chunk chunks.old.items at (remove (chunk_at chunks.old.items at) position) }
    ensures each { All IsChunk chunks.new.items }
    ensures room { vec_len chunks.old < vec_capacity chunks.old → vec_len chunks.new < vec_capacity chunks.new }
{
    chunks[at].remove(position);
    if chunks[at].is_empty() {
        chunks.remove(at);
    }
}

/// Moves the later half of a full chunk to an empty one.
fn split(chunk: &mut Vec<u32>, upper: &mut Vec<u32>)
    requires full { vec_len chunk.old ≡ CHUNK }
    requires most { 512 ≤ vec_capacity chunk.old }
    requires spare { IsSpare upper.old }
    ensures lines { chunk.new.items ++ upper.new.items ≡ chunk.old.items }
    ensures chunk { IsChunk chunk.new }
    ensures upper { IsChunk upper.new }
{
    let _ = upper.extend_from_slice(&chunk[CHUNK / 2..]);
    chunk.truncate(CHUNK / 2);
}

/// Puts a line into a chunk. Where that is then full, its later half is moved to the spare chunk and answered.
fn insert_at(
    chunk: &mut Vec<u32>,
    spare: &mut Option<Vec<u32>>,
    position: usize,
    line: u32,
) -> Option<Vec<u32>>
    requires chunk { IsChunk chunk.old }
    requires position { position ≤ length chunk.old.items }
    requires is_spare { ForSome spare.old IsSpare }
    requires has_spare { is_some spare.old ≡ true }
    ensures lines { MatchOption result
        (chunk.new.items ≡ insert chunk.old.items position line)
        (λ upper. (chunk.new.items ++ upper.items ≡ insert chunk.old.items position line) × IsChunk upper) }
    ensures chunk { IsChunk chunk.new }
    ensures is_spare { ForSome spare.new IsSpare }
{
    let _ = chunk.insert(position, line);
    if chunk.len() < CHUNK {
        return None;
    }
    let mut upper = spare.take()?;
    split(chunk, &mut upper);
    Some(upper)
}

/// A chunk of some lines.
fn chunk_of_lines(alloc: Global, lines: &[u32]) -> Result<Vec<u32>, AllocError>
    requires some { 1 ≤ length lines.now }
    requires few { length lines.now < CHUNK }
    ensures lines { IfOk result (λ chunk. chunk.items ≡ lines.now) }
    ensures chunk { IfOk result IsChunk }
{
    let mut chunk = Vec::with_capacity(alloc, CHUNK)?;
    chunk.extend_from_slice(lines)?;
    Ok(chunk)
}

/// Those of the lines of some chunks whose keys compare so with a key, in order.
fn runs_of(
    alloc: Global,
    cells: &[Option<Slot>],
    chunks: &[Vec<u32>],
    op: CompareOp,
    key: &Key,
) -> Result<Vec<u32>, AllocError>
    ensures { Ascend (key_at cells.now) (lines_in chunks.now)
        → IfOk result (λ lines. lines.items ≡ filter (λ a. is_between (op_view op) (key_at cells.now a) key.now) (lines_in chunks.now)) }
{
    let mut lines = Vec::new(alloc);
    for chunk in chunks {
        lines.extend_from_slice(run_of(cells, chunk, op, key))?;
    }
    Ok(lines)
}

impl Order {
    ghost use Rattle.jp_index.specs.Orders.{HasGrownByOne, HasSpare, lines_of};

    /// No line. It allocates nothing.
    pub(crate) fn new(alloc: Global) -> Order
        ensures { lines_of result ≡ [] }
    {
        Order {
            chunks: Vec::new(alloc),
            spare: None,
        }
    }

    /// Lines that are in order already, in chunks with room for one line more.
    pub(crate) fn from_sorted(alloc: Global, lines: &[u32]) -> Result<Order, AllocError>
        ensures { IfOk result (λ order. lines_of order ≡ lines.now) }
    {
        let mut chunks = Vec::new(alloc);
        let mut start = 0;
        while start < lines.len() {
            let end = lines.len().min(start + (CHUNK - 1));
            chunks.push(chunk_of_lines(alloc, &lines[start..end])?)?;
            start = end;
        }
        Ok(Order {
            chunks,
            spare: None,
        })
    }

    /// Makes room for one line more: a spare chunk, and room for it in the list. The lines stay, also after an `Err`.
    pub(crate) fn reserve(&mut self) -> Result<(), AllocError>
        ensures lines { lines_of self.new ≡ lines_of self.old }
        ensures room { OnOk result (HasSpare self.new) }
        ensures little { HasGrownByOne self.old self.new }
    {
        self.chunks.reserve_exact(1)?;
        if self.spare.is_none() {
            let alloc = *self.chunks.allocator();
            self.spare = Some(Vec::with_capacity(alloc, CHUNK)?);
        }
        Ok(())
    }

    /// Takes a line out, where it is there. It allocates nothing.
    pub(crate) fn take(&mut self, cells: &[Option<Slot>], line: u32)
        ensures lines { AreByKey (key_at cells.now) (lines_of self.old) → AreByKey (but line (key_at cells.now)) (lines_of self.new) }
        ensures room { HasSpare self.old → HasSpare self.new }
    {
        let at = chunk_of(cells, &self.chunks, line);
        if at < self.chunks.len() {
            if let Some(position) = find_line(cells, &self.chunks[at], line) {
                remove_at(&mut self.chunks, at, position);
            }
        }
    }

    /// Puts a line where it belongs, if it has a key. It allocates nothing.
    pub(crate) fn put(&mut self, cells: &[Option<Slot>], line: u32)
        requires { HasSpare self.old }
        ensures { AreByKey (but line (key_at cells.now)) (lines_of self.old) → AreByKey (key_at cells.now) (lines_of self.new) }
    {
        if key_of_line(cells, line).is_none() {
            return;
        }
        if self.chunks.is_empty() {
            return self.open(line);
        }
        let at = chunk_of(cells, &self.chunks, line);
        let position = position_of(cells, &self.chunks[at], line);
        self.insert(at, position, line);
    }

    /// Puts a line at a position of a chunk.
    fn insert(&mut self, at: usize, position: usize, line: u32)
        requires spare { HasSpare self.old }
        requires at { at < length self.old.chunks.items }
        requires position { position ≤ length (chunk_at self.old.chunks.items at) }
        ensures { lines_of self.new ≡ with_chunk self.old.chunks.items at (insert (chunk_at self.old.chunks.items at) position line) }
    {
        if let Some(upper) = insert_at(&mut self.chunks[at], &mut self.spare, position, line) {
            let _ = self.chunks.insert(at + 1, upper);
        }
    }

    /// Begins the first chunk.
    fn open(&mut self, line: u32)
        requires spare { HasSpare self.old }
        requires none { self.old.chunks.items ≡ [] }
        ensures { lines_of self.new ≡ line ∷ [] }
    {
        if let Some(mut chunk) = self.spare.take() {
            let _ = chunk.push(line);
            let _ = self.chunks.push(chunk);
        }
    }

    /// The lines whose keys compare so with a key, in order.
    pub(crate) fn run(
        &self,
        alloc: Global,
        cells: &[Option<Slot>],
        op: CompareOp,
        key: &Key,
    ) -> Result<Vec<u32>, AllocError>
        ensures { Ascend (key_at cells.now) (lines_of self.now)
            → IfOk result (λ lines. lines.items ≡ filter (λ a. is_between (op_view op) (key_at cells.now a) key.now) (lines_of self.now)) }
    {
        let start = chunks_in_front(cells, &self.chunks, Edge::start(op), key).saturating_sub(1);
        let end = chunks_in_front(cells, &self.chunks, Edge::end(op), key);
        runs_of(alloc, cells, &self.chunks[start.min(end)..end], op, key)
    }
}
