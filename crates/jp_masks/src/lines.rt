//! The marks of all lines of a collection.

ghost use Rattle.std.specs.Prelude.{◌≡◌, ℕ, ◌+◌, ◌-◌, ◌^◌, ◌<◌, ◌≤◌, ◌++◌, [], true, map, take, bit_or, length, slice_get, slice_range, vec_len, vec_capacity, Some, IsTrue, ◌↔◌, IfOk, OnOk, OnErr};
ghost use Rattle.std.specs.Str.{IsUtf8};
ghost use Rattle.jp_model.specs.Json.Places.{bytes_between};
ghost use Rattle.jp_masks.specs.Rows.{rows_within};
ghost use Rattle.jp_masks.specs.Written.{written};

use crate::framed::is_line;
use crate::one_line::first_bits;
use crate::room::Positions;
use crate::row::Row;
use jp_model::{Framing, Span};
use std::alloc::{AllocError, Global};

/// One line of a collection: where it is, counted from the start of all pieces joined, and its marks, ascending and
/// counted from the start of the line.
#[derive(Clone, Copy, Drop)]
pub struct LineMarks<'a> {
    pub span: Span,
    pub positions: &'a [u32],
}

/// The lines that a scanner has found, with their marks.
#[derive(Drop)]
pub struct Marks {
    rows: Vec<Row>,
    positions: Positions,
    /// How many positions come before the line that is not yet ended.
    positions_before: usize,
    is_utf8: bool,
    ghost in_positions: { rows_within rows.items (length (written positions)) ≡ true },
    ghost in_order: { positions_before ≤ length (written positions) },
}

/// Whether the bytes of a span are UTF-8.
fn is_utf8_at(source: &[u8], span: Span) -> bool
    requires order { span.start ≤ span.end }
    requires within { span.end ≤ length source.now }
    ensures { IsTrue result ↔ IsUtf8 (bytes_between source.now span.start span.end) }
{
    simdutf8::basic::from_utf8(&source[span.start as usize..span.end as usize]).is_ok()
}

/// The items from a position up to another.
fn part(items: &[u32], from: usize, to: usize) -> &[u32]
    requires order { from ≤ to }
    requires within { to ≤ length items.now }
    ensures { result.now ≡ slice_range items.now from to }
{
    &items[from..to]
}

/// Makes room for one more row. Few lines find none.
#[inline(always)]
fn make_row_room(rows: &mut Vec<Row>) -> Result<(), AllocError>
    ensures same { rows.new.items ≡ rows.old.items }
    ensures room { OnOk result (vec_len rows.new < vec_capacity rows.new) }
{
    if rows.len() >= rows.capacity() {
        rows.reserve(1)?;
    }
    Ok(())
}

impl Marks {
    ghost use Rattle.jp_lanes.specs.Word.{bit};
    ghost use Rattle.jp_masks.specs.Positions.{set_bits};
    ghost use Rattle.jp_masks.specs.Found.{LineAt, found};
    ghost use Rattle.jp_masks.specs.Sinks.{row_if, add_positions};
    ghost use Rattle.jp_masks.specs.Scanned.{stored, IsEmpty, IsUnchanged, HasRoomOf, Grows, HasAllOf};

    /// No line. It allocates nothing yet.
    pub fn new(alloc: Global) -> Marks
        ensures empty { IsEmpty result }
        ensures none { found result ≡ [] }
    {
        Marks {
            rows: Vec::new(alloc),
            positions: Positions::new(alloc),
            positions_before: 0,
            is_utf8: false,
        }
    }

    /// Forgets all lines and keeps the memory, so that another collection may be scanned into it.
    pub fn clear(&mut self)
        ensures empty { IsEmpty self.new }
        ensures none { found self.new ≡ [] }
        ensures room { HasRoomOf self.old self.new }
    {
        self.rows.clear();
        self.positions.clear();
        self.positions_before = 0;
        self.is_utf8 = false;
    }

    /// How many lines were found.
    pub fn line_count(&self) -> usize
        ensures { result ≡ length (found self.now) }
    {
        self.rows.len()
    }

    /// Line k, counted from 0.
    pub fn line(&self, k: usize) -> LineMarks<'_>
        requires { k < length (found self.now) }
        ensures { slice_get (found self.now) k ≡ Some (record { start = result.span.start; end = result.span.end; positions = result.positions.now }) }
    {
        let row = self.rows[k];
        LineMarks {
            span: Span {
                start: row.start,
                end: row.end,
            },
            positions: part(
                self.positions.as_slice(),
                row.positions_start,
                row.positions_end,
            ),
        }
    }

    /// Whether line k alone is UTF-8. `source` is the collection that was fed, and its end has come.
    pub fn line_is_utf8(&self, source: &[u8], k: usize) -> bool
        requires source { HasAllOf source.now self.now }
        requires within { k < length (found self.now) }
        ensures { (line : LineAt) → slice_get (found self.now) k ≡ Some line
            → (IsTrue result ↔ IsUtf8 (bytes_between source.now line.start line.end)) }
    {
        if self.is_utf8 {
            return true;
        }
        let span = self.line(k).span;
        is_utf8_at(source, span)
    }

    /// How many rows and positions there are, and how many positions come before the open line.
    pub(crate) fn sizes(&self) -> (usize, usize, usize)
        ensures rows { result.0 ≡ length self.now.rows.items }
        ensures positions { result.1 ≡ length (written self.now.positions) }
        ensures before { result.2 ≡ self.now.positions_before }
    {
        (self.rows.len(), self.positions.len(), self.positions_before)
    }

    /// Leaves the first rows and positions, as they were.
    pub(crate) fn cut_back(&mut self, rows: usize, positions: usize, positions_before: usize)
        requires within { rows_within (take rows self.old.rows.items) positions ≡ true }
        requires there { positions ≤ length (written self.old.positions) }
        requires order { positions_before ≤ positions }
        ensures rows { self.new.rows.items ≡ take rows self.old.rows.items }
        ensures positions { written self.new.positions ≡ take positions (written self.old.positions) }
        ensures before { self.new.positions_before ≡ positions_before }
        ensures utf8 { self.new.is_utf8 ≡ self.old.is_utf8 }
    {
        self.rows.truncate(rows);
        self.positions.truncate(positions);
        self.positions_before = positions_before;
    }

    /// Reports whether all that was scanned is UTF-8.
    pub(crate) fn tell_utf8(&mut self, is_utf8: bool)
        ensures rows { self.new.rows ≡ self.old.rows }
        ensures positions { self.new.positions ≡ self.old.positions }
        ensures before { self.new.positions_before ≡ self.old.positions_before }
        ensures utf8 { self.new.is_utf8 ≡ is_utf8 }
    {
        self.is_utf8 = is_utf8;
    }

    /// Adds marks of a block that begins at `base`, all of the open line, which begins at `start`.
    fn add_marks(&mut self, base: u32, start: u32, marks: u64) -> Result<(), AllocError>
        requires fits { (i : ℕ) → i < 64 → bit marks i ≡ true → base + i < 2 ^ 32 }
        requires order { (i : ℕ) → i < 64 → bit marks i ≡ true → start ≤ base + i }
        ensures positions { OnOk result (written self.new.positions ≡ written self.old.positions ++ map (λ i. base + i - start) (set_bits marks)) }
        ensures rows { self.new.rows ≡ self.old.rows }
        ensures before { self.new.positions_before ≡ self.old.positions_before }
        ensures utf8 { self.new.is_utf8 ≡ self.old.is_utf8 }
        ensures err { OnErr result (IsUnchanged self.old self.new) }
    {
        self.positions.push_block(base, start, marks)
    }

    /// Keeps the open line, which ends at `end`.
    fn add_row(&mut self, start: u32, end: u32) -> Result<(), AllocError>
        ensures rows { OnOk result (self.new.rows.items ≡ self.old.rows.items
            ++ row_if true start end self.old.positions_before (length (written self.old.positions))) }
        ensures err { OnErr result (self.new.rows.items ≡ self.old.rows.items) }
        ensures positions { self.new.positions ≡ self.old.positions }
        ensures before { self.new.positions_before ≡ self.old.positions_before }
        ensures utf8 { self.new.is_utf8 ≡ self.old.is_utf8 }
    {
        let row = Row {
            start,
            end,
            positions_start: self.positions_before,
            positions_end: self.positions.len(),
        };
        make_row_room(&mut self.rows)?;
        self.rows.push_reserved(row);
        Ok(())
    }

    /// Ends the open line at `end`, and keeps it if it counts.
    pub(crate) fn close(&mut self, is_line: bool, start: u32, end: u32) -> Result<(), AllocError>
        ensures rows { OnOk result (self.new.rows.items ≡ self.old.rows.items
            ++ row_if is_line start end self.old.positions_before (length (written self.old.positions))) }
        ensures before { OnOk result (self.new.positions_before ≡ length (written self.old.positions)) }
        ensures positions { self.new.positions ≡ self.old.positions }
        ensures utf8 { self.new.is_utf8 ≡ self.old.is_utf8 }
        ensures err { OnErr result (IsUnchanged self.old self.new) }
    {
        if is_line {
            self.add_row(start, end)?;
        }
        self.positions_before = self.positions.len();
        Ok(())
    }

    /// Takes in the marks and the ends of lines of one block that begins at `base`, where the open line begins at
    /// `from`. It tells where the line that is open then begins.
    pub(crate) fn add_block(
        &mut self,
        framing: Framing,
        base: u32,
        from: u32,
        marks: u64,
        ends: u64,
    ) -> Result<u32, AllocError>
        requires fits { (i : ℕ) → i < 64 → bit (bit_or marks ends) i ≡ true → base + i + 1 < 2 ^ 32 }
        requires order { from ≤ base }
        ensures added { IfOk result (λ next. stored self.new.rows.items (written self.new.positions) self.new.positions_before next
            ≡ add_positions framing ends base (stored self.old.rows.items (written self.old.positions) self.old.positions_before from)
            (set_bits (bit_or marks ends))) }
        ensures order { IfOk result (λ next. next ≤ base + 64) }
        ensures grown { Grows self.old self.new }
    {
        let mut start = from;
        let mut later_marks = marks & !ends;
        let mut later_ends = ends;
        while later_ends != 0 {
            let position = later_ends.trailing_zeros();
            let below = first_bits(position as usize);
            let at = base + position;
            self.add_marks(base, start, later_marks & below)?;
            self.close(is_line(framing, start, at), start, at)?;
            start = at + 1;
            later_marks &= !below;
            later_ends &= later_ends - 1;
        }
        self.add_marks(base, start, later_marks)?;
        Ok(start)
    }
}
