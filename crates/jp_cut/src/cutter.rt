//! The bytes of a stream that came, and the pieces that they are cut into.

ghost use Rattle.std.specs.Prelude.{◌≡◌, true, false, ◌+◌, ◌-◌, ◌<◌, ◌≤◌, ◌^◌, ◌++◌, ℕ, [], ◌∷◌, List, length, min, slice_range, OnErr, OnOk, IfNone, IfSome};
ghost use Rattle.jp_cut.specs.Cuts.{line_feeds_in};

use crate::front::may_become_mark;
use crate::machine::{Known, Pieces, Place, Turn, is_inside, nothing_open, step_on};
use crate::skipping::{BLOCK, pass_on};
use jp_lanes::classify;
use jp_model::without_byte_order_mark;
use memchr::memchr;
use std::alloc::{AllocError, Global};

/// Where a piece is among the bytes that are held, and what is known of it.
#[derive(Clone, Copy, Debug, PartialEq, Eq)]
pub struct PieceAt {
    pub start: usize,
    pub end: usize,
    /// Whether its end came.
    pub is_closed: bool,
    /// How many line feeds of the stream come before it, or 2^64 - 1 if they are more.
    pub line_feeds: u64,
}

/// How many line feeds are among a few bytes.
fn count_in_rest(bytes: &[u8]) -> usize
    ensures { result ≡ line_feeds_in bytes.now }
{
    bytes.iter().filter(|byte| **byte == b'\n').count()
}

/// How many line feeds are among some bytes, counted block by block.
fn count_in_blocks(bytes: &[u8]) -> usize
    ensures { result ≡ line_feeds_in bytes.now }
{
    let mut count = 0;
    let mut from = 0;
    while let Some(block) = bytes[from..].first_chunk::<BLOCK>() {
        count += classify(block).line_feed.count_ones() as usize;
        from += BLOCK;
    }
    count + count_in_rest(&bytes[from..])
}

/// How many line feeds are among some bytes. Most pieces have none.
fn count_line_feeds(bytes: &[u8]) -> usize
    ensures { result ≡ line_feeds_in bytes.now }
{
    match memchr(b'\n', bytes) {
        None => 0,
        Some(_) => count_in_blocks(bytes),
    }
}

/// Cuts a stream into pieces. It holds the bytes that are of no piece that was handed out and let go.
#[derive(Drop)]
pub struct Cutter {
    pieces: Pieces,
    known: Known,
    held: Vec<u8>,
    /// Where the open piece begins.
    start: usize,
    /// How many of the bytes that are held are cut.
    cut: usize,
    /// The line feeds before the open piece.
    line_feeds: u64,
    /// Whether a byte order mark may be at the front of what is held.
    is_front: bool,
    ghost order: { known.depth + start ≤ cut },
    ghost within: { cut ≤ length held.items },
    ghost front: { is_front ≡ true → cut ≡ 0 },
}

impl Cutter {
    ghost use Rattle.jp_cut.specs.Cuts.{AreFirst, Piece, pieces_come};
    ghost use Rattle.jp_cut.specs.declared.machine.Pieces.{Pieces};
    ghost use Rattle.jp_cut.specs.Holding.{EndsWith, GoesOn, HasCut, HasRead, IsHeld, IsSpent, bytes_at, held_len as held_by, uncut_len};
    ghost use Rattle.jp_cut.specs.Front.{may_become_mark as may_be_front_of_mark};

    /// At the front of a stream.
    pub fn new(alloc: Global, pieces: Pieces) -> Cutter
        ensures front { HasRead pieces [] [] result }
        ensures held { result.held.items ≡ [] }
    {
        Cutter {
            pieces,
            known: nothing_open(Place::Between),
            held: Vec::new(alloc),
            start: 0,
            cut: 0,
            line_feeds: 0,
            is_front: true,
        }
    }

    /// How many bytes are held that are of no piece that was handed out.
    pub fn held_len(&self) -> usize
        ensures { result ≡ held_by self.now }
    {
        self.held.len() - self.start
    }

    /// The bytes that are held. Those of pieces that were handed out are among them up to the next call of `hold`.
    pub fn held(&self) -> &[u8]
        ensures { result.now ≡ self.now.held.items }
    {
        &self.held
    }

    /// Lets go the bytes before the open piece.
    fn let_go(&mut self)
        ensures cut { (pieces : Pieces) (fed : List ℕ) (handed : List Piece) → HasCut pieces fed handed self.old
            → HasCut pieces fed handed self.new }
        ensures front { self.old.start ≡ 0 → self.new ≡ self.old }
        ensures start { self.new.start ≡ 0 }
        ensures is_front { self.new.is_front ≡ self.old.is_front }
        ensures held { held_by self.new ≡ held_by self.old }
    {
        if self.start == 0 {
            return;
        }
        let kept = self.held.len() - self.start;
        self.held.copy_within(self.start.., 0);
        self.cut -= self.start;
        self.start = 0;
        self.held.truncate(kept);
    }

    /// Takes in the next bytes of the stream. The pieces that were handed out are let go.
    ///
    /// After an `Err` it is as if they had not come. In each case no byte is held but those of pieces that are to come.
    pub fn hold(&mut self, bytes: &[u8]) -> Result<(), AllocError>
        ensures read { (pieces : Pieces) (stream : List ℕ) (handed : List Piece) → HasRead pieces stream handed self.old
            → OnOk result (HasRead pieces (stream ++ bytes.now) handed self.new) }
        ensures held { OnOk result (held_by self.new ≡ held_by self.old + length bytes.now) }
        ensures all { length self.new.held.items ≡ held_by self.new }
        ensures err { (pieces : Pieces) (stream : List ℕ) (handed : List Piece) → HasRead pieces stream handed self.old
            → OnErr result (HasRead pieces stream handed self.new) }
        ensures err_held { OnErr result (held_by self.new ≡ held_by self.old) }
    {
        self.let_go();
        self.held.extend_from_slice(bytes)
    }

    /// The open piece ended before a byte that is held.
    fn close(&mut self, end: usize) -> PieceAt
        requires front { self.old.is_front ≡ false }
        requires start { self.old.start ≤ end }
        requires order { self.old.known.depth + end ≤ self.old.cut }
        ensures result { result
            ≡ record { start = self.old.start; end = end; is_closed = true; line_feeds = self.old.line_feeds } }
        ensures line_feeds { self.new.line_feeds
            ≡ min (self.old.line_feeds + line_feeds_in (slice_range self.old.held.items self.old.start end)) (2 ^ 64 - 1) }
        ensures start { self.new.start ≡ end }
        ensures cut { self.new.cut ≡ self.old.cut }
        ensures held { self.new.held ≡ self.old.held }
        ensures known { self.new.known ≡ self.old.known }
        ensures pieces { self.new.pieces ≡ self.old.pieces }
        ensures is_front { self.new.is_front ≡ self.old.is_front }
    {
        let piece = PieceAt {
            start: self.start,
            end,
            is_closed: true,
            line_feeds: self.line_feeds,
        };
        let count = count_line_feeds(&self.held[self.start..end]);
        self.line_feeds = self.line_feeds.saturating_add(count as u64);
        self.start = end;
        piece
    }

    /// The byte that was taken in is of no piece.
    fn pass(&mut self, byte: u8)
        requires front { self.old.is_front ≡ false }
        requires none_open { self.old.known.depth ≡ 0 }
        ensures line_feeds { self.new.line_feeds ≡ min (self.old.line_feeds + line_feeds_in (byte ∷ [])) (2 ^ 64 - 1) }
        ensures start { self.new.start ≡ self.old.cut }
        ensures cut { self.new.cut ≡ self.old.cut }
        ensures held { self.new.held ≡ self.old.held }
        ensures known { self.new.known ≡ self.old.known }
        ensures pieces { self.new.pieces ≡ self.old.pieces }
        ensures is_front { self.new.is_front ≡ self.old.is_front }
    {
        self.line_feeds = self.line_feeds.saturating_add(u64::from(byte == b'\n'));
        self.start = self.cut;
    }

    /// Cuts the next byte that is held.
    fn take_in(&mut self) -> Option<PieceAt>
        requires within { self.old.cut < length self.old.held.items }
        requires front { self.old.is_front ≡ false }
        ensures read { (pieces : Pieces) (stream : List ℕ) (handed : List Piece) → HasRead pieces stream handed self.old
            → GoesOn pieces stream handed result self.new }
        ensures held { self.new.held ≡ self.old.held }
        ensures more { self.new.cut ≡ self.old.cut + 1 }
        ensures start { self.old.start ≤ self.new.start }
        ensures there { IfSome result (IsHeld self.new) }
        ensures few { IfSome result (λ piece. piece.end - piece.start ≤ held_by self.old) }
        ensures front { self.new.is_front ≡ false }
    {
        let end = self.cut;
        let byte = self.held[end];
        let done = step_on(self.pieces, self.known, byte);
        self.cut = end + 1;
        self.known = done.known;
        match done.turn {
            Turn::Kept => None,
            Turn::Passed => {
                self.pass(byte);
                None
            }
            Turn::Last => Some(self.close(end + 1)),
            Turn::Ended => {
                let piece = self.close(end);
                self.pass(byte);
                Some(piece)
            }
            Turn::EndedBefore => Some(self.close(end)),
        }
    }

    /// Passes over a byte order mark, if there is one at the front of the stream. Whether one is there can be told.
    fn pass_mark(&mut self)
        requires front { self.old.is_front ≡ true }
        requires told { may_be_front_of_mark self.old.held.items ≡ false }
        ensures read { (pieces : Pieces) (stream : List ℕ) (handed : List Piece) → HasRead pieces stream handed self.old
            → HasRead pieces stream handed self.new }
        ensures front { self.new.is_front ≡ false }
        ensures less { uncut_len self.new ≤ uncut_len self.old }
        ensures held { held_by self.new ≤ held_by self.old }
        ensures same { self.new.held ≡ self.old.held }
    {
        let kept = without_byte_order_mark(&self.held).len();
        self.is_front = false;
        self.known = nothing_open(Place::Between);
        self.cut = self.held.len() - kept;
        self.start = self.cut;
    }

    /// The next piece that ended, or `None` where no other ended in the bytes that came. Whatever comes, the pieces that were
    /// handed out are the first of the stream.
    pub fn next_piece(&mut self) -> Option<PieceAt>
        ensures read { (pieces : Pieces) (stream : List ℕ) (handed : List Piece) → HasRead pieces stream handed self.old
            → GoesOn pieces stream handed result self.new }
        ensures ended { (pieces : Pieces) (stream : List ℕ) (handed : List Piece) → HasRead pieces stream handed self.old
            → IfNone result (pieces_come pieces false stream ≡ handed) }
        ensures first { (pieces : Pieces) (stream more : List ℕ) (handed : List Piece) → HasRead pieces stream handed self.new
            → AreFirst pieces (stream ++ more) handed }
        ensures spent { IfNone result (IsSpent self.new) }
        ensures there { IfSome result (IsHeld self.new) }
        ensures few { IfSome result (λ piece. piece.end - piece.start ≤ held_by self.old) }
        ensures less { IfSome result (λ piece. uncut_len self.new < uncut_len self.old) }
        ensures held { held_by self.new ≤ held_by self.old }
        ensures same { self.new.held ≡ self.old.held }
    {
        if self.is_front {
            if may_become_mark(&self.held) {
                return None;
            }
            self.pass_mark();
        }
        self.next_behind_mark()
    }

    /// Passes over bytes that do not end the open piece.
    fn pass_over(&mut self)
        requires { self.old.is_front ≡ false }
        ensures read { (pieces : Pieces) (stream : List ℕ) (handed : List Piece) → HasRead pieces stream handed self.old
            → HasRead pieces stream handed self.new }
        ensures held { self.new.held ≡ self.old.held }
        ensures more { self.old.cut ≤ self.new.cut }
        ensures start { self.new.start ≡ self.old.start }
        ensures front { self.new.is_front ≡ false }
    {
        let passed = pass_on(self.pieces, self.known, &self.held[self.cut..]);
        self.cut += passed.len;
        self.known = passed.known;
    }

    /// Cuts bytes that are held, up to the end of a piece or of all.
    fn cut_on(&mut self) -> Option<PieceAt>
        requires within { self.old.cut < length self.old.held.items }
        requires front { self.old.is_front ≡ false }
        ensures read { (pieces : Pieces) (stream : List ℕ) (handed : List Piece) → HasRead pieces stream handed self.old
            → GoesOn pieces stream handed result self.new }
        ensures held { self.new.held ≡ self.old.held }
        ensures more { self.old.cut < self.new.cut }
        ensures start { self.old.start ≤ self.new.start }
        ensures there { IfSome result (IsHeld self.new) }
        ensures few { IfSome result (λ piece. piece.end - piece.start ≤ held_by self.old) }
        ensures front { self.new.is_front ≡ false }
    {
        self.pass_over();
        if self.cut == self.held.len() {
            return None;
        }
        self.take_in()
    }

    /// The next piece that ended, after the front of the stream.
    fn next_behind_mark(&mut self) -> Option<PieceAt>
        requires { self.old.is_front ≡ false }
        ensures read { (pieces : Pieces) (stream : List ℕ) (handed : List Piece) → HasRead pieces stream handed self.old
            → GoesOn pieces stream handed result self.new }
        ensures ended { (pieces : Pieces) (stream : List ℕ) (handed : List Piece) → HasRead pieces stream handed self.old
            → IfNone result (pieces_come pieces false stream ≡ handed) }
        ensures front { self.new.is_front ≡ false }
        ensures spent { IfNone result (self.new.cut ≡ length self.new.held.items) }
        ensures there { IfSome result (IsHeld self.new) }
        ensures few { IfSome result (λ piece. piece.end - piece.start ≤ held_by self.old) }
        ensures less { IfSome result (λ piece. uncut_len self.new < uncut_len self.old) }
        ensures held { held_by self.new ≤ held_by self.old }
        ensures same { self.new.held ≡ self.old.held }
    {
        while self.cut < self.held.len() {
            let piece = self.cut_on();
            if piece.is_some() {
                return piece;
            }
        }
        None
    }

    /// The text that the bytes of half a byte order mark are at the end of the stream.
    fn part_of_mark(&self) -> Option<PieceAt>
        requires front { self.now.is_front ≡ true }
        requires part { may_be_front_of_mark self.now.held.items ≡ true }
        ensures last { (pieces : Pieces) (stream : List ℕ) (handed : List Piece) → HasRead pieces stream handed self.now
            → EndsWith pieces stream handed result self.now }
        ensures there { IfSome result (IsHeld self.now) }
        ensures few { IfSome result (λ piece. piece.end - piece.start ≤ held_by self.now) }
    {
        if self.held.is_empty() {
            return None;
        }
        Some(PieceAt {
            start: 0,
            end: self.held.len(),
            is_closed: true,
            line_feeds: 0,
        })
    }

    /// The piece that the end of the stream ends, where `next_piece` answered that no other ended.
    pub fn last_piece(&self) -> Option<PieceAt>
        requires { IsSpent self.now }
        ensures last { (pieces : Pieces) (stream : List ℕ) (handed : List Piece) → HasRead pieces stream handed self.now
            → EndsWith pieces stream handed result self.now }
        ensures there { IfSome result (IsHeld self.now) }
        ensures few { IfSome result (λ piece. piece.end - piece.start ≤ held_by self.now) }
    {
        if self.is_front {
            return self.part_of_mark();
        }
        let is_closed = match self.known.place {
            Place::Between => return None,
            Place::Word => true,
            _ => false,
        };
        Some(PieceAt {
            start: self.start,
            end: self.cut,
            is_closed,
            line_feeds: self.line_feeds,
        })
    }

    /// The bytes of a piece, up to the next call of `hold`.
    pub fn bytes(&self, piece: PieceAt) -> &[u8]
        requires { IsHeld self.now piece }
        ensures { result.now ≡ bytes_at self.now piece }
    {
        &self.held[piece.start..piece.end]
    }
}
