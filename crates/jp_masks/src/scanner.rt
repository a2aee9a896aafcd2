//! Reading a collection in one pass, piece by piece.

ghost use Rattle.std.specs.Prelude.{◌≡◌, ℕ, List, [], ◌+◌, ◌^◌, ◌<◌, ◌++◌, length, take, OnOk, OnErr};

use crate::block::scan_block;
use crate::framed::is_last_line;
use crate::lines::Marks;
use crate::one_line::{first_bits, split_blocks};
use crate::progress::Progress;
use jp_lanes::pad;
use jp_model::Framing;
use std::alloc::AllocError;

/// Finds the marks of all lines of a collection in one pass. It keeps at most one unfinished block.
#[derive(Clone, Copy, Drop)]
pub struct Scanner {
    progress: Progress,
    held: [u8; 64],
    held_len: usize,
    ghost short: { held_len < 64 },
    ghost fits: { progress.scanned + held_len < 2 ^ 32 },
}

impl Scanner {
    ghost use Rattle.jp_model.specs.declared.Framing.{Framing};
    ghost use Rattle.jp_masks.specs.declared.lines.Marks.{Marks};
    ghost use Rattle.jp_masks.specs.Found.{found, closed_at};
    ghost use Rattle.jp_masks.specs.Scanned.{HasScanned, AreAllOf, IsEmpty, IsUnchanged, IsAsBefore, Grows, bytes_fed, whole_blocks};

    /// A scanner at the start of a collection whose byte order mark was dropped.
    pub fn new(framing: Framing) -> Scanner
        ensures start { (sink : Marks) → IsEmpty sink → HasScanned framing [] result sink }
        ensures fed { bytes_fed result ≡ 0 }
    {
        Scanner {
            progress: Progress::new(framing),
            held: [0; 64],
            held_len: 0,
        }
    }

    /// Keeps bytes of a block that is not yet whole.
    fn hold(&mut self, bytes: &[u8])
        requires room { self.old.held_len + length bytes.now < 64 }
        requires fits { bytes_fed self.old + length bytes.now < 2 ^ 32 }
        ensures held { take self.new.held_len self.new.held ≡ take self.old.held_len self.old.held ++ bytes.now }
        ensures len { self.new.held_len ≡ self.old.held_len + length bytes.now }
        ensures progress { self.new.progress ≡ self.old.progress }
    {
        let from = self.held_len;
        self.held[from..from + bytes.len()].copy_from_slice(bytes);
        self.held_len = from + bytes.len();
    }

    /// The block that is held, with the bytes that make it whole.
    fn fill(&self, bytes: &[u8]) -> [u8; 64]
        requires { self.now.held_len + length bytes.now ≡ 64 }
        ensures { result ≡ take self.now.held_len self.now.held ++ bytes.now }
    {
        let mut block = self.held;
        block[self.held_len..].copy_from_slice(bytes);
        block
    }

    /// Takes in a piece. After an `Err` the scanner is of no use.
    fn take_in(&mut self, piece: &[u8], sink: &mut Marks) -> Result<(), AllocError>
        requires { bytes_fed self.old + length piece.now < 2 ^ 32 }
        ensures scanned { (framing : Framing) (text : List ℕ) → HasScanned framing text self.old sink.old
            → OnOk result (HasScanned framing (text ++ piece.now) self.new sink.new) }
        ensures fed { OnOk result (bytes_fed self.new ≡ bytes_fed self.old + length piece.now) }
        ensures grown { Grows sink.old sink.new }
    {
        let room = 64 - self.held_len;
        if piece.len() < room {
            self.hold(piece);
            return Ok(());
        }
        let (first, rest) = piece.split_at(room);
        let block = self.fill(first);
        self.progress.step(&block, sink)?;
        self.held_len = 0;
        let (blocks, rest) = split_blocks(rest);
        self.progress.scan_blocks(blocks, sink)?;
        self.hold(rest);
        Ok(())
    }

    /// Takes in a piece of the collection. The pieces may be cut anywhere. All lines whose end is in the whole
    /// blocks of 64 bytes that were fed so far are then among the marks.
    ///
    /// All pieces together have fewer than 2^32 bytes. After an `Err` the scanner and the marks are as before.
    pub fn feed(&mut self, piece: &[u8], sink: &mut Marks) -> Result<(), AllocError>
        requires { bytes_fed self.old + length piece.now < 2 ^ 32 }
        ensures scanned { (framing : Framing) (text : List ℕ) → HasScanned framing text self.old sink.old
            → OnOk result (HasScanned framing (text ++ piece.now) self.new sink.new) }
        ensures lines { (framing : Framing) (text : List ℕ) → HasScanned framing text self.old sink.old
            → OnOk result (found sink.new ≡ closed_at framing (whole_blocks (text ++ piece.now))) }
        ensures fed { OnOk result (bytes_fed self.new ≡ bytes_fed self.old + length piece.now) }
        ensures err { OnErr result (self.new ≡ self.old) }
        ensures err_sink { OnErr result (IsUnchanged sink.old sink.new) }
        ensures err_told { OnErr result (IsAsBefore sink.old sink.new) }
    {
        let before = *self;
        let (rows, positions, positions_before) = sink.sizes();
        let taken = self.take_in(piece, sink);
        if taken.is_err() {
            *self = before;
            sink.cut_back(rows, positions, positions_before);
        }
        taken
    }

    /// Takes in what is held, and ends the last line.
    fn last_block(&self, sink: &mut Marks) -> Result<(), AllocError>
        ensures all { (framing : Framing) (text : List ℕ) → HasScanned framing text self.now sink.old
            → OnOk result (AreAllOf framing text sink.new) }
        ensures grown { OnErr result (Grows sink.old sink.new) }
    {
        let framing = self.progress.framing;
        let base = self.progress.scanned;
        let block = pad(&self.held[..self.held_len]);
        let read = first_bits(self.held_len);
        let block_found = scan_block(&block, Some(framing), self.progress.carry);
        let start = sink.add_block(
            framing,
            base,
            self.progress.start,
            block_found.marks & read,
            block_found.ends & read,
        )?;
        let end = base + self.held_len as u32;
        sink.close(is_last_line(framing, start, end), start, end)?;
        let mut validity = self.progress.validity;
        validity.step(&block);
        sink.tell_utf8(validity.finish());
        Ok(())
    }

    /// Ends the collection: the marks are then those of all its lines. The scanner is as new, for another collection of
    /// the same framing and other marks.
    ///
    /// After an `Err` the scanner and the marks are as before.
    pub fn finish(&mut self, sink: &mut Marks) -> Result<(), AllocError>
        ensures all { (framing : Framing) (text : List ℕ) → HasScanned framing text self.old sink.old
            → OnOk result (AreAllOf framing text sink.new) }
        ensures again { (framing : Framing) (text : List ℕ) → HasScanned framing text self.old sink.old
            → OnOk result ((empty : Marks) → IsEmpty empty → HasScanned framing [] self.new empty) }
        ensures fed { OnOk result (bytes_fed self.new ≡ 0) }
        ensures err { OnErr result (self.new ≡ self.old) }
        ensures err_sink { OnErr result (IsUnchanged sink.old sink.new) }
        ensures err_told { OnErr result (IsAsBefore sink.old sink.new) }
    {
        let (rows, positions, positions_before) = sink.sizes();
        let done = self.last_block(sink);
        if done.is_err() {
            sink.cut_back(rows, positions, positions_before);
        } else {
            *self = Scanner::new(self.progress.framing);
        }
        done
    }
}
