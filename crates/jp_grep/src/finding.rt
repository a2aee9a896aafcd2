//! The pieces of a stream, found as its bytes come.

ghost use Rattle.std.specs.Prelude.{◌≡◌, ◌+◌, ◌<◌, ◌≤◌, ◌^◌, ◌++◌, ◌∷◌, [], All, List, ℕ, IfErr, MatchResult, OnOk, false, length, true};
ghost use Rattle.jp_cut.specs.Cuts.{Piece};
ghost use Rattle.jp_cut.specs.Holding.{HasRead, IsHeld, IsSpent, held_len};
ghost use Rattle.jp_cut.specs.declared.machine.Pieces.{Pieces};
ghost use Rattle.jp_grep.specs.Faults.{IsOfNoDevice, is_inner_fault};
ghost use Rattle.jp_grep.specs.Finding.{FindsEnded, FindsLast, RefusesFront};
ghost use Rattle.jp_grep.specs.Sizes.{held_in};
ghost use Rattle.jp_grep.specs.Stands.{IsAnswered, IsTaken};
ghost use Rattle.jp_grep.specs.declared.fault.SearchFault.TheVariants as faults;
ghost use Rattle.jp_grep.specs.declared.source.Source.TheVariants as sources;

use crate::cutting::Cutting;
use crate::fault::SearchFault;
use crate::format::{begins_mark, format_of};
use jp_cut::{Cutter, PieceAt, Pieces};
use std::alloc::Global;

/// Holds more bytes of a stream.
///
/// # Errors
///
/// `Size` where more than 4,294,967,295 bytes would be held, `Memory` if a growth was refused.
fn hold(cutter: &mut Cutter, bytes: &[u8]) -> Result<(), SearchFault>
    requires { length cutter.old.held.items < 2 ^ 32 }
    ensures read { (pieces : Pieces) (stream : List ℕ) (handed : List Piece) → HasRead pieces stream handed cutter.old
        → OnOk result (HasRead pieces (stream ++ bytes.now) handed cutter.new) }
    ensures few { length cutter.new.held.items < 2 ^ 32 }
    ensures fault { IfErr result (λ fault. is_inner_fault fault ≡ true) }
    ensures size { IfErr result (λ fault. fault ≡ faults.Size → 2 ^ 32 ≤ held_len cutter.old + length bytes.now) }
    ensures large { IfErr result (λ fault. 2 ^ 32 ≤ held_len cutter.old + length bytes.now → fault ≡ faults.Size) }
{
    if u32::MAX as usize - cutter.held_len() < bytes.len() {
        return Err(SearchFault::Size);
    }
    match cutter.hold(bytes) {
        Ok(()) => Ok(()),
        Err(_) => Err(SearchFault::Memory),
    }
}

impl Cutting {
    /// At the front of a stream.
    pub(crate) fn new(alloc: Global, pieces: Pieces) -> Cutting
        ensures { IsAnswered pieces [] result [] result.is_first }
    {
        Cutting {
            cutter: Cutter::new(alloc, pieces),
            front: Vec::new(alloc),
            is_first: true,
            pieces: Vec::new(alloc),
        }
    }

    /// Cuts on from the front of the stream, which is no mark of another format.
    fn pass_front(&mut self) -> Result<(), SearchFault>
        ensures read { (pieces : Pieces) → HasRead pieces [] [] self.old.cutter → OnOk result (HasRead pieces self.old.front.items [] self.new.cutter) }
        ensures is_first { self.new.is_first ≡ false }
        ensures fault { IfErr result (λ fault. is_inner_fault fault ≡ true) }
        ensures size { IfErr result (λ fault. fault ≡ faults.Size → 2 ^ 32 ≤ held_len self.old.cutter + length self.old.front.items) }
    {
        self.is_first = false;
        hold(&mut self.cutter, &self.front)
    }

    /// Takes in the next bytes of the stream.
    ///
    /// # Errors
    ///
    /// `Foreign` where the stream begins with the mark of another format, `Size` where more than 4,294,967,295 bytes would be
    /// held, `Memory` if a growth was refused.
    pub(crate) fn take_in(&mut self, bytes: &[u8]) -> Result<(), SearchFault>
        ensures taken { (pieces : Pieces) (came : List ℕ) (handed : List Piece) → IsAnswered pieces came self.old handed self.old.is_first
            → MatchResult result
            (λ _. IsTaken pieces (came ++ bytes.now) self.new handed self.new.is_first)
            (λ fault. RefusesFront came bytes.now handed fault) }
        ensures fault { IfErr result IsOfNoDevice }
        ensures size { IfErr result (λ fault. fault ≡ faults.Size → 2 ^ 32 ≤ held_in (sources.Pieces self.old) + length bytes.now) }
    {
        if !self.is_first {
            return hold(&mut self.cutter, bytes);
        }
        if self.front.extend_from_slice(bytes).is_err() {
            return Err(SearchFault::Memory);
        }
        if let Some(format) = format_of(&self.front) {
            return Err(SearchFault::Foreign(format));
        }
        if begins_mark(&self.front) {
            return Ok(());
        }
        self.pass_front()
    }

    /// Notes a piece that ended.
    fn note(&mut self, piece: PieceAt) -> Result<(), SearchFault>
        ensures noted { OnOk result (self.new.pieces.items ≡ self.old.pieces.items ++ piece ∷ []) }
        ensures cutter { self.new.cutter ≡ self.old.cutter }
        ensures is_first { self.new.is_first ≡ self.old.is_first }
        ensures fault { IfErr result (λ fault. fault ≡ faults.Memory) }
    {
        match self.pieces.push(piece) {
            Ok(()) => Ok(()),
            Err(_) => Err(SearchFault::Memory),
        }
    }

    /// Notes the pieces that ended in the bytes that came, in place of those before them.
    pub(crate) fn find_ended(&mut self) -> Result<(), SearchFault>
        ensures found { (pieces : Pieces) (stream : List ℕ) (handed : List Piece) → HasRead pieces stream handed self.old.cutter
            → OnOk result (FindsEnded pieces stream handed self.new) }
        ensures held { OnOk result (All (IsHeld self.new.cutter) self.new.pieces.items) }
        ensures spent { OnOk result (IsSpent self.new.cutter) }
        ensures is_first { self.new.is_first ≡ self.old.is_first }
        ensures fault { IfErr result (λ fault. fault ≡ faults.Memory) }
    {
        self.pieces.clear();
        while let Some(piece) = self.cutter.next_piece() {
            self.note(piece)?;
        }
        Ok(())
    }

    /// Notes the pieces that the end of the stream leaves.
    pub(crate) fn find_last(&mut self) -> Result<(), SearchFault>
        ensures found { (pieces : Pieces) (came : List ℕ) (handed : List Piece) → IsAnswered pieces came self.old handed self.old.is_first
            → OnOk result (FindsLast pieces came handed self.new) }
        ensures held { OnOk result (All (IsHeld self.new.cutter) self.new.pieces.items) }
        ensures fault { IfErr result (λ fault. is_inner_fault fault ≡ true) }
        ensures size { IfErr result (λ fault. fault ≡ faults.Size → 2 ^ 32 ≤ held_in (sources.Pieces self.old)) }
    {
        if self.is_first {
            self.pass_front()?;
        }
        self.find_ended()?;
        match self.cutter.last_piece() {
            Some(piece) => self.note(piece),
            None => Ok(()),
        }
    }
}
