//! The bytes of a stream that came, and are not answered yet.

ghost use Rattle.std.specs.Prelude.{◌≡◌, ◌+◌, ◌<◌, ◌≤◌, ◌^◌, ◌&&◌, ◌++◌, [], drop, length, ltb, take, true, IfErr, MatchBool, MatchOption, MatchResult, OnOk, false};
ghost use Rattle.jp_model.specs.Lines.{is_blank as is_blank_line, is_framed};
ghost use Rattle.jp_grep.specs.declared.fault.SearchFault.TheVariants as faults;
ghost use Rattle.jp_grep.specs.Cuts.{EndsBetween, HasNoEnd, text_of};
ghost use Rattle.jp_grep.specs.Faults.{is_front_fault, is_inner_fault};
ghost use Rattle.jp_grep.specs.Fronts.{AreRefused, IsUnframed, MayBeFramed, MayGoOn};

use crate::fault::SearchFault;
use crate::format::{LONGEST_MARK, begins_mark, format_of};
use jp_lines::{is_framed_text, separator};
use jp_model::{Framing, is_blank, without_byte_order_mark};
use memchr::memrchr;
use std::alloc::Global;

/// Where the last line ends that is whole among some bytes: after a line feed, or in front of the RS of the next text.
pub(crate) fn find_end(framing: Framing, piece: &[u8]) -> Option<usize>
    ensures { MatchOption result
        (HasNoEnd framing piece.now)
        (λ end. (end ≤ length piece.now) × EndsBetween framing (take end piece.now) (drop end piece.now)) }
{
    match memrchr(separator(framing), piece) {
        None => None,
        Some(position) => match framing {
            Framing::Lines => Some(position + 1),
            Framing::Sequence => Some(position),
        },
    }
}

/// The byte order mark in UTF-8.
const BYTE_ORDER_MARK: &[u8] = b"\xEF\xBB\xBF";

/// Whether the first bytes of a stream are framed, or may be with others after them.
fn may_be_framed(framing: Framing, bytes: &[u8]) -> bool
    ensures { MatchBool result (MayBeFramed framing bytes.now) (IsUnframed framing bytes.now) }
{
    BYTE_ORDER_MARK.starts_with(bytes) || is_framed_text(framing, bytes)
}

/// The bytes of a stream that came, and are not answered yet.
#[derive(Drop)]
pub(crate) struct Stream {
    pub(crate) framing: Framing,
    pub(crate) held: Vec<u8>,
    /// Whether no line was answered yet, so that the front of the stream is held.
    pub(crate) is_first: bool,
}

impl Stream {
    /// At its front.
    pub(crate) fn new(alloc: Global, framing: Framing) -> Stream
        ensures framing { result.framing ≡ framing }
        ensures held { result.held.items ≡ [] }
        ensures first { result.is_first ≡ true }
    {
        Stream {
            framing,
            held: Vec::new(alloc),
            is_first: true,
        }
    }

    /// Holds more bytes.
    ///
    /// # Errors
    ///
    /// `Size` where more than 4,294,967,295 bytes would be held, `Memory` if a growth was refused.
    pub(crate) fn hold(&mut self, bytes: &[u8]) -> Result<(), SearchFault>
        requires { length self.old.held.items < 2 ^ 32 }
        ensures held { OnOk result (self.new.held.items ≡ self.old.held.items ++ bytes.now) }
        ensures few { length self.new.held.items < 2 ^ 32 }
        ensures framing { self.new.framing ≡ self.old.framing }
        ensures first { self.new.is_first ≡ self.old.is_first }
        ensures fault { IfErr result (λ fault. is_inner_fault fault ≡ true) }
        ensures size { IfErr result (λ fault. fault ≡ faults.Size → 2 ^ 32 ≤ length self.old.held.items + length bytes.now) }
        ensures large { IfErr result (λ fault. 2 ^ 32 ≤ length self.old.held.items + length bytes.now → fault ≡ faults.Size) }
    {
        if u32::MAX as usize - self.held.len() < bytes.len() {
            return Err(SearchFault::Size);
        }
        match self.held.extend_from_slice(bytes) {
            Ok(()) => Ok(()),
            Err(_) => Err(SearchFault::Memory),
        }
    }

    /// The bytes up to an end of a line, without a byte order mark at the front of the stream.
    pub(crate) fn text_until(&self, end: usize) -> &[u8]
        requires { end ≤ length self.now.held.items }
        ensures { result.now ≡ text_of self.now.is_first (take end self.now.held.items) }
    {
        let text = &self.held[..end];
        if self.is_first {
            without_byte_order_mark(text)
        } else {
            text
        }
    }

    /// Whether the bytes that came last leave it open whether the front of a sequence is framed: they are white space after
    /// more bytes than the longest mark has. So the front is not looked at again and again.
    fn is_blank_behind(&self, from: usize) -> bool
        requires { from ≤ length self.now.held.items }
        ensures { result ≡ (ltb 10 from && is_blank_line (drop from self.now.held.items)) }
    {
        from > LONGEST_MARK && is_blank(&self.held[from..])
    }

    /// Refuses the stream as a whole by its first bytes, where these tell it whatever follows. Before the bytes that came last
    /// they did not; there were `from` of them.
    ///
    /// # Errors
    ///
    /// `Foreign` where the bytes begin with the mark of another format; `Framing` where they are no beginning of one, and bytes
    /// other than white space stand before the first separator of a sequence.
    pub(crate) fn check_front(&self, from: usize) -> Result<(), SearchFault>
        requires within { from ≤ length self.now.held.items }
        requires before { self.now.is_first ≡ true → MayGoOn self.now.framing (take from self.now.held.items) }
        requires unended { self.now.is_first ≡ true → HasNoEnd self.now.framing (take from self.now.held.items) }
        ensures { MatchResult result
            (λ _. self.now.is_first ≡ true → MayGoOn self.now.framing self.now.held.items)
            (λ fault. (self.now.is_first ≡ true) × AreRefused self.now.framing self.now.held.items fault × (is_front_fault fault ≡ true)) }
    {
        if !self.is_first {
            return Ok(());
        }
        if let Some(format) = format_of(&self.held) {
            return Err(SearchFault::Foreign(format));
        }
        let goes_on = self.is_blank_behind(from)
            || begins_mark(&self.held)
            || may_be_framed(self.framing, &self.held);
        if goes_on {
            return Ok(());
        }
        Err(SearchFault::Framing)
    }

    /// Refuses a sequence that has ended and is not framed.
    ///
    /// # Errors
    ///
    /// `Framing` where bytes other than white space stand before the first separator.
    pub(crate) fn check_end(&self) -> Result<(), SearchFault>
        ensures { MatchResult result
            (λ _. self.now.is_first ≡ true → is_framed self.now.framing self.now.held.items ≡ true)
            (λ fault. (fault ≡ faults.Framing) × (self.now.is_first ≡ true) × (is_framed self.now.framing self.now.held.items ≡ false)) }
    {
        if self.is_first && !is_framed_text(self.framing, &self.held) {
            return Err(SearchFault::Framing);
        }
        Ok(())
    }

    /// Lets go what is answered, up to an end of a line: the bytes after it move to the front.
    pub(crate) fn let_go(&mut self, end: usize)
        requires { end ≤ length self.old.held.items }
        ensures held { self.new.held.items ≡ drop end self.old.held.items }
        ensures framing { self.new.framing ≡ self.old.framing }
        ensures first { self.new.is_first ≡ false }
    {
        let rest = self.held.len() - end;
        self.held.copy_within(end.., 0);
        self.held.truncate(rest);
        self.is_first = false;
    }
}
