//! The text of what a search tells, on its way to a writer.

ghost use Rattle.std.specs.Prelude.{◌≡◌, ◌++◌, ◌||◌, [], List, OnOk, false, is_err, not, true};
ghost use Rattle.jp_devices.specs.Devices.{Begins, Device};
ghost use Rattle.jp_sink.specs.Events.{Event, text_of};
ghost use Rattle.jp_sink.specs.Texts.{WritesOn, is_unflushed, written};

use crate::{Sink, Untold};
use jp_devices::{Watched, flush_written, write_whole};
use jp_nodes::Cursor;
use std::alloc::Global;
use std::io::Write;

/// The bytes that are held at most.
const MOST: usize = 65_536;

/// Writes the text of what it is told. It holds up to 65,536 bytes, since a write costs as much as many short rows. It wants no
/// memory: what cannot be held is written at once.
#[derive(Drop)]
pub struct TextSink<W> {
    held: Vec<u8>,
    out: Watched<W>,
}

impl<W> TextSink<W> {
    /// To a writer that was not called yet.
    pub fn new(alloc: Global, out: W) -> TextSink<W>
        ensures written { written result ≡ [] }
        ensures device { result.out.device ≡ out }
        ensures failed { result.out.failed ≡ false }
        ensures held { result.held.items ≡ [] }
    {
        TextSink {
            held: Vec::new(alloc),
            out: Watched::new(out),
        }
    }
}

impl<W: Write> TextSink<W> {
    /// Writes what is held.
    fn write_held(&mut self) -> Result<(), Untold>
        requires working { self.old.out.failed ≡ false }
        ensures written { WritesOn self.old self.new result [] }
        ensures none { self.new.held.items ≡ [] }
        ensures failed { self.new.out.failed ≡ is_err result }
        ensures after { self.new.out.after ≡ self.old.out.after }
    {
        let done = write_whole(&self.held, &mut self.out);
        self.held.clear();
        match done {
            Ok(()) => Ok(()),
            Err(_) => Err(Untold::Sink),
        }
    }

    /// Writes bytes after all that came before, where nothing is held.
    fn write_now(&mut self, bytes: &[u8]) -> Result<(), Untold>
        requires working { self.old.out.failed ≡ false }
        requires none { self.old.held.items ≡ [] }
        ensures written { WritesOn self.old self.new result bytes.now }
        ensures failed { self.new.out.failed ≡ is_err result }
        ensures after { self.new.out.after ≡ self.old.out.after }
    {
        match write_whole(bytes, &mut self.out) {
            Ok(()) => Ok(()),
            Err(_) => Err(Untold::Sink),
        }
    }

    /// Writes what is held, and then bytes.
    fn write_all(&mut self, bytes: &[u8]) -> Result<(), Untold>
        requires working { self.old.out.failed ≡ false }
        ensures written { WritesOn self.old self.new result bytes.now }
        ensures failed { self.new.out.failed ≡ is_err result }
        ensures after { self.new.out.after ≡ self.old.out.after }
    {
        self.write_held()?;
        self.write_now(bytes)
    }

    /// Writes bytes after all that came before, or holds them.
    ///
    /// # Errors
    ///
    /// `Sink` if a write failed: then a beginning was written of what was held and of the bytes.
    #[inline(always)]
    pub fn put(&mut self, bytes: &[u8]) -> Result<(), Untold>
        requires working { self.old.out.failed ≡ false }
        ensures written { WritesOn self.old self.new result bytes.now }
        ensures failed { self.new.out.failed ≡ is_err result }
        ensures after { self.new.out.after ≡ self.old.out.after }
    {
        if self.held.len().saturating_add(bytes.len()) > MOST {
            return self.write_all(bytes);
        }
        if self.held.extend_from_slice(bytes).is_ok() {
            return Ok(());
        }
        self.write_all(bytes)
    }

    /// Writes what is held, and flushes the writer, which is given back. A writer that failed a call is called no more.
    pub fn finish(self) -> Watched<W>
        ensures all { result.failed ≡ false → result.taken ≡ written self }
        ensures begins { Begins result.taken (written self) }
        ensures left { self.out.failed ≡ true → result ≡ self.out }
        ensures flushed { result.failed ≡ false → result.unflushed ≡ false }
        ensures after { result.after ≡ self.out.after }
    {
        let mut sink = self;
        if !sink.out.failed() && sink.write_held().is_ok() {
            let _ = flush_written(&mut sink.out);
        }
        sink.out
    }
}

impl<W: Write> Sink for TextSink<W> {
    ghost stands = { λ sink told. text_of told ≡ written sink };

    ghost stopped = { λ sink told. Begins sink.out.taken (text_of told) };

    ghost state = { λ sink. record { failed = sink.out.failed; unflushed = is_unflushed sink; after = sink.out.after; settings = [] } };

    fn gap(&mut self) {}

    #[inline(always)]
    fn row(&mut self, _is_selected: bool, text: &[u8]) -> Result<(), Untold> {
        self.put(text)
    }

    fn node(&mut self, _number: u64, node: Cursor<'_>) -> Result<(), Untold> {
        self.put(node.source())?;
        self.put(b"\n")
    }

    fn flush(&mut self) -> Result<(), Untold> {
        self.write_held()?;
        match flush_written(&mut self.out) {
            Ok(()) => Ok(()),
            Err(_) => Err(Untold::Sink),
        }
    }

    fn is_unflushed(&self) -> bool {
        !self.held.is_empty() || self.out.unflushed()
    }

    fn has_failed(&self) -> bool {
        self.out.failed()
    }
}
