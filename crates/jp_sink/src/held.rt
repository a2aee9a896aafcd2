//! The text of what a search tells, in memory.

ghost use Rattle.std.specs.Prelude.{◌≡◌, ◌++◌, [], List, MatchResult, false, is_err};
ghost use Rattle.jp_sink.specs.Events.{Event, text_of};
ghost use Rattle.jp_sink.specs.declared.Untold.TheVariants as untold;

use crate::{Sink, Untold};
use jp_nodes::Cursor;
use std::alloc::Global;

/// Holds the text of what it is told.
#[derive(Drop)]
pub struct HeldText {
    /// The text so far.
    pub text: Vec<u8>,
    /// Whether memory ran out. It holds a beginning of the text then.
    pub is_full: bool,
}

impl HeldText {
    /// With no text yet.
    pub fn new(alloc: Global) -> HeldText
        ensures text { result.text.items ≡ [] }
        ensures full { result.is_full ≡ false }
    {
        HeldText {
            text: Vec::new(alloc),
            is_full: false,
        }
    }

    /// Holds bytes after the others.
    fn hold(&mut self, bytes: &[u8]) -> Result<(), Untold>
        requires working { self.old.is_full ≡ false }
        ensures text { MatchResult result
            (λ _. self.new.text.items ≡ self.old.text.items ++ bytes.now)
            (λ fault. (fault ≡ untold.Sink) × (self.new.text.items ≡ self.old.text.items)) }
        ensures full { self.new.is_full ≡ is_err result }
    {
        if self.text.extend_from_slice(bytes).is_ok() {
            return Ok(());
        }
        self.is_full = true;
        Err(Untold::Sink)
    }
}

impl Sink for HeldText {
    ghost use Rattle.jp_devices.specs.Devices.{Begins};

    ghost stands = { λ sink told. sink.text.items ≡ text_of told };

    ghost stopped = { λ sink told. Begins sink.text.items (text_of told) };

    ghost state = { λ sink. record { failed = sink.is_full; unflushed = false; after = 0; settings = [] } };

    fn gap(&mut self) {}

    fn row(&mut self, _is_selected: bool, text: &[u8]) -> Result<(), Untold> {
        self.hold(text)
    }

    fn node(&mut self, _number: u64, node: Cursor<'_>) -> Result<(), Untold> {
        self.hold(node.source())?;
        self.hold(b"\n")
    }

    fn flush(&mut self) -> Result<(), Untold> {
        Ok(())
    }

    fn is_unflushed(&self) -> bool {
        false
    }

    fn has_failed(&self) -> bool {
        self.is_full
    }
}
