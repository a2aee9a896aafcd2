//! Bytes that passed through a device. They exist in proofs alone.

ghost use Rattle.std.specs.Prelude.{◌≡◌, ℕ, List, [], ◌++◌};
ghost use base.Fml.{ftrue};

use std::marker::Model;

/// The bytes that passed so far. Nothing reads them, and only `add` adds to them.
#[derive(Drop)]
pub(crate) struct Passed {
    ghost bytes: { List ℕ },
}

impl Model for Passed {
    ghost also_owns = { λ _. ftrue };
}

impl Passed {
    /// No byte.
    #[inline(always)]
    pub(crate) fn none() -> Passed
        ensures { result.bytes ≡ [] }
    {
        Passed {}
    }

    /// Adds bytes after the others.
    #[inline(always)]
    pub(crate) fn add(&mut self, _more: &[u8])
        ensures { self.new.bytes ≡ self.old.bytes ++ _more.now }
    {}
}
