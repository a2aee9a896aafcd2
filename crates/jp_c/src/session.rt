//! What a handle has.

ghost use Rattle.std.specs.Prelude.{◌≤◌, length};

/// A collection that is held, and what the last script over it answered, from the place on where it was read to.
#[derive(Drop)]
pub struct Session {
    pub collection: jp_cli::Session,
    pub text: Vec<u8>,
    pub at: usize,
    ghost within: { at ≤ length text.items },
}
