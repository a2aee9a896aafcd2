//! What is kept of a name until its object closes.

ghost use Rattle.std.specs.Prelude.{◌≡◌};
ghost use Rattle.jp_tape.specs.Names.{bytes_of, IsKept};

use super::body::Body;
use jp_model::Span;

/// A name that was read: where its body is in the line.
#[derive(Clone, Copy)]
pub(super) struct KeptName {
    pub(super) body: Span,
    /// Each character stands for itself.
    pub(super) is_plain: bool,
}

impl KeptName {
    /// What is between the quotes.
    #[inline(always)]
    pub(super) fn bytes(self, line: &[u8]) -> &[u8]
        requires { IsKept line.now self }
        ensures { result.now ≡ bytes_of line.now self }
    {
        &line[self.body.start as usize..self.body.end as usize]
    }

    /// The body.
    pub(super) fn body_in(self, line: &[u8]) -> Body<'_>
        requires { IsKept line.now self }
        ensures bytes { result.bytes.now ≡ bytes_of line.now self }
        ensures plain { result.is_plain ≡ self.is_plain }
    {
        Body {
            bytes: self.bytes(line),
            is_plain: self.is_plain,
        }
    }
}
