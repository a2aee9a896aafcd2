//! The body of a string.

ghost use Rattle.std.specs.Prelude.{◌≡◌, IsTrue};
ghost use Rattle.jp_strings.specs.Points.{IsText, is_text_from};

/// What is between the quotes of a JSON string.
#[derive(Clone, Copy)]
pub(crate) struct Body<'a> {
    bytes: &'a [u8],
    ghost is_text: { IsTrue (is_text_from bytes.now 0) },
}

impl<'a> Body<'a> {
    /// Takes bytes that are known to be a body, and to spell no lone surrogate.
    pub fn new(bytes: &'a [u8]) -> Body<'a>
        requires { IsText bytes.now }
        ensures { result.bytes.now ≡ bytes.now }
    {
        Body { bytes }
    }

    /// The bytes.
    pub fn bytes(self) -> &'a [u8]
        ensures value { result.now ≡ self.entry.bytes.now }
        ensures text { IsText result.now }
    {
        self.bytes
    }
}
