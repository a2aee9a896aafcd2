//! The body of a name.

ghost use Rattle.std.specs.Prelude.{IsTrue, length};
ghost use Rattle.jp_strings.specs.Plain.{ArePlain};
ghost use Rattle.jp_strings.specs.Points.{is_text_from};

/// What is between the quotes of a name, where no surrogate stands alone.
#[derive(Clone, Copy)]
pub(super) struct Body<'a> {
    pub(super) bytes: &'a [u8],
    /// Each character stands for itself.
    pub(super) is_plain: bool,
    ghost is_text: { IsTrue (is_text_from bytes.now 0) },
    ghost stands_for_itself: { IsTrue is_plain → ArePlain bytes.now 0 (length bytes.now) },
}
