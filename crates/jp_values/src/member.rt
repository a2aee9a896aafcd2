//! A member of an object, and its name.

ghost use Rattle.std.specs.Prelude.{◌≡◌, IsTrue, length};
ghost use Rattle.jp_strings.specs.Plain.{ArePlain};
ghost use Rattle.jp_strings.specs.Points.{IsText, is_text_from};

use jp_nodes::Cursor;
use jp_strings::is_plain;

/// A member of an object, with the body of its name. Members are ordered by the scalars of their names (RFC 9535, section
/// 2.3.5.2.2). Whether the name is plain is found once, so that names are compared no further than they agree.
#[derive(Clone, Copy)]
pub struct Member<'a> {
    /// The body of its name.
    pub name: &'a [u8],
    /// Each character of the name stands for itself.
    pub(crate) is_plain: bool,
    /// The node of its value.
    pub node: Cursor<'a>,
    ghost is_text: { IsTrue (is_text_from name.now 0) },
    ghost stands_for_itself: { IsTrue is_plain → ArePlain name.now 0 (length name.now) },
}

impl<'a> Member<'a> {
    /// A node with the body of a name.
    pub fn new(name: &'a [u8], node: Cursor<'a>) -> Member<'a>
        requires { IsText name.now }
        ensures name { result.name.now ≡ name.now }
        ensures node { result.node ≡ node.entry }
    {
        Member {
            name,
            is_plain: is_plain(name),
            node,
        }
    }
}
