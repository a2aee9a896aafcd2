//! The kinds of values that a survey tells apart.

ghost use Rattle.std.specs.Prelude.{◌≡◌};
ghost use Rattle.jp_survey.specs.Paths.{kind_text, sort_of};

use jp_nodes::Kind;

/// What kind of value a node is (RFC 8259, section 3). The two booleans are one kind.
#[derive(Clone, Copy, Debug, PartialEq, Eq, PartialOrd, Ord)]
pub(crate) enum NodeKind {
    Null,
    Boolean,
    Number,
    String,
    Array,
    Object,
}

impl NodeKind {
    /// The kind of a node.
    #[inline(always)]
    pub(crate) fn of(kind: Kind) -> NodeKind
        ensures { result ≡ sort_of kind }
    {
        match kind {
            Kind::Null => NodeKind::Null,
            Kind::False | Kind::True => NodeKind::Boolean,
            Kind::Number => NodeKind::Number,
            Kind::Text => NodeKind::String,
            Kind::Array => NodeKind::Array,
            Kind::Object => NodeKind::Object,
        }
    }

    /// Its word.
    pub(crate) fn word(self) -> &'static [u8]
        ensures { result.now ≡ kind_text self }
    {
        match self {
            NodeKind::Null => b"null",
            NodeKind::Boolean => b"boolean",
            NodeKind::Number => b"number",
            NodeKind::String => b"string",
            NodeKind::Array => b"array",
            NodeKind::Object => b"object",
        }
    }
}
