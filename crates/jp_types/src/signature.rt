//! The types of the functions (RFC 9535, section 2.4.1).

ghost use Rattle.std.specs.Prelude.{◌≡◌, option_map, chars};
ghost use Rattle.jp_model.specs.Query.Typing.{signature_of, serves};
ghost use Rattle.jp_types.specs.Signatures.{kind_view, signature_view};

/// A type of arguments and results (RFC 9535, section 2.4.1).
#[derive(Clone, Copy, Debug, PartialEq, Eq)]
pub enum Kind {
    /// A value, or nothing.
    Value,
    /// Nodes.
    Nodes,
    /// True or false.
    Logical,
}

impl Kind {
    /// Whether a result of this type is allowed where a type is wanted: nodes also where a truth is (RFC 9535, section
    /// 2.4.2).
    pub fn serves(self, wanted: Kind) -> bool
        ensures { result ≡ serves (kind_view self) (kind_view wanted) }
    {
        match (self, wanted) {
            (Kind::Nodes, Kind::Logical) => true,
            (Kind::Value, Kind::Value) => true,
            (Kind::Nodes, Kind::Nodes) => true,
            (Kind::Logical, Kind::Logical) => true,
            _ => false,
        }
    }
}

/// The types of a function's parameters, and of its result (RFC 9535, section 2.4.1).
#[derive(Clone, Copy)]
pub struct Signature {
    /// One for each parameter, in order.
    pub parameters: &'static [Kind],
    /// Of the result.
    pub answer: Kind,
}

/// The types of the function of a name, where it is one of the five (RFC 9535, sections 2.4.4 to 2.4.8).
pub fn signature_of(name: &str) -> Option<Signature>
    ensures { option_map signature_view result ≡ signature_of (chars name.now) }
{
    if name == "length" {
        return Some(Signature {
            parameters: &[Kind::Value],
            answer: Kind::Value,
        });
    }
    if name == "count" || name == "value" {
        return Some(Signature {
            parameters: &[Kind::Nodes],
            answer: Kind::Value,
        });
    }
    if name == "match" || name == "search" {
        return Some(Signature {
            parameters: &[Kind::Value, Kind::Value],
            answer: Kind::Logical,
        });
    }
    None
}
