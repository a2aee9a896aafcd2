//! A side of a comparison.

ghost use Rattle.std.specs.Prelude.{◌≡◌};
ghost use Rattle.jp_values.specs.Values.{value_view, is_sound_value};

use jp_decimal::Decimal;
use jp_nodes::Cursor;
use jp_syntax::Literal;

/// A side of a comparison: a value, or Nothing (RFC 9535, sections 2.3.5.1 and 2.4.1).
#[derive(Clone, Copy)]
pub enum Value<'a> {
    /// The value of a node.
    Node(Cursor<'a>),
    /// A value that is written in the query.
    Constant(&'a Literal),
    /// A number that was read.
    Number(Decimal<'a>),
    /// What a function counted: a number.
    Count(u64),
    /// No value. It is not null.
    Nothing,
}

impl<'a> Value<'a> {
    /// The same value. The number of a node is read here, so that no comparison reads it again.
    #[inline(always)]
    pub fn read(self) -> Value<'a>
        ensures value { value_view result ≡ value_view self.entry }
        ensures sound { is_sound_value result ≡ is_sound_value self.entry }
    {
        match self {
            Value::Node(node) => match node.number() {
                Some(number) => Value::Number(number),
                None => self,
            },
            _ => self,
        }
    }
}
