//! Values that are neither arrays nor objects.

ghost use Rattle.std.specs.Prelude.{◌≡◌, IsTrue, Some};
ghost use Rattle.jp_model.specs.Json.Tree.{value_of};
ghost use Rattle.jp_model.specs.Meaning.Compare.{is_less as is_less_value};
ghost use Rattle.jp_model.specs.Meaning.Functions.{literal_value};
ghost use Rattle.jp_nodes.specs.Cursors.{node_of};
ghost use Rattle.jp_syntax.specs.View.{literal_view};
ghost use Rattle.jp_values.specs.Scalars.{scalar_view, scalar_in, scalars_equal};
ghost use Rattle.jp_syntax.specs.Sound.{is_sound};
ghost use Rattle.jp_values.specs.Values.{is_sound_value, value_view, scalar_side};

use crate::body::Body;
use crate::number::Number;
use crate::text::Text;
use crate::value::Value;
use jp_decimal::Decimal;
use jp_nodes::{Cursor, Kind};
use jp_syntax::Literal;

/// A value that is neither an array nor an object.
#[derive(Drop)]
pub(crate) enum Scalar<'a> {
    Null,
    Boolean(bool),
    Number(Number<'a>),
    Text(Text<'a>),
    /// An array, an object, or Nothing: it equals no scalar, and is neither less nor greater.
    Other,
}

/// The scalar of a literal.
fn literal_scalar(literal: &Literal) -> Scalar<'_>
    requires { IsTrue (is_sound (literal_view literal.now)) }
    ensures { scalar_view result ≡ Some (literal_value (literal_view literal.now)) }
{
    match literal {
        Literal::Null => Scalar::Null,
        Literal::False => Scalar::Boolean(false),
        Literal::True => Scalar::Boolean(true),
        Literal::Number(spelling) => match Decimal::read(spelling) {
            Ok(number) => Scalar::Number(Number::Spelled(number)),
            // A literal of a query is always a number.
            Err(_) => Scalar::Other,
        },
        Literal::Text(text) => Scalar::Text(Text::Plain(text)),
    }
}

impl<'a> Scalar<'a> {
    /// The scalar of a node.
    #[inline(always)]
    pub fn of_node(cursor: Cursor<'a>) -> Scalar<'a>
        ensures { scalar_view result ≡ scalar_in (value_of (node_of cursor.entry).tree) }
    {
        match cursor.kind() {
            Kind::Null => Scalar::Null,
            Kind::False => Scalar::Boolean(false),
            Kind::True => Scalar::Boolean(true),
            Kind::Number => match cursor.number() {
                Some(number) => Scalar::Number(Number::Spelled(number)),
                None => Scalar::Other,
            },
            Kind::Text => match cursor.text() {
                Some(body) => Scalar::Text(Text::Body(Body::new(body))),
                None => Scalar::Other,
            },
            Kind::Array | Kind::Object => Scalar::Other,
        }
    }

    /// The scalar of a side of a comparison.
    #[inline(always)]
    pub fn of_value(value: Value<'a>) -> Scalar<'a>
        requires { IsTrue (is_sound_value value) }
        ensures { scalar_view result ≡ scalar_side (value_view value.entry) }
    {
        match value {
            Value::Node(cursor) => Scalar::of_node(cursor),
            Value::Constant(literal) => literal_scalar(literal),
            Value::Number(number) => Scalar::Number(Number::Spelled(number)),
            Value::Count(count) => Scalar::Number(Number::Count(count)),
            Value::Nothing => Scalar::Other,
        }
    }

    /// Whether both are scalars, and equal.
    #[inline(always)]
    pub fn equal(&self, other: &Scalar<'_>) -> bool
        ensures { result ≡ scalars_equal (scalar_view self.now) (scalar_view other.now) }
    {
        match (self, other) {
            (Scalar::Null, Scalar::Null) => true,
            (Scalar::Boolean(value), Scalar::Boolean(other)) => value == other,
            (Scalar::Number(number), Scalar::Number(other)) => number.compare(other).is_eq(),
            (Scalar::Text(text), Scalar::Text(other)) => text.equal(*other),
            _ => false,
        }
    }

    /// Whether both are numbers or both strings, and the first is less.
    #[inline(always)]
    pub fn is_less(&self, other: &Scalar<'_>) -> bool
        ensures { result ≡ is_less_value (scalar_view self.now) (scalar_view other.now) }
    {
        match (self, other) {
            (Scalar::Number(number), Scalar::Number(other)) => number.compare(other).is_lt(),
            (Scalar::Text(text), Scalar::Text(other)) => text.compare(*other).is_lt(),
            _ => false,
        }
    }
}
