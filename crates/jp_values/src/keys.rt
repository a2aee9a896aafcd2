//! The keys of nodes and of literals.

ghost use Rattle.std.specs.Prelude.{◌≡◌, IsTrue, IfOk, MatchOption, None};
ghost use Rattle.jp_model.specs.Json.Tree.{value_of};
ghost use Rattle.jp_model.specs.Meaning.Functions.{literal_value};
ghost use Rattle.jp_syntax.specs.View.{literal_view};
ghost use Rattle.jp_nodes.specs.Cursors.{node_of};
ghost use Rattle.jp_values.specs.Keys.{IsKeyOf};
ghost use Rattle.jp_values.specs.Scalars.{scalar_in};
ghost use Rattle.jp_syntax.specs.Sound.{is_sound};

use crate::key::Key;
use jp_decimal::Decimal;
use jp_nodes::{Cursor, Kind};
use jp_strings::unescape;
use jp_syntax::Literal;
use std::alloc::{AllocError, Global};

/// The key of a node's value. Arrays and objects have none, and all else has one.
pub fn key_of(alloc: Global, cursor: Cursor<'_>) -> Result<Option<Key>, AllocError>
    ensures { IfOk result (λ found. MatchOption found (scalar_in (value_of (node_of cursor.entry).tree) ≡ None) (λ key. IsKeyOf key (value_of (node_of cursor.entry).tree))) }
{
    match cursor.kind() {
        Kind::Null => Ok(Some(Key::Null)),
        Kind::False => Ok(Some(Key::False)),
        Kind::True => Ok(Some(Key::True)),
        Kind::Number => match cursor.number() {
            Some(number) => Ok(Some(Key::Number(number.canonical(alloc)?))),
            None => Ok(None),
        },
        Kind::Text => match cursor.text() {
            Some(body) => Ok(Some(Key::Text(unescape(alloc, body)?))),
            None => Ok(None),
        },
        Kind::Array | Kind::Object => Ok(None),
    }
}

/// The key of a value that is written in a query. A number there is spelled as RFC 8259, section 6, has it, its exponent is
/// not too long, and it has at most 4,294,967,295 bytes.
pub fn key_of_literal(alloc: Global, literal: &Literal) -> Result<Key, AllocError>
    requires { IsTrue (is_sound (literal_view literal.now)) }
    ensures { IfOk result (λ key. IsKeyOf key (literal_value (literal_view literal.now))) }
{
    match literal {
        Literal::Null => Ok(Key::Null),
        Literal::False => Ok(Key::False),
        Literal::True => Ok(Key::True),
        Literal::Number(spelling) => match Decimal::read(spelling) {
            Ok(number) => Ok(Key::Number(number.canonical(alloc)?)),
            // A literal of a query is always a number.
            Err(_) => Ok(Key::Null),
        },
        Literal::Text(text) => Ok(Key::Text(String::from_str(alloc, text)?)),
    }
}
