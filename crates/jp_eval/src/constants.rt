//! What is at the leaves of a query is compiled.

ghost use Rattle.std.specs.Prelude.{◌≡◌, true, IfOk, IfSome, option_map, string_bytes};
ghost use Rattle.jp_decimal.specs.Decimals.{numeral_number};
ghost use Rattle.jp_eval.specs.Constants.{is_read_as};
ghost use Rattle.jp_eval.specs.Keys.{key_segment, keys_view};
ghost use Rattle.jp_syntax.specs.Sound.{is_sound};
ghost use Rattle.jp_syntax.specs.View.{literal_view, segments_view, segment_view};

use crate::Result;
use crate::functions::read_pattern;
use crate::leaves::{Constant, LiteralPattern, MemberName};
use crate::question::Key;
use jp_decimal::{Decimal, Numeral};
use jp_strings::is_plain;
use jp_syntax::{Literal, Segment, Selector, is_singular};
use jp_values::Value;
use std::alloc::Global;

/// A copy of the literal.
fn copy_literal(alloc: Global, literal: &Literal) -> Result<Literal>
    ensures { IfOk result (λ copy. literal_view copy ≡ literal_view literal.now) }
{
    Ok(match literal {
        Literal::Null => Literal::Null,
        Literal::False => Literal::False,
        Literal::True => Literal::True,
        Literal::Number(spelling) => Literal::Number(Vec::from_slice(alloc, spelling)?),
        Literal::Text(text) => Literal::Text(String::from_str(alloc, text)?),
    })
}

/// The number that a literal spells, where it spells one.
fn read_literal(alloc: Global, literal: &Literal) -> Result<Option<Numeral>>
    requires literals { is_sound (literal_view literal.now) ≡ true }
    ensures { IfOk result (λ number. is_read_as (option_map numeral_number number) (literal_view literal.now) ≡ true) }
{
    match literal {
        Literal::Number(spelling) => match Decimal::read(spelling) {
            Ok(number) => Ok(Some(number.to_numeral(alloc)?)),
            // A literal of a query is always a number.
            Err(_) => Ok(None),
        },
        _ => Ok(None),
    }
}

/// A value of the query.
pub(crate) fn compile_literal(alloc: Global, literal: &Literal) -> Result<Constant>
    requires literals { is_sound (literal_view literal.now) ≡ true }
    ensures { IfOk result (λ constant. literal_view constant.literal ≡ literal_view literal.now) }
{
    let number = read_literal(alloc, literal)?;
    let literal = copy_literal(alloc, literal)?;
    Ok(Constant { literal, number })
}

/// A value of the query where a pattern is wanted, and the pattern that it spells, where it spells one.
pub(crate) fn compile_pattern(alloc: Global, literal: &Literal) -> Result<LiteralPattern>
    requires literals { is_sound (literal_view literal.now) ≡ true }
    ensures { IfOk result (λ pattern. literal_view pattern.constant.literal ≡ literal_view literal.now) }
{
    let read = read_pattern(alloc, Value::Constant(literal))?;
    let constant = compile_literal(alloc, literal)?;
    Ok(LiteralPattern { constant, read })
}

/// The name of a member.
pub(crate) fn compile_member_name(alloc: Global, name: &str) -> Result<MemberName>
    ensures { IfOk result (λ member. string_bytes member.text ≡ name.now) }
{
    let plain = is_plain(name.as_bytes());
    let text = String::from_str(alloc, name)?;
    Ok(MemberName { text, plain })
}

/// The key of a segment that is singular, and None of any other (RFC 9535, section 2.3.5.1).
#[inline(never)]
pub(crate) fn compile_key(alloc: Global, segment: &Segment) -> Result<Option<Key>>
    ensures { IfOk result (λ found. IfSome found (λ key. segment_view segment.now ≡ key_segment key)) }
{
    let Segment::Child(selectors) = segment else {
        return Ok(None);
    };
    match selectors.as_slice() {
        [Selector::Name(name)] => {
            let name = compile_member_name(alloc, name)?;
            Ok(Some(Key::Name(name)))
        }
        [Selector::Index(index)] => Ok(Some(Key::Index(*index))),
        _ => Ok(None),
    }
}

/// The keys of a query that is singular, and None of any other (RFC 9535, section 2.3.5.1).
pub(crate) fn compile_keys(alloc: Global, segments: &[Segment]) -> Result<Option<Vec<Key>>>
    ensures { IfOk result (λ found. IfSome found (λ keys. keys_view keys.items ≡ segments_view segments.now)) }
{
    if !is_singular(segments) {
        return Ok(None);
    }
    let mut keys = Vec::with_capacity(alloc, segments.len())?;
    for segment in segments {
        match compile_key(alloc, segment)? {
            Some(key) => keys.push(key)?,
            None => return Ok(None),
        }
    }
    Ok(Some(keys))
}
