//! What is at the leaves of a compiled query.

ghost use Rattle.std.specs.Prelude.{◌≡◌, true, IsTrue, Some, length, option_map, chars, string_bytes};
ghost use Rattle.jp_decimal.specs.Decimals.{numeral_number};
ghost use Rattle.jp_eval.specs.Constants.{is_read_as};
ghost use Rattle.jp_eval.specs.Functions.{pattern_in};
ghost use Rattle.jp_iregexp.specs.Trees.{pattern_view};
ghost use Rattle.jp_children.specs.Found.{node_list};
ghost use Rattle.jp_model.specs.Meaning.Compare.{compared};
ghost use Rattle.jp_model.specs.Meaning.Functions.{literal_value, single_value};
ghost use Rattle.jp_syntax.specs.Sound.{is_sound};
ghost use Rattle.jp_syntax.specs.View.{literal_view, op_view};
ghost use Rattle.jp_strings.specs.Plain.{ArePlain};
ghost use Rattle.jp_values.specs.Values.{value_view, is_sound_value};

use jp_decimal::Numeral;
use jp_iregexp::Pattern;
use jp_nodes::Cursor;
use jp_syntax::{CompareOp, Literal};
use jp_values::{Value, compare, compare_with_number, compare_with_text};

/// A value that is written in the query, and can be read. A number was read.
#[derive(Drop)]
pub(crate) struct Constant {
    pub(crate) literal: Literal,
    pub(crate) number: Option<Numeral>,
    ghost sound: { is_sound (literal_view literal) ≡ true },
    ghost read: { is_read_as (option_map numeral_number number) (literal_view literal) ≡ true },
}

impl Constant {
    /// The value, and no number is read again.
    #[inline(always)]
    pub(crate) fn value(&self) -> Value<'_>
        ensures value { value_view result ≡ Some (literal_value (literal_view self.now.literal)) }
        ensures sound { IsTrue (is_sound_value result) }
    {
        match &self.number {
            Some(number) => Value::Number(number.decimal()),
            None => Value::Constant(&self.literal),
        }
    }

    /// Whether a comparison of a node, or of Nothing if there is none, with the value holds (RFC 9535, section 2.3.5.2.2).
    #[inline(always)]
    pub(crate) fn is_compared(&self, op: CompareOp, end: Option<Cursor<'_>>) -> bool
        ensures { result ≡ compared (op_view op) (single_value (node_list end.entry)) (Some (literal_value (literal_view self.now.literal))) }
    {
        let Some(node) = end else {
            return matches!(op, CompareOp::NotEqual);
        };
        if let Some(number) = &self.number {
            return compare_with_number(op, node, &number.decimal());
        }
        match &self.literal {
            Literal::Text(text) => compare_with_text(op, node, text.as_str()),
            _ => compare(op, Value::Node(node), Value::Constant(&self.literal)),
        }
    }
}

/// A name of members that is looked for, and whether each of its bytes stands for itself in the body of a string.
#[derive(Drop)]
pub(crate) struct MemberName {
    pub(crate) text: String,
    pub(crate) plain: bool,
    ghost known: { plain ≡ true → ArePlain (string_bytes text) 0 (length (string_bytes text)) },
}

/// A text of the query where a pattern may be wanted, and the pattern that it spells, where it spells one.
#[derive(Drop)]
pub(crate) struct LiteralPattern {
    pub(crate) constant: Constant,
    pub(crate) read: Option<Pattern>,
    ghost spelled: { ∥ option_map pattern_view read ≡ pattern_in (Some (literal_value (literal_view constant.literal))) ∥₁ },
}
