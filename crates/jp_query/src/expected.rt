//! What the grammar of queries has where a text cannot go on as it does.

/// What the grammar of RFC 9535 has where a text cannot go on as it does.
#[derive(Clone, Copy, Debug, PartialEq, Eq)]
pub enum Expected {
    /// `$`, with which a query begins (section 2.2).
    Root,
    /// `@`, with which a rel-query begins (section 2.3.5.1).
    Current,
    /// A segment, or the end (section 2.5).
    Segment,
    /// A name without quotes, or `*`, after a point (section 2.5.1.1).
    Name,
    /// A selector (section 2.3).
    Selector,
    /// `,` or `]` after a selector (section 2.5.1.1).
    Bracket,
    /// A comparison after a query or a function, or what may stand after a filter (section 2.3.5.1).
    ComparisonOrBracket,
    /// A comparison after a query or a function, or `)` (section 2.3.5.1).
    ComparisonOrParenthesis,
    /// `)` after an expression (section 2.3.5.1).
    Parenthesis,
    /// `,` or `)` after an argument of a function (section 2.4).
    Argument,
    /// A comparison after a literal (section 2.3.5.1).
    Comparison,
    /// A query, a literal or a function (section 2.3.5.1).
    Operand,
    /// A query, a function or `(` after `!` (section 2.3.5.1).
    Test,
    /// The second `&` of `&&`.
    And,
    /// The second `|` of `||`.
    Or,
    /// A comparison, or the end of a condition that stands alone.
    ComparisonOrEnd,
    /// The end of a condition that stands alone.
    End,
    /// A singular query in front of an operator (section 2.3.5.1).
    SingularQuery,
    /// A name or an index in the brackets of a singular query (section 2.3.5.1).
    SingularSelector,
    /// A name after a point in a singular query (section 2.3.5.1).
    SingularName,
    /// `]` after a name or an index in a singular query (section 2.3.5.1).
    SingularBracket,
    /// A digit of a number (sections 2.3.3.1 and 2.3.5.1).
    Digit,
    /// An escape that is one (section 2.3.1.1).
    Escape,
    /// An escape in place of a control character (section 2.3.1.1).
    EscapedControl,
    /// The quote that closes a string (section 2.3.1.1).
    Quote,
    /// UTF-8 (section 2.1).
    Utf8,
}

impl Expected {
    /// A few words for it, as in `expected a selector`.
    pub fn words(self) -> &'static str {
        match self {
            Expected::Root => "'$'",
            Expected::Current => "'@'",
            Expected::Segment => "a segment or the end",
            Expected::Name => "a name or '*'",
            Expected::Selector => "a selector",
            Expected::Bracket => "',' or ']'",
            Expected::ComparisonOrBracket => "a comparison or ']'",
            Expected::ComparisonOrParenthesis => "a comparison or ')'",
            Expected::Parenthesis => "')'",
            Expected::Argument => "',' or ')'",
            Expected::Comparison => "a comparison",
            Expected::Operand => "a query, a literal or a function",
            Expected::Test => "a query, a function or '('",
            Expected::And => "'&&'",
            Expected::Or => "'||'",
            Expected::ComparisonOrEnd => "a comparison or the end",
            Expected::End => "the end",
            Expected::SingularQuery => "a singular query before an operator",
            Expected::SingularSelector =>
                "a name in quotes or an index, since a comparison takes a singular query",
            Expected::SingularName => "a name, since a comparison takes a singular query",
            Expected::SingularBracket => "']', since a comparison takes a singular query",
            Expected::Digit => "a digit",
            Expected::Escape => "an escape of JSON",
            Expected::EscapedControl => "an escape in place of a control character",
            Expected::Quote => "the closing quote",
            Expected::Utf8 => "UTF-8",
        }
    }
}
