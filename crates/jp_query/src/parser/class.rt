//! Classes of scalars.

ghost use Rattle.std.specs.Prelude.{◌≡◌};
ghost use Rattle.jp_model.specs.Query.Spelling.{is_name_first};
ghost use Rattle.jp_query.specs.Parsing.{is_member};

/// A class of scalars that the grammar names.
#[derive(Clone, Copy, Debug)]
pub(crate) enum Class {
    /// White space, B of RFC 9535, section 2.1.1.
    Blank,
    /// A decimal digit.
    Digit,
    /// A decimal digit other than 0.
    PositiveDigit,
    /// What a shorthand name begins with (RFC 9535, section 2.5.1.1).
    NameFirst,
    /// What is in a shorthand name (RFC 9535, section 2.5.1.1).
    NameScalar,
    /// A small letter, with which the name of a function begins (RFC 9535, section 2.4).
    Lower,
    /// What is in the name of a function (RFC 9535, section 2.4).
    FunctionScalar,
}

/// Whether a scalar may begin a member name shorthand (RFC 9535, section 2.5.1.1: name-first).
fn is_name_first(c: char) -> bool
    ensures { result ≡ is_name_first c }
{
    ('A'..='Z').contains(&c) || ('a'..='z').contains(&c) || c == '_' || c >= '\u{80}'
}

impl Class {
    /// Whether the class has this scalar.
    pub(crate) fn has(self, c: char) -> bool
        ensures { result ≡ is_member self c }
    {
        match self {
            Class::Blank => c == ' ' || c == '\t' || c == '\n' || c == '\r',
            Class::Digit => ('0'..='9').contains(&c),
            Class::PositiveDigit => ('0'..='9').contains(&c) && c != '0',
            Class::NameFirst => is_name_first(c),
            Class::NameScalar => is_name_first(c) || ('0'..='9').contains(&c),
            Class::Lower => ('a'..='z').contains(&c),
            Class::FunctionScalar => ('a'..='z').contains(&c)
                || c == '_'
                || ('0'..='9').contains(&c),
        }
    }
}
