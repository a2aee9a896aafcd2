//! What was probably meant by a query or a condition that is refused.

use crate::refusal::Text;
use jp_model::QueryFault;
use jp_query::{Expected, FaultPlace};

/// Blanks are no part of a query (RFC 9535, section 2.1.1).
const NO_BLANKS: &str = "no blank stands before or after a query";

/// The help with a question about a part of a text.
const A_PART: &str = "a part of a text is asked by search, as in search(@.a, \"x\")";

/// The help with quotes that are none in a query.
const STRAIGHT_QUOTES: &str = "quotes are straight, as in \"x\" or 'x'";

/// Whether a character is a quote as books print it.
fn is_curly(scalar: char) -> bool {
    matches!(scalar, '\u{2018}' | '\u{2019}' | '\u{201C}' | '\u{201D}')
}

/// Whether a character may stand in a word.
fn is_of_word(scalar: char) -> bool {
    scalar.is_alphanumeric() || scalar == '_'
}

/// The word that a text begins with.
fn first_word(text: &str) -> &str {
    let end = text.find(|c: char| !is_of_word(c)).unwrap_or(text.len());
    text.get(..end).unwrap_or(text)
}

/// Whether a text begins with this word, in letters of either case.
fn begins_with_word(text: &str, word: &str) -> bool {
    first_word(text).eq_ignore_ascii_case(word)
}

/// Whether a text begins with an operator of a comparison or of a logical expression.
fn begins_with_operator(text: &str) -> bool {
    text.starts_with(|c: char| matches!(c, '=' | '!' | '<' | '>' | '&' | '|'))
}

/// What other languages write where this text begins, and what RFC 9535 has for it: operators (section 2.3.5.1).
fn help_with_operator(before: &str, rest: &str) -> Option<&'static str> {
    if rest.starts_with("=~") {
        return Some("a pattern is asked by match or search, as in search(@.path, \"cart\")");
    }
    if rest.starts_with('=') && !rest.starts_with("==") {
        return Some(if before.ends_with("!=") {
            "inequality is !="
        } else {
            "equality is =="
        });
    }
    if rest.starts_with("<>") || (rest.starts_with('>') && before.ends_with('<')) {
        return Some("inequality is !=");
    }
    if begins_with_word(rest, "and") || rest.starts_with('&') {
        return Some("'and' is &&");
    }
    if begins_with_word(rest, "or") || rest.starts_with('|') {
        return Some("'or' is ||");
    }
    if begins_with_word(rest, "not") {
        return Some("'not' is !");
    }
    help_with_asking_word(rest)
}

/// The help with words by which other languages ask of a value.
fn help_with_asking_word(rest: &str) -> Option<&'static str> {
    const WORDS: &[(&str, &str)] = &[
        (
            "in",
            "a list is asked value by value, as in @.a == 1 || @.a == 2",
        ),
        (
            "is",
            "a value is compared by ==, as in @.a == null; that there is none is !@.a",
        ),
        ("like", A_PART),
        ("contains", A_PART),
        ("includes", A_PART),
        (
            "matches",
            "a pattern is asked by match or search, as in match(@.a, \"x.*\")",
        ),
        (
            "between",
            "a range is two comparisons, as in @.a >= 1 && @.a <= 9",
        ),
    ];
    let found = WORDS.iter().find(|it| begins_with_word(rest, it.0));
    found.map(|it| it.1)
}

/// What is meant by a word where a value was to stand.
fn help_with_value(word: &str) -> &'static str {
    if word.eq_ignore_ascii_case("true") || word.eq_ignore_ascii_case("false") {
        return "true and false are written in small letters";
    }
    if word.eq_ignore_ascii_case("null") || word == "None" || word == "nil" || word == "undefined" {
        return "what has no value is null, as in @.a == null";
    }
    "a string stands in quotes, as in \"b\", and a path begins with @ or $, as in @.b"
}

/// Whether a text ends with an operator of a comparison, and blanks.
fn ends_with_comparison(text: &str) -> bool {
    text.trim_end()
        .ends_with(|c: char| matches!(c, '=' | '<' | '>'))
}

/// The word that an operator of a comparison is followed by, at a place or before it at the end.
fn compared_word<'t>(before: &'t str, rest: &'t str) -> Option<&'t str> {
    let (head, word) = if rest.is_empty() {
        let head = before.trim_end_matches(is_of_word);
        (head, before.get(head.len()..)?)
    } else {
        (before, first_word(rest))
    };
    let is_word = word.starts_with(|c: char| c.is_alphabetic());
    (is_word && ends_with_comparison(head)).then_some(word)
}

/// What is meant where an operand of a comparison was to begin (RFC 9535, section 2.3.5.1).
fn help_with_operand(before: &str, rest: &str) -> Option<&'static str> {
    if rest.starts_with(|c: char| c == '[' || c == '{') {
        return Some("there are no array or object literals: compare their elements");
    }
    if let Some(behind) = rest.strip_prefix('.') {
        if behind.starts_with(|c: char| c.is_ascii_digit()) {
            return Some("a number begins with a digit, as in 0.5");
        }
    }
    if rest.starts_with(is_curly) {
        return Some(STRAIGHT_QUOTES);
    }
    if let Some(word) = compared_word(before, rest) {
        return Some(help_with_value(word));
    }
    let help = help_with_operator(before, rest);
    if help.is_none() && rest.starts_with(|c: char| c.is_alphabetic() || c == '.' || c == '_') {
        return Some("a path begins with @ or $, as in @.a");
    }
    help
}

/// What is meant by what follows a name without quotes, and cannot (RFC 9535, section 2.5.1.1).
fn help_behind_name(before: &str, rest: &str) -> Option<&'static str> {
    if !before.ends_with(|c: char| c.is_alphanumeric() || c == '_') {
        return None;
    }
    if rest.starts_with('(') {
        return Some("a function takes what it is asked of in parentheses, as in length(@.a)");
    }
    if rest.starts_with('-') {
        return Some("a name with a hyphen stands in brackets and quotes, as in $['content-type']");
    }
    None
}

/// What is meant where a segment was to begin, or the text to end (RFC 9535, section 2.5).
fn help_with_segment(text: Text<'_>, before: &str, rest: &str) -> Option<&'static str> {
    if rest.trim_start().is_empty() && text.text().ends_with(|c: char| c.is_whitespace()) {
        return Some(NO_BLANKS);
    }
    let help = help_behind_name(before, rest);
    if help.is_some() {
        return help;
    }
    if rest.trim_start().starts_with('|') && !rest.trim_start().starts_with("||") {
        return Some(
            "there are no pipes: length and count are asked in a condition, as in -w 'length(@.a) > 1'",
        );
    }
    if matches!(text, Text::Query(_)) && begins_with_operator(rest.trim_start()) {
        return Some("a condition is given by -w, as in -w '@.status == 200'");
    }
    None
}

/// How the names of files end that have JSON in them.
const FILE_ENDS: &[&str] = &[".json", ".jsonl", ".ndjson", ".log", ".gz"];

/// What is meant where a query was to begin with `$` (RFC 9535, section 2.2).
fn help_with_root(rest: &str) -> Option<&'static str> {
    if rest.trim_start().starts_with('$') {
        return Some(NO_BLANKS);
    }
    if rest.starts_with('@') {
        return Some("a query begins with $; a condition, which may begin with @, is given by -w");
    }
    if FILE_ENDS.iter().any(|end| rest.ends_with(*end)) {
        return Some("the query comes first, and then the files, as in jpgrep '$.a' log.jsonl");
    }
    Some("a query begins with $, as in $.a.b")
}

/// What is meant where a name or a selector was to begin (RFC 9535, sections 2.3 and 2.5.1.1).
fn help_with_name(before: &str, rest: &str) -> Option<&'static str> {
    if rest.starts_with(']') {
        return Some("all elements or members are [*], as in $.items[*]");
    }
    if before.ends_with('.') && rest.starts_with(|c: char| c == '[' || c.is_ascii_digit()) {
        return Some("an index stands in brackets, without a dot before them, as in $.items[0]");
    }
    if rest.starts_with(is_curly) {
        return Some(STRAIGHT_QUOTES);
    }
    if rest.starts_with(|c: char| c == '\'' || c == '"') {
        return Some("a name in quotes stands in brackets, as in $['a b']");
    }
    if rest.starts_with(|c: char| c.is_alphabetic() || c == '_') {
        return Some("a name in brackets stands in quotes, as in $['name']");
    }
    None
}

/// What is meant by what follows an operand or a test, and cannot.
fn help_behind_operand(before: &str, rest: &str) -> Option<&'static str> {
    let help = help_behind_name(before, rest);
    if help.is_some() {
        return help;
    }
    let help = help_with_operator(before, rest);
    if help.is_none() && rest.starts_with(|c: char| matches!(c, '=' | '!' | '<' | '>')) {
        return Some("a comparison has two sides, and its opposite is @.a != 1 or !(@.a == 1)");
    }
    help
}

/// What was probably meant by a text that is no query or condition.
fn help_with_syntax(text: Text<'_>, place: usize, expected: Expected) -> Option<&'static str> {
    let before = text.text().get(..place)?;
    let rest = text.text().get(place..)?;
    match expected {
        Expected::Root => help_with_root(rest),
        Expected::Segment => help_with_segment(text, before, rest),
        Expected::Name | Expected::Selector | Expected::SingularName | Expected::SingularSelector =>
            help_with_name(before, rest),
        Expected::Operand | Expected::Test => help_with_operand(before, rest),
        Expected::Escape => Some("in a string a backslash is written twice, as in \"[0-9]\\\\.\""),
        Expected::SingularQuery => Some(
            "a comparison takes names and indexes alone; of others count or value makes a value",
        ),
        Expected::And => Some("'and' is &&"),
        Expected::Or => Some("'or' is ||"),
        Expected::ComparisonOrBracket
        | Expected::ComparisonOrParenthesis
        | Expected::Comparison
        | Expected::ComparisonOrEnd
        | Expected::End
        | Expected::Bracket
        | Expected::Parenthesis => help_behind_operand(before, rest),
        _ => None,
    }
}

/// What a function takes and gives (RFC 9535, section 2.4).
fn help_with_function(name: &str) -> &'static str {
    match name {
        "length" => "length takes one value, and gives a number, as in length(@.a) > 0",
        "count" => "count takes a path, and gives a number, as in count(@.*) > 1",
        "value" =>
            "value takes a path, and gives the value of its only node, as in value(@..a) == 1",
        "match" => "match takes two values, and is a condition, as in match(@.a, \"x.*\")",
        "search" => "search takes two values, and is a condition, as in search(@.a, \"x\")",
        "contains" | "includes" | "test" | "regex" | "like" => A_PART,
        "startswith" | "starts_with" | "startsWith" | "endswith" | "ends_with" | "endsWith" =>
            "how a text begins or ends is asked by match, as in match(@.a, \"x.*\")",
        "size" | "len" => "the length of a text, an array or an object is length(@.a)",
        _ => "there are five functions: length, count, value, match and search",
    }
}

/// The name of the function at a byte of a text.
pub(crate) fn function_at(text: &str, place: usize) -> &str {
    match text.get(place..) {
        Some(rest) => match rest.split_once('(') {
            Some((name, _)) => name,
            None => rest,
        },
        None => "",
    }
}

/// What was probably meant by a text that is refused, where there is a rule for it.
pub(crate) fn help_with(text: Text<'_>, found: FaultPlace) -> Option<&'static str> {
    match (found.fault, found.expected) {
        (QueryFault::Syntax, Some(expected)) => help_with_syntax(text, found.place, expected),
        (QueryFault::Function | QueryFault::Types, _) => {
            Some(help_with_function(function_at(text.text(), found.place)))
        }
        _ => None,
    }
}
