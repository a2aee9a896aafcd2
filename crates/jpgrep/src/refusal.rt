//! What is said of a query or a condition that is refused.

use crate::excerpt::Excerpt;
use crate::files::tell_memory;
use crate::help::{function_at, help_with};
use jp_model::QueryFault;
use jp_query::{FaultPlace, Segment, singular_selector};
use std::alloc::AllocError;

/// Which of the program's arguments a text is.
#[derive(Clone, Copy, Debug)]
pub(crate) enum Text<'a> {
    /// A query.
    Query(&'a str),
    /// A condition.
    Condition(&'a str),
    /// The query of a list.
    ListQuery(&'a str),
}

impl<'a> Text<'a> {
    /// The text itself.
    pub(crate) fn text(self) -> &'a str {
        match self {
            Text::Query(text) | Text::Condition(text) | Text::ListQuery(text) => text,
        }
    }

    /// The bytes that it has at most. A condition is read between `$[?` and `]`, within the limits of a query.
    fn most_bytes(self) -> usize {
        match self {
            Text::Query(_) | Text::ListQuery(_) => 65_535,
            Text::Condition(_) => 65_531,
        }
    }

    /// The bytes `(` and `[` that it has at most, together.
    fn most_brackets(self) -> usize {
        match self {
            Text::Query(_) | Text::ListQuery(_) => 512,
            Text::Condition(_) => 511,
        }
    }

    /// What it is, in a word.
    fn word(self) -> &'static str {
        match self {
            Text::Query(_) | Text::ListQuery(_) => "query",
            Text::Condition(_) => "condition",
        }
    }
}

/// Why no question was read.
#[derive(Debug, Drop)]
pub(crate) enum Refusal<'a> {
    /// A query or a condition is refused.
    Fault(Text<'a>, FaultPlace),
    /// A query that is a column of a table is not singular (RFC 9535, section 2.3.5.1).
    NotSingular(&'a str),
    /// The query of a list is not singular, from a byte of it on.
    Many(&'a str, usize),
    /// Standard input is asked for twice.
    Twice,
    /// A growth was refused.
    Memory,
}

impl<'a> From<AllocError> for Refusal<'a> {
    fn from(_error: AllocError) -> Refusal<'a> {
        Refusal::Memory
    }
}

/// Says what is wrong, shows the text, and points at the place.
fn tell_fault(rt: &HostRuntime, text: Text<'_>, found: FaultPlace) -> Result<(), AllocError> {
    let word = text.word();
    let name = function_at(text.text(), found.place);
    let _ = match (found.fault, found.expected) {
        (QueryFault::Syntax, Some(expected)) => {
            eprintln!(rt; "jpgrep: {word}: syntax: expected {}", expected.words())
        }
        (QueryFault::Syntax, None) => eprintln!(rt; "jpgrep: {word}: syntax"),
        (QueryFault::Integer, _) => eprintln!(rt; "jpgrep: {word}: integer beyond 2^53 - 1"),
        (QueryFault::Number, _) => eprintln!(rt; "jpgrep: {word}: exponent of more than 15 digits"),
        (QueryFault::Size, _) => return tell_size(rt, text, found.place),
        (QueryFault::Function, _) => eprintln!(rt; "jpgrep: {word}: unknown function '{name}'"),
        (QueryFault::Types, _) => {
            eprintln!(rt;
                "jpgrep: {word}: function '{name}' does not fit here, or its arguments do not fit it"
            )
        }
    };
    point_at(rt, text, found.place)?;
    if let Some(help) = help_with(text, found) {
        let _ = eprintln!(rt; "  help: {help}");
    }
    Ok(())
}

/// Shows the text around a place, and points at it.
fn point_at(rt: &HostRuntime, text: Text<'_>, place: usize) -> Result<(), AllocError> {
    let excerpt = Excerpt::around(rt.alloc(), text.text(), place)?;
    let line = excerpt.line.as_str();
    let indent = excerpt.indent.as_str();
    let _ = eprintln!(rt; "  {line}\n  {indent}^");
    Ok(())
}

/// Says which limit a text is past: that of its bytes, where no place means anything, or that of its brackets.
fn tell_size(rt: &HostRuntime, text: Text<'_>, place: usize) -> Result<(), AllocError> {
    let word = text.word();
    let most = text.most_bytes();
    if text.text().len() > most {
        let _ = eprintln!(rt; "jpgrep: {word}: more than {most} bytes");
        return Ok(());
    }
    let most = text.most_brackets();
    let _ = eprintln!(rt; "jpgrep: {word}: more than {most} brackets and parentheses");
    point_at(rt, text, place)
}

/// Says that a query is no column of a table, and shows it.
fn tell_not_singular(rt: &HostRuntime, text: &str) -> Result<(), AllocError> {
    let _ = eprintln!(rt;
        "jpgrep: query: a column of a table has names and indexes alone, so that it is one value"
    );
    let excerpt = Excerpt::around(rt.alloc(), text, 0)?;
    let line = excerpt.line.as_str();
    let _ = eprintln!(rt; "  {line}");
    Ok(())
}

/// Says that the query of a list is not singular, shows it, and points at its first segment that is not.
fn tell_many(rt: &HostRuntime, text: &str, place: usize) -> Result<(), AllocError> {
    let _ = eprintln!(rt;
        "jpgrep: query: what is looked for in a list has names and indexes alone, so that it is one value"
    );
    point_at(rt, Text::ListQuery(text), place)
}

/// The byte at which a segment of a query begins, by the number of those before it: at a dot or a bracket that stands in no
/// quotes and no other bracket, and after no other dot.
fn place_of_segment(text: &str, number: usize) -> usize {
    let mut begun: usize = 0;
    let mut open: usize = 0;
    let mut quote = None;
    let mut before = '$';
    for (at, scalar) in text.char_indices() {
        let begins = quote.is_none() && open == 0 && before != '.' && matches!(scalar, '.' | '[');
        if begins {
            if begun == number {
                return at;
            }
            begun = begun.saturating_add(1);
        }
        match (quote, scalar) {
            (None, '\'' | '"') => quote = Some(scalar),
            (None, '[') => open = open.saturating_add(1),
            (None, ']') => open = open.saturating_sub(1),
            (Some(mark), _) if scalar == mark && before != '\\' => quote = None,
            _ => {}
        }
        before = if before == '\\' { ' ' } else { scalar };
    }
    0
}

impl<'a> Refusal<'a> {
    /// The refusal of a list's query, which is not singular.
    pub(crate) fn of_many(text: &'a str, segments: &[Segment]) -> Refusal<'a> {
        let mut number: usize = 0;
        for segment in segments {
            if singular_selector(segment).is_none() {
                return Refusal::Many(text, place_of_segment(text, number));
            }
            number = number.saturating_add(1);
        }
        Refusal::Many(text, 0)
    }

    /// The refusal of a text.
    pub(crate) fn of(text: Text<'a>, refusal: jp_query::Refusal) -> Refusal<'a> {
        match refusal {
            jp_query::Refusal::Fault(found) => Refusal::Fault(text, found),
            jp_query::Refusal::Memory => Refusal::Memory,
        }
    }

    /// Says why no question was read.
    pub(crate) fn tell(&self, rt: &HostRuntime) {
        let told = match self {
            Refusal::Fault(text, found) => tell_fault(rt, *text, *found),
            Refusal::NotSingular(text) => tell_not_singular(rt, text),
            Refusal::Many(text, place) => tell_many(rt, text, *place),
            Refusal::Twice => {
                let _ = eprintln!(rt;
                    "jpgrep: standard input is read once: it is one list, or it is searched"
                );
                Ok(())
            }
            Refusal::Memory => Err(AllocError),
        };
        if told.is_err() {
            tell_memory(rt);
        }
    }
}
