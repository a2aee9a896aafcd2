//! The question that the program's arguments ask.

use crate::calls::{add_note, note_condition, note_segments};
use crate::note::{Note, meant_by_condition, meant_condition};
use crate::patterns::Warner;
use crate::refusal::{Refusal, Text};
use jp_grep::{Origin, Queries, Question, Wanted};
use jp_options::Options;
use jp_query::{read_condition, read_query, read_relative_query};
use jp_syntax::is_singular;
use jp_types::Checked;
use std::alloc::AllocError;

/// A query, and where it begins.
#[derive(Drop)]
pub(crate) struct Asking {
    pub(crate) origin: Origin,
    pub(crate) query: Checked,
}

/// A list that is asked of: the query of the value, the file of the list, and whether the value is to be in it.
#[derive(Drop)]
pub(crate) struct AskedList<'a> {
    pub(crate) asking: Asking,
    pub(crate) file: &'a str,
    pub(crate) wanted: bool,
}

/// The question that is read, what is warned of, and the notes on it.
#[derive(Drop)]
struct Reader<'r, 'a> {
    rt: &'r HostRuntime,
    question: Question,
    warner: Warner<'r>,
    notes: Vec<Note<'a>>,
    lists: Vec<AskedList<'a>>,
}

/// The question without its lists, whether a pattern of it is not valid, the notes on it, and the lists.
#[derive(Drop)]
pub(crate) struct Asked<'a> {
    pub(crate) question: Question,
    pub(crate) has_warnings: bool,
    pub(crate) notes: Vec<Note<'a>>,
    pub(crate) lists: Vec<AskedList<'a>>,
}

impl<'r, 'a> Reader<'r, 'a> {
    /// Adds a query, and warns of its patterns. One that is a column selects no more than one node of any line. Where nodes are
    /// asked one by one it may begin at the node.
    fn add_query(
        &mut self,
        text: &'a str,
        is_column: bool,
        of_nodes: bool,
    ) -> Result<(), Refusal<'a>> {
        let Asking { origin, query } = read_asking(self.rt, Text::Query(text), of_nodes)?;
        if is_column && !is_singular(query.segments()) {
            return Err(Refusal::NotSingular(text));
        }
        self.warner.read_segments(query.segments())?;
        note_segments(query.segments(), &mut self.notes)?;
        if !of_nodes {
            self.note_filter(meant_condition(text, query.segments()))?;
        }
        Ok(self.question.add_query(self.rt.alloc(), origin, &query)?)
    }

    /// Adds the note on a filter that asks something else than was meant, if there is one.
    fn note_filter(&mut self, meant: Option<&'a str>) -> Result<(), AllocError> {
        match meant {
            Some(condition) => add_note(Note::Filter(condition), &mut self.notes),
            None => Ok(()),
        }
    }

    /// Asks the nodes of a query one by one, and warns of its patterns.
    fn ask_each(&mut self, text: &'a str) -> Result<(), Refusal<'a>> {
        match read_query(self.rt.alloc(), text.as_bytes()) {
            Ok(query) => {
                self.warner.read_segments(query.segments())?;
                note_segments(query.segments(), &mut self.notes)?;
                Ok(self.question.ask_each(self.rt.alloc(), &query)?)
            }
            Err(refusal) => Err(Refusal::of(Text::Query(text), refusal)),
        }
    }

    /// Adds a condition, and warns of its patterns.
    fn add_condition(&mut self, text: &'a str) -> Result<(), Refusal<'a>> {
        match read_condition(self.rt.alloc(), text.as_bytes()) {
            Ok(condition) => {
                self.warner.read_condition(condition.expression())?;
                note_condition(condition.expression(), &mut self.notes)?;
                self.note_filter(meant_by_condition(text, condition.expression()))?;
                Ok(self.question.add_condition(self.rt.alloc(), &condition)?)
            }
            Err(refusal) => Err(Refusal::of(Text::Condition(text), refusal)),
        }
    }

    /// Adds the lists that these arguments name: each query is followed by its file.
    fn add_lists(&mut self, words: &[&'a str], wanted: bool) -> Result<(), Refusal<'a>> {
        for pair in words.chunks_exact(2) {
            if let [text, file] = pair {
                let asking = read_list_query(self.rt, text)?;
                let list = AskedList {
                    asking,
                    file,
                    wanted,
                };
                if self.lists.push(list).is_err() {
                    return Err(Refusal::Memory);
                }
            }
        }
        Ok(())
    }
}

/// The query of a text, which begins at the root of a line, or where that may be with `@` at the node that is asked (RFC 9535,
/// section 2.3.5.1).
fn read_asking<'a>(
    rt: &HostRuntime,
    text: Text<'a>,
    may_be_relative: bool,
) -> Result<Asking, Refusal<'a>> {
    let bytes = text.text().as_bytes();
    let (origin, read) = if may_be_relative && text.text().starts_with('@') {
        (Origin::Current, read_relative_query(rt.alloc(), bytes))
    } else {
        (Origin::Root, read_query(rt.alloc(), bytes))
    };
    match read {
        Ok(query) => Ok(Asking { origin, query }),
        Err(refusal) => Err(Refusal::of(text, refusal)),
    }
}

/// The singular query of a list (RFC 9535, section 2.3.5.1).
fn read_list_query<'a>(rt: &HostRuntime, text: &'a str) -> Result<Asking, Refusal<'a>> {
    let asking = read_asking(rt, Text::ListQuery(text), true)?;
    if !is_singular(asking.query.segments()) {
        return Err(Refusal::of_many(text, asking.query.segments()));
    }
    Ok(asking)
}

/// Which lines the arguments select.
fn wanted(options: &Options<'_>) -> Wanted {
    if options.refused {
        Wanted::Refused
    } else if options.inverted {
        Wanted::Others
    } else {
        Wanted::Matching
    }
}

/// What the queries of the arguments are for.
fn purpose(options: &Options<'_>) -> Queries {
    if options.has_columns() {
        Queries::Columns
    } else {
        Queries::Filter
    }
}

/// The question of the arguments: their queries and conditions, asked of lines, or of the nodes of `--each`. Without a query it
/// is the node that is asked, and none is asked of refused lines.
pub(crate) fn read_question<'a>(
    rt: &HostRuntime,
    options: &Options<'a>,
) -> Result<Asked<'a>, Refusal<'a>> {
    let mut reader = Reader {
        rt,
        question: Question::new(rt.alloc(), wanted(options), purpose(options)),
        warner: Warner::new(rt),
        notes: Vec::new(rt.alloc()),
        lists: Vec::new(rt.alloc()),
    };
    for text in &options.each {
        reader.ask_each(text)?;
    }
    for text in options.queries() {
        reader.add_query(text, options.has_columns(), !options.each.is_empty())?;
    }
    reader.question.gather_columns(rt.alloc())?;
    for text in &options.conditions {
        reader.add_condition(text)?;
    }
    reader.add_lists(&options.lists, true)?;
    reader.add_lists(&options.other_lists, false)?;
    Ok(Asked {
        has_warnings: reader.warner.has_warned,
        notes: reader.notes,
        question: reader.question,
        lists: reader.lists,
    })
}
