//! What the program's arguments ask for, once they are read.

ghost use Rattle.std.specs.Prelude.{◌≡◌, ◌||◌, ◌∷◌, [], List, map};
ghost use Rattle.std.specs.Option.{option_map_or};
ghost use Rattle.clap.specs.Words.{Row};
ghost use Rattle.jp_options.specs.Colour.{asked_marks, gives_query};
ghost use Rattle.jp_options.specs.Command.{IsAskedBy, asks_each, asks_of_values, asks_spelling, conflicts_in, form_conflicts, names_nothing, prints_others, prints_values, stream_conflicts};
ghost use Rattle.jp_options.specs.Words.{asked_files, asked_most, asked_queries, asked_rows, asked_spelling, asked_summary, asked_trailing, asked_units, asks_names, begins_with_query, first_decides, names_list};

use crate::colour::Colour;
use crate::messages::{
    BOTH_FRONTS, BOTH_NAMES, BOTH_PIECES, BOTH_SPELLINGS, BOTH_TABLES, NO_NAMES, NO_PIECES,
    NO_QUERY, NO_QUESTION, NO_SPELLING, NO_VALUES, NO_VALUES_OF_NODES,
};
use clap::error::ErrorKind;
use jp_form::{Form, Pieces, Shown, Spelling, Summary, Table, Units};
use jp_model::Framing;

/// What the program's arguments ask for.
#[derive(Drop)]
pub struct Options<'a> {
    /// The arguments that belong to no option: the files, and before them the query where no option gives one, a condition or nodes.
    pub words: Vec<&'a str>,
    /// The queries of `-e`, in their order.
    pub queries: Vec<&'a str>,
    /// The conditions of `-w`, in their order.
    pub conditions: Vec<&'a str>,
    /// `--each`: the query whose nodes are asked one by one, if it is given.
    pub each: Vec<&'a str>,
    /// The values after each `--in`, in their order: a query, and the file of a list.
    pub lists: Vec<&'a str>,
    /// Those after each `--not-in`.
    pub other_lists: Vec<&'a str>,
    /// `-m`: how many selected lines of each file are wanted.
    pub most: Option<u64>,
    /// `-v`: the lines that do not match are selected.
    pub inverted: bool,
    /// `--refused`: the lines that are refused are selected.
    pub refused: bool,
    /// `-o`: the values are printed, and not the lines.
    pub only_matching: bool,
    /// `-p`: the path of each value is printed in front of it, or the word of the fault in front of a refused line.
    pub paths: bool,
    /// `-r`: a string is printed as its text.
    pub raw: bool,
    /// `-j`: what is printed is in canonical form.
    pub canonical: bool,
    /// `--tsv`: cells between tabs are printed, and not the lines.
    pub tabs: bool,
    /// `--csv`: cells between commas.
    pub commas: bool,
    /// `--header`: the queries are printed above the cells.
    pub header: bool,
    /// `--names`: what is printed above the cells in place of the queries, if it is given.
    pub names: Vec<&'a str>,
    /// `--tally`: how often each value came is printed.
    pub tally: bool,
    /// `--paths`: the paths of all values are printed, with how often each came.
    pub survey: bool,
    /// `--fold`: how many names the nodes of an object's path may have before its paths are folded.
    pub fold: Option<u64>,
    /// `-A`: how many lines after each selected line are shown.
    pub after: Option<u64>,
    /// `-B`: how many lines before it are.
    pub before: Option<u64>,
    /// `-C`: how many lines before and after it are, where `-B` or `-A` does not say.
    pub around: Option<u64>,
    /// `--color`: when what is printed has colours.
    pub colour: Colour,
    /// `-n`: the number of each line is printed in front.
    pub numbered: bool,
    /// `-c`: how many lines are selected is printed.
    pub counted: bool,
    /// `-q`: nothing is printed.
    pub quiet: bool,
    /// `-l`: the names of the files with a selected line are printed.
    pub with_matches: bool,
    /// `-L`: the names of the files without one are printed.
    pub without_matches: bool,
    /// `-H`: the name of the file is printed in front.
    pub named: bool,
    /// `-h`: it is not.
    pub unnamed: bool,
    /// `-Z`: a NUL stands after it.
    pub null: bool,
    /// `-s`: refused lines are passed over, and there is no message about a file that cannot be read.
    pub silent: bool,
    /// `--check`: no file is read, and queries and conditions are looked at alone.
    pub checks: bool,
    /// `--json`: JSON texts over any number of lines play the lines.
    pub texts: bool,
    /// `--elements`: the elements of those that are arrays do.
    pub elements: bool,
    /// `--seq`: the files are text sequences (RFC 7464).
    pub sequence: bool,
}

impl<'a> Options<'a> {
    /// Whether `--in` or `--not-in` is given.
    fn names_list(&self) -> bool
        ensures { result ≡ names_list self.now }
    {
        !self.lists.is_empty() || !self.other_lists.is_empty()
    }

    /// Whether nodes are asked one by one.
    pub(crate) fn asks_each(&self) -> bool
        ensures { (found : List Row) → IsAskedBy found self.now → result ≡ asks_each found }
    {
        !self.each.is_empty()
    }

    /// Whether none of `-e`, `-w`, `--each`, `--in` and `--not-in` is given.
    fn names_nothing(&self) -> bool
        ensures { (found : List Row) → IsAskedBy found self.now → result ≡ names_nothing found }
    {
        self.queries.is_empty()
            && self.conditions.is_empty()
            && !self.asks_each()
            && !self.names_list()
    }

    /// Whether a value is spelled otherwise than its line spells it.
    fn asks_spelling(&self) -> bool
        ensures { (found : List Row) → IsAskedBy found self.now → result ≡ asks_spelling found }
    {
        self.raw || self.canonical
    }

    /// Whether something is asked of values, which a refused line has none of.
    fn asks_of_values(&self) -> bool
        ensures { (found : List Row) → IsAskedBy found self.now → result ≡ asks_of_values found }
    {
        !self.names_nothing()
            || self.inverted
            || self.only_matching
            || self.asks_spelling()
            || self.is_table()
    }

    /// Whether values are printed of which there are none where something does not match: with `--each` those of `-e`, and else
    /// all of them.
    fn prints_values(&self) -> bool
        ensures { (found : List Row) → IsAskedBy found self.now → result ≡ prints_values found }
    {
        if self.asks_each() {
            !self.queries.is_empty()
        } else {
            self.only_matching
        }
    }

    /// Whether what does not match is selected, and something is printed that it has none of.
    fn prints_others(&self) -> bool
        ensures { (found : List Row) → IsAskedBy found self.now → result ≡ prints_others found }
    {
        self.inverted && (self.is_table() || self.paths || self.prints_values())
    }

    /// What is said where it is.
    fn no_values(&self) -> &'static str {
        if !self.each.is_empty() {
            NO_VALUES_OF_NODES
        } else {
            NO_VALUES
        }
    }

    /// Why the options of what is printed do not go together, if they do not.
    fn form_conflict(&self) -> Option<(ErrorKind, &'static str)>
        ensures { (found : List Row) → IsAskedBy found self.now
            → option_map_or (λ conflict. conflict.0 ∷ []) result [] ≡ form_conflicts found }
    {
        let (table, values) = (self.is_table(), self.only_matching || self.paths);
        if self.raw && self.canonical {
            return Some((ErrorKind::ArgumentConflict, BOTH_SPELLINGS));
        }
        if self.tabs && self.commas {
            return Some((ErrorKind::ArgumentConflict, BOTH_TABLES));
        }
        if table && (values || self.asks_spelling()) {
            return Some((ErrorKind::ArgumentConflict, NO_SPELLING));
        }
        if let Some(conflict) = self.missing_conflict() {
            return Some(conflict);
        }
        if !self.names.is_empty() && self.names.len() != self.queries.len().max(1) {
            return Some((ErrorKind::WrongNumberOfValues, NO_NAMES));
        }
        if self.prints_others() {
            return Some((ErrorKind::ArgumentConflict, self.no_values()));
        }
        None
    }

    /// Why the options of what plays the lines do not go together, if they do not.
    fn stream_conflict(&self) -> Option<(ErrorKind, &'static str)>
        ensures { (found : List Row) → IsAskedBy found self.now
            → option_map_or (λ conflict. conflict.0 ∷ []) result [] ≡ stream_conflicts found }
    {
        if self.texts && self.elements {
            return Some((ErrorKind::ArgumentConflict, BOTH_PIECES));
        }
        if self.sequence && (self.texts || self.elements) {
            return Some((ErrorKind::ArgumentConflict, NO_PIECES));
        }
        None
    }

    /// Why the options do not go together, if they do not.
    pub(crate) fn conflict(&self) -> Option<(ErrorKind, &'static str)>
        ensures { (found : List Row) → IsAskedBy found self.now
            → option_map_or (λ conflict. conflict.0 ∷ []) result [] ≡ conflicts_in found }
    {
        if self.with_matches && self.without_matches {
            return Some((ErrorKind::ArgumentConflict, BOTH_NAMES));
        }
        if self.named && self.unnamed {
            return Some((ErrorKind::ArgumentConflict, BOTH_FRONTS));
        }
        if self.refused && self.asks_of_values() {
            return Some((ErrorKind::ArgumentConflict, NO_QUESTION));
        }
        if let Some(conflict) = self.told_conflict() {
            return Some(conflict);
        }
        if let Some(conflict) = self.form_conflict() {
            return Some(conflict);
        }
        if let Some(conflict) = self.stream_conflict() {
            return Some(conflict);
        }
        if !self.refused && !self.survey && self.words.is_empty() && self.names_nothing() {
            return Some((ErrorKind::MissingRequiredArgument, NO_QUERY));
        }
        None
    }
}

impl<'a> Options<'a> {
    /// Whether the first argument is the query.
    fn begins_with_query(&self) -> bool
        ensures { result ≡ begins_with_query self.now }
    {
        !self.refused
            && !self.survey
            && self.queries.is_empty()
            && self.conditions.is_empty()
            && self.each.is_empty()
            && !self.names_list()
    }

    /// Whether a query is given: the first argument, or one of `-e`.
    pub(crate) fn gives_query(&self) -> bool
        ensures { result ≡ gives_query self.now }
    {
        self.begins_with_query() || !self.queries.is_empty()
    }

    /// The queries that the arguments name: those of `-e`, or the first argument where there is none of `-e`, `-w`, `--each`, `--in`,
    /// `--not-in` and `--paths`. Without `-e` it is the node that is asked otherwise: `$`, or with `--each` `@`. With `--refused` there is none.
    pub fn queries(&self) -> &[&'a str]
        ensures { map (λ s. s.now) result.now ≡ asked_queries self.now }
    {
        if self.begins_with_query() {
            &self.words[..self.words.len().min(1)]
        } else if !self.refused && self.queries.is_empty() {
            if !self.each.is_empty() {
                &["@"]
            } else {
                &["$"]
            }
        } else {
            &self.queries
        }
    }

    /// Whether the rows are those of a table, in which each query is a column.
    pub fn is_table(&self) -> bool
        ensures { result ≡ (self.now.tabs || self.now.commas) }
    {
        self.tabs || self.commas
    }

    /// The files that the arguments name.
    pub fn files(&self) -> &[&'a str]
        ensures { map (λ s. s.now) result.now ≡ asked_files self.now }
    {
        if self.begins_with_query() {
            &self.words[self.words.len().min(1)..]
        } else {
            &self.words
        }
    }

    /// Whether the first selected line of a file decides: nothing but that there is one is asked for.
    pub(crate) fn first_decides(&self) -> bool
        ensures { result ≡ first_decides self.now }
    {
        self.quiet || self.with_matches || self.without_matches
    }

    /// How many selected lines of each file are wanted: as many as `-m` says, or else as 64 bits count. Where the first
    /// decides, it is no more than one.
    pub fn most(&self) -> u64
        ensures { result ≡ asked_most self.now }
    {
        let most = self.most.unwrap_or(u64::MAX);
        if self.first_decides() {
            most.min(1)
        } else {
            most
        }
    }

    /// What of a file plays the lines.
    fn units(&self) -> Units
        ensures { result ≡ asked_units self.now }
    {
        if self.texts {
            Units::Pieces(Pieces::Texts)
        } else if self.elements {
            Units::Pieces(Pieces::Elements)
        } else if self.sequence {
            Units::Lines(Framing::Sequence)
        } else {
            Units::Lines(Framing::Lines)
        }
    }

    /// What a row shows: nothing where something else is printed.
    fn shown(&self) -> Shown
        ensures { result ≡ asked_rows self.now }
    {
        if self.first_decides() || self.counted {
            Shown::Nothing
        } else if self.asks_context() {
            Shown::Around
        } else if self.tally {
            self.tallied()
        } else if self.survey {
            Shown::Nodes
        } else if self.tabs {
            Shown::Cells(Table::Tabs)
        } else if self.commas {
            Shown::Cells(Table::Commas)
        } else if self.refused {
            Shown::Line { faults: self.paths }
        } else if self.only_matching || self.paths || !self.each.is_empty() {
            Shown::Values { paths: self.paths }
        } else {
            Shown::Line { faults: false }
        }
    }

    /// How a row spells what it shows.
    pub(crate) fn spelling(&self) -> Spelling
        ensures { result ≡ asked_spelling self.now }
    {
        if self.tally {
            Spelling::Canonical
        } else if self.raw {
            Spelling::Text
        } else if self.canonical {
            Spelling::Canonical
        } else {
            Spelling::Source
        }
    }

    /// What is printed of a file in place of rows.
    fn summary(&self) -> Summary
        ensures { result ≡ asked_summary self.now }
    {
        if self.quiet {
            Summary::Nothing
        } else if self.with_matches {
            Summary::NameWith
        } else if self.without_matches {
            Summary::NameWithout
        } else if self.counted {
            Summary::Count
        } else {
            Summary::Nothing
        }
    }

    /// The form of the rows of the file with this name, which messages have as `told_name`, in colours or not. Refused lines
    /// that are selected are no fault.
    pub fn form<'f>(&self, name: &'f str, told_name: &'f str, coloured: bool) -> Form<'f>
        ensures shown { result.shown ≡ asked_rows self.now }
        ensures spelling { result.spelling ≡ asked_spelling self.now }
        ensures summary { result.summary ≡ asked_summary self.now }
        ensures name { result.name ≡ name.entry }
        ensures told_name { result.told_name ≡ told_name.entry }
        ensures named { result.named ≡ asks_names self.now }
        ensures null { result.null ≡ self.now.null }
        ensures numbered { result.numbered ≡ self.now.numbered }
        ensures coloured { result.coloured ≡ coloured }
        ensures marked { result.marked ≡ asked_marks coloured self.now }
        ensures silent { result.silent ≡ (self.now.silent || self.now.refused) }
        ensures units { result.units ≡ asked_units self.now }
        ensures most { result.most ≡ asked_most self.now }
        ensures trailing { result.trailing ≡ asked_trailing self.now }
    {
        Form {
            units: self.units(),
            shown: self.shown(),
            spelling: self.spelling(),
            summary: self.summary(),
            name,
            told_name,
            named: self.is_named(),
            null: self.null,
            numbered: self.numbered,
            coloured,
            marked: self.marks_nodes(coloured),
            silent: self.silent || self.refused,
            most: self.most(),
            trailing: self.lines_trailing(),
        }
    }
}
