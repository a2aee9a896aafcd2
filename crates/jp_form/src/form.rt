//! What is written of a stream, and which messages there are about it.

use jp_cut::Pieces;
use jp_model::Framing;

/// What of a stream plays the lines: it is numbered, asked and counted, one after another.
#[derive(Clone, Copy, Debug, PartialEq, Eq)]
pub enum Units {
    /// Its lines, or the texts of a sequence.
    Lines(Framing),
    /// Its JSON texts, over any number of lines, or the elements of those that are arrays.
    Pieces(Pieces),
}

/// How a value is spelled where it is printed.
#[derive(Clone, Copy, Debug, PartialEq, Eq)]
pub enum Spelling {
    /// By its bytes in the line.
    Source,
    /// A string by its characters, where each escape gives what it stands for, and any other value by its bytes.
    Text,
    /// In canonical form.
    Canonical,
}

/// What parts the cells of a table, and how a cell is written.
#[derive(Clone, Copy, Debug, PartialEq, Eq)]
pub enum Table {
    /// Tabs. In a cell a tab, a line feed, a carriage return and a backslash are escaped by a backslash.
    Tabs,
    /// Commas. A cell with a comma, a quote, a carriage return or a line feed is quoted (RFC 4180, section 2).
    Commas,
    /// Tabs. Each cell is a value in canonical form, or empty: no tab and no line feed stands in one, and nothing is escaped.
    Canonical,
}

/// What a row shows of a selected line.
#[derive(Clone, Copy, Debug, PartialEq, Eq)]
pub enum Shown {
    /// Nothing: no row is written.
    Nothing,
    /// The line; of a refused one the word of its fault and a tab in front, where they are wanted.
    Line { faults: bool },
    /// The line, told to a sink that shows lines around selected ones. Each other line is told too, as it is, with a hyphen after
    /// its name and its number: one that is not selected, a blank one and a refused one.
    Around,
    /// The line or the node that is selected, told as it is to a sink that makes no rows of it. A refused line has none.
    Nodes,
    /// Each value that the queries select, in a row of its own; with its normalized path and a tab in front where they are
    /// wanted. A refused line has none.
    Values { paths: bool },
    /// A cell for each query: empty where it selects no node, else of the first one. A refused line has none.
    Cells(Table),
}

/// What is written after the rows of a stream.
#[derive(Clone, Copy, Debug, PartialEq, Eq)]
pub enum Summary {
    Nothing,
    /// How many lines are selected.
    Count,
    /// The name of the stream, where a line is selected.
    NameWith,
    /// The name of the stream, where no line is selected.
    NameWithout,
}

/// What is written of a stream, and which messages there are about it.
#[derive(Clone, Copy)]
pub struct Form<'a> {
    /// What of the stream plays the lines.
    pub units: Units,
    pub shown: Shown,
    /// How a line or a value is spelled in its row. The cells of a table have a spelling of their own.
    pub spelling: Spelling,
    pub summary: Summary,
    /// The name of the stream.
    pub name: &'a str,
    /// The name as messages have it, in which no control character reaches a terminal.
    pub told_name: &'a str,
    /// Whether the name stands in front of each row, with a colon.
    pub named: bool,
    /// Whether a NUL stands after the name, in place of the colon or the line feed.
    pub null: bool,
    /// Whether the number of the line, from 1, stands in front of each row, with a colon.
    pub numbered: bool,
    /// Whether what stands in front of a row has colours: the name, the number, the path, and the signs after them. The rows of a
    /// table have none.
    pub coloured: bool,
    /// Whether a selected line is shown as it stands with the nodes coloured that the queries select, whatever the spelling.
    pub marked: bool,
    /// Whether refused lines are no fault: there is no message about them, and the exit status is none the worse for them.
    pub silent: bool,
    /// How many selected lines are wanted.
    pub most: u64,
    /// How many lines after the last one that is wanted are passed without being judged: nothing of them is selected, and none is
    /// refused. What stands after them is not read.
    pub trailing: u64,
}
