//! Laws of the definitions.

ghost use Rattle.jp_grep.specs.Colours.{ColoursComeOffContext, ColoursComeOffRows, ColoursComeOffSummaries, HeadersHaveNoColours};
ghost use Rattle.jp_grep.specs.Laws.{EachRootIsItsLine, RowsAreThoseOfAQuery};
ghost use Rattle.jp_grep.specs.Once.{EachLineIsSelectedOnce};
ghost use Rattle.jp_grep.specs.Tables.{CanonicalTextsMayStand, CellsHaveTexts};

/// The rows of values with their numbers and paths are, line by line and node by node, those that `query` of jpq answers, with
/// a colon after the number in place of a tab. A filter that lets a second path to a node count as none is no such filter: RFC
/// 9535 keeps duplicates (section 2.1.2).
pub fn rows_are_those_of_a_query()
    ensures { RowsAreThoseOfAQuery }
{}

/// Where the nodes that `$` selects are asked one by one, each of them is the root of its line: whatever else is asked, as much is
/// selected as where lines are asked, and what is written is the same. A definition that leaves out a node without steps, or binds
/// `$` to something else than the value of the line, is no such definition.
pub fn each_root_is_its_line()
    ensures { EachRootIsItsLine }
{}

/// Each line that is not blank is selected by exactly one of the query `$` and the question for refused lines, and the row of
/// either is the line and a line feed. So no line of a stream is lost between both.
pub fn each_line_is_selected_once()
    ensures { EachLineIsSelectedOnce }
{}

/// The cell of a value that a line spells has a text that is one of what it has: a number's is a number, that of an array or an
/// object begins with a bracket. So what the laws of `jp_table` say of a row holds of each row of a table.
pub fn cells_have_texts()
    ensures { CellsHaveTexts }
{}

/// The canonical text of any value may stand in a cell between tabs as it is: it has no tab and no line feed. So a row of
/// canonical texts leads back to them.
pub fn canonical_texts_may_stand()
    ensures { CanonicalTextsMayStand }
{}

/// Without its escape sequences what is written in colours is what is written without colours, whatever is asked of which
/// stream, and where lines around selected ones are shown: colours add, leave out and move nothing. A definition in which a
/// colour stands in a row whose head says its length without it, in which a coloured line loses the spaces around its value, or
/// in which a node is coloured in a value that is not printed as it stands, is no such definition.
pub fn colours_come_off()
    ensures rows { ColoursComeOffRows }
    ensures summaries { ColoursComeOffSummaries }
    ensures headers { HeadersHaveNoColours }
    ensures context { ColoursComeOffContext }
{}
