//! Laws of the definitions.

ghost use Rattle.jp_table.specs.Literals.{NumbersAreSpelled};
ghost use Rattle.jp_table.specs.ReadBack.{KindsLeadBack, RowsLeadBack};

/// What is taken for a number is what the grammar of numbers spells (RFC 8259, section 6).
pub fn numbers_are_spelled()
    ensures { NumbersAreSpelled }
{}

/// A row of a table leads back to its cells and to where it ends, whatever bytes its cells have and whatever follows it:
/// between tabs by what stands after a backslash, between commas as RFC 4180 has it (section 2). Of canonical cells it does
/// where they have no tab and no line feed.
pub fn rows_lead_back_to_their_cells()
    ensures { RowsLeadBack }
{}

/// A cell between commas leads back to what it has: nothing, a literal, a string, an array or an object. Only one in quotes
/// that begins with a bracket may be an array or an object, or a string with its text.
pub fn kinds_lead_back()
    ensures { KindsLeadBack }
{}
