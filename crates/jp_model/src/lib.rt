//! The definitions that every other crate builds on, and the types that crates share.
//!
//! Public calls, beside the definitions and laws:
//!
//! - `Span`, `Framing`, `LineFault`, `QueryFault`, `Setup`, `RunFault`: types that crates share; `word` of a fault is the
//!   word in its row or error line
//! - `Lines`, `without_byte_order_mark`, `is_blank`: the lines of a collection; its bytes after a mark at the front; whether a
//!   line is white space alone
//! - `Watched`: a device whose calls are watched, as `jp_devices` has it
#![tactic(auto)]

pub mod laws;
mod lines;
#[cfg(test)]
mod tests;
pub mod worked;

ghost use Rattle.std.specs.Prelude.{◌≡◌};
ghost use Rattle.jp_model.specs.Characters.{is_white as is_white_byte};
ghost use Rattle.jp_model.specs.Lines.{is_blank as is_blank_line};
ghost use Rattle.jp_model.specs.Rows.{line_fault_word};
ghost use Rattle.jp_model.specs.Script.Machine.{query_fault_word};

pub use jp_devices::Watched;
pub use lines::{Lines, without_byte_order_mark};

/// Where a value, or the body of a name, is in its line.
#[derive(Clone, Copy, Debug, PartialEq, Eq)]
pub struct Span {
    /// The place of the first byte, counted in bytes from the start of the line.
    pub start: u32,
    /// The place after the last byte, counted in the same way.
    pub end: u32,
}

/// How a collection is cut into lines.
#[derive(Clone, Copy, Debug, PartialEq, Eq)]
pub enum Framing {
    /// One text to a line: a line feed ends each (JSON Lines).
    Lines,
    /// A text sequence, each text after a record separator (RFC 7464).
    Sequence,
}

/// Why a line is refused: the first of these that holds, in this order.
///
/// The numbers are those of the program's interface, and no order.
#[derive(Clone, Copy, Debug, PartialEq, Eq)]
pub enum LineFault {
    /// The bytes are not UTF-8 (RFC 8259, section 8.1).
    Utf8 = 1,
    /// The bytes are not valid JSON (RFC 8259, section 2).
    Grammar = 2,
    /// The text of a sequence is a number, `true`, `false` or `null` with no white space after it, so its end may be
    /// lost (RFC 7464, section 2.4).
    Truncated = 7,
    /// Arrays and objects are nested more than 512 deep (RFC 8259, section 9, leaves the limit open).
    Depth = 3,
    /// A string or a name has half of a surrogate pair alone (RFC 8259, section 8.2, leaves its meaning open).
    Surrogate = 4,
    /// The exponent of a number has more than 15 digits after its leading zeros (RFC 8259, section 9, leaves the limit
    /// open).
    Number = 5,
    /// An object has two equal names, compared by what they spell (RFC 8259, section 4, leaves their meaning open).
    Duplicate = 6,
}

impl LineFault {
    /// The word of the fault in the row of a refused line: the variant's name in lower case.
    pub fn word(self) -> &'static str
        ensures { result.now ≡ line_fault_word self }
    {
        match self {
            LineFault::Utf8 => "utf8",
            LineFault::Grammar => "grammar",
            LineFault::Truncated => "truncated",
            LineFault::Depth => "depth",
            LineFault::Surrogate => "surrogate",
            LineFault::Number => "number",
            LineFault::Duplicate => "duplicate",
        }
    }
}

/// Why a query is refused: the first of these that holds of its text, in this order.
#[derive(Clone, Copy, Debug, PartialEq, Eq)]
pub enum QueryFault {
    /// The text has more than 65,535 bytes, or more than 512 bytes `(` or `[` together, wherever they are.
    Size = 1,
    /// The text is not UTF-8, or no query (RFC 9535, appendix A).
    Syntax = 2,
    /// An index, or a bound or step of a slice, is below -9,007,199,254,740,991 or above 9,007,199,254,740,991 (RFC
    /// 9535, section 2.1).
    Integer = 3,
    /// The exponent of a number has more than 15 digits after its leading zeros.
    Number = 4,
    /// A function is not one of `length`, `count`, `match`, `search` and `value` (RFC 9535, section 2.4).
    Function = 5,
    /// The query is not well-typed, a wrong number of arguments included (RFC 9535, section 2.4.3).
    Types = 6,
}

impl QueryFault {
    /// The word of the fault in the error line of a command: the variant's name in lower case.
    pub fn word(self) -> &'static str
        ensures { result.now ≡ query_fault_word self }
    {
        match self {
            QueryFault::Size => "size",
            QueryFault::Syntax => "syntax",
            QueryFault::Integer => "integer",
            QueryFault::Number => "number",
            QueryFault::Function => "function",
            QueryFault::Types => "types",
        }
    }
}

/// How a script is run.
#[derive(Clone, Copy, Debug, PartialEq, Eq)]
pub struct Setup {
    /// How the collection is cut into lines.
    pub framing: Framing,
    /// The greatest size of the collection, in bytes. An edit is refused where the lines, with one byte more for each,
    /// would be above it.
    pub most: u32,
    /// The greatest size of the script, in bytes.
    pub script_most: u32,
}

/// Why a run stopped before its end.
#[derive(Clone, Copy, Debug, PartialEq, Eq)]
pub enum RunFault {
    /// A read of the collection failed; nothing was written.
    ReadCollection = 1,
    /// The collection has more bytes than it may have; nothing was written.
    Size = 2,
    /// A byte that is not white space comes before the first record separator of a sequence; nothing was written.
    Framing = 3,
    /// A read of the script failed, or the script has more bytes than it may have; the output of the command lines that
    /// were ended before is written.
    ReadScript = 4,
    /// A write failed, or took no byte; a beginning of the output is written.
    Write = 5,
    /// A growth of memory was refused while the collection was loaded or a command line was held; the output of the
    /// commands before is written.
    Memory = 6,
}

/// Whether the byte is white space (RFC 8259, section 2).
fn is_white(byte: u8) -> bool
    ensures { result ≡ is_white_byte byte }
{
    byte == b' ' || byte == b'\t' || byte == b'\n' || byte == b'\r'
}

/// Whether a line is white space alone, or nothing.
///
/// White space is a space, a tab, a line feed or a carriage return (RFC 8259, section 2). A blank line has a number and no
/// answer.
pub fn is_blank(line: &[u8]) -> bool
    ensures { result ≡ is_blank_line line.now }
{
    line.iter().all(|byte| is_white(*byte))
}
