//! The command lines of a script.

ghost use Rattle.std.specs.Prelude.{◌≡◌, false, true, None, Some, MatchOption};
ghost use Rattle.jp_model.specs.Characters.{digits_value};
ghost use Rattle.jp_model.specs.Script.Commands.{first_word, behind_word, is_line_number, replace_command, command_with, command_of};
ghost use Rattle.jp_cli.specs.Commands.{command_view};

use memchr::memchr;

/// The most digits that the number of a line has in a command.
const MOST_NUMBER_DIGITS: usize = 10;

/// What a command line asks for.
pub(crate) enum Command<'a> {
    /// Nothing.
    Empty,
    /// The nodes of a query, whose text follows the word.
    Query(&'a [u8]),
    /// How a query is answered.
    Explain(&'a [u8]),
    /// An index of the path of a singular query.
    Index(&'a [u8]),
    /// That the index of a path goes.
    Drop(&'a [u8]),
    /// The paths of the indexes.
    Indexes,
    /// The refused lines, and how many lines there are.
    Check,
    /// A line after the others.
    Append(&'a [u8]),
    /// Another text of the line of this number.
    Replace { number: u64, text: &'a [u8] },
    /// What no command does.
    Unknown,
}

/// What comes before the first space of a line, and what follows it, if there is one.
fn split_word(line: &[u8]) -> Option<(&[u8], &[u8])>
    ensures { MatchOption result (behind_word line.now ≡ None) (λ parts. (first_word line.now ≡ parts.0.now) × (behind_word line.now ≡ Some parts.1.now)) }
{
    let Some(end) = memchr(b' ', line) else {
        return None;
    };
    Some((&line[..end], &line[end + 1..]))
}

/// The number of a line: 1 to 10 digits, the first not 0.
fn line_number(digits: &[u8]) -> Option<u64>
    ensures { MatchOption result (is_line_number digits.now ≡ false) (λ number. (is_line_number digits.now ≡ true) × (number ≡ digits_value digits.now)) }
{
    let [first, ..] = digits else {
        return None;
    };
    if *first == b'0' || digits.len() > MOST_NUMBER_DIGITS {
        return None;
    }
    let mut value: u64 = 0;
    for digit in digits {
        if *digit < b'0' || b'9' < *digit {
            return None;
        }
        value = value * 10 + u64::from(*digit - b'0');
    }
    Some(value)
}

/// The replacement of a line: its number, one space, and its text.
fn read_replacement(argument: &[u8]) -> Command<'_>
    ensures { command_view result ≡ replace_command (first_word argument.now) (behind_word argument.now) }
{
    let Some((digits, text)) = split_word(argument) else {
        return Command::Unknown;
    };
    match line_number(digits) {
        Some(number) => Command::Replace { number, text },
        None => Command::Unknown,
    }
}

/// What the first word of a command asks for with its argument.
fn read_argument<'a>(word: &[u8], argument: &'a [u8]) -> Command<'a>
    ensures { command_view result ≡ command_with word.now (Some argument.now) }
{
    if word == b"query".as_slice() {
        return Command::Query(argument);
    }
    if word == b"explain".as_slice() {
        return Command::Explain(argument);
    }
    if word == b"index".as_slice() {
        return Command::Index(argument);
    }
    if word == b"drop".as_slice() {
        return Command::Drop(argument);
    }
    if word == b"append".as_slice() {
        return Command::Append(argument);
    }
    if word == b"replace".as_slice() {
        return read_replacement(argument);
    }
    Command::Unknown
}

/// Reads a command line: a word, one space, and the rest of the line as its argument.
pub(crate) fn read_command(line: &[u8]) -> Command<'_>
    ensures { command_view result ≡ command_of line.now }
{
    if line.is_empty() {
        return Command::Empty;
    }
    if line == b"indexes".as_slice() {
        return Command::Indexes;
    }
    if line == b"check".as_slice() {
        return Command::Check;
    }
    match split_word(line) {
        Some((word, argument)) => read_argument(word, argument),
        None => Command::Unknown,
    }
}
