//! What the program's arguments ask for.

ghost use Rattle.std.specs.Prelude.{◌≡◌, true, IfOk, List, Some, codes, map, option_map, ◌∷◌, []};
ghost use Rattle.std.specs.Option.{is_some, option_map_or};
ghost use Rattle.clap.specs.Built.{IsParsedFrom, TakesValue};
ghost use Rattle.clap.specs.Words.{FailsBy, app_of, first_of, first_value, found_of};
ghost use Rattle.clap.specs.declared.parser.matches.ArgMatches.{ArgMatches};
ghost use Rattle.jp_cli.specs.Arguments.{IsArgument, IsAskedBy};
ghost use Rattle.jp_cli.specs.Words.{command_rule, commands_in, faults_in, file_rule, found_in, framing_of, parse_faults, program, script_rule, seq_rule, source_faults};

use clap::error::ErrorKind;
use clap::{Arg, ArgAction, Command, Error};
use jp_model::Framing;
use std::alloc::{AllocError, Global};

/// What the program's arguments ask for.
#[derive(Drop)]
pub struct Options<'a> {
    /// The file of the collection; `-` is standard input.
    pub file: &'a str,
    /// The file of the commands.
    pub script: Option<&'a str>,
    /// The commands of `-c`, in their order.
    pub commands: Vec<&'a str>,
    /// How the collection is cut into lines.
    pub framing: Framing,
}

/// The program's version.
const VERSION: &str = "0.3.0";

/// What follows the options in the program's help.
const COMMANDS: &str = "Commands:
  query Q      prints the values that the query Q (RFC 9535) selects
  check        lists the refused lines, and counts all lines
  index P      makes an index by the value at the path P, a singular query
  drop P       deletes that index
  indexes      lists the indexes
  explain Q    says which indexes would answer Q, and how many lines it would open
  append T     adds the line T at the end, in memory only
  replace N T  replaces line N, counted from 1, by T, in memory only

A selected value is a row of three fields with tabs between them: its line number, its path, and its bytes as they are in
the file. A refused line is a row with the reason, as in '23 !utf8'. The last row, as in '= 35', counts the values.
With neither -c nor --script, commands are read from standard input, one per line.

Examples:
  jpq log.jsonl -c 'query $..[?@.price > 20].title'
  zcat log.jsonl.gz | jpq - -c check
  jpq log.jsonl --script commands.txt";

/// Reads the program's arguments, `jpq FILE [-c COMMAND].. [--script FILE] [--seq]`. The first is its own name.
///
/// # Errors
///
/// The arguments are refused, they ask for help or for the version, or memory runs out: the error's kind says which. `-c` with
/// `--script` is refused, since the script would be two, and so is `-` with neither, since standard input would be both the
/// collection and the script.
pub fn read_words<'a>(alloc: Global, words: &'a [&'a str]) -> Result<Options<'a>, Error>
    ensures file { IfOk result (λ o. first_of (codes "file") (found_in (map (λ w. w.now) words.entry.now))
        ≡ Some o.file.now) }
    ensures script { IfOk result (λ o. first_of (codes "script") (found_in (map (λ w. w.now) words.entry.now))
        ≡ option_map (λ s. s.now) o.script) }
    ensures commands { IfOk result (λ o. map (λ s. s.now) o.commands.items
        ≡ commands_in (found_in (map (λ w. w.now) words.entry.now))) }
    ensures framing { IfOk result (λ o. o.framing
        ≡ framing_of (first_of (codes "seq") (found_in (map (λ w. w.now) words.entry.now)))) }
    ensures refused { FailsBy (faults_in (map (λ w. w.now) words.entry.now)) result }
{
    let options = parse(alloc, words)?;
    match options.source_fault() {
        None => Ok(options),
        Some((kind, message)) => Err(program_command(alloc)?.error(kind, message)?),
    }
}

/// The command whose arguments are the program's.
fn program_command<'a>(alloc: Global) -> Result<Command<'a>, AllocError>
    ensures program { IfOk result (λ c. app_of c ≡ program) }
    ensures file { IfOk result (λ c. (m : ArgMatches) → IsParsedFrom c m → is_some (first_value (found_of m) (codes "file")) ≡ true) }
{
    Command::new(alloc, "jpq")
        .version(VERSION)
        .after_help(COMMANDS)
        .arg(file_argument(alloc))?
        .arg(command_argument(alloc))?
        .arg(script_argument(alloc))?
        .arg(seq_argument(alloc))
}

/// Reads the arguments one by one, wherever the script is to come from.
fn parse<'a>(alloc: Global, words: &'a [&'a str]) -> Result<Options<'a>, Error>
    ensures asked { IfOk result (IsAskedBy (found_in (map (λ w. w.now) words.entry.now))) }
    ensures refused { FailsBy (parse_faults (map (λ w. w.now) words.entry.now)) result }
{
    let command = program_command(alloc)?;
    let matches = command.try_get_matches_from(words)?;
    let commands = matches.get_strs("command").unwrap_or(&[]);
    Ok(Options {
        file: matches.get_str("file").unwrap(),
        script: matches.get_str("script"),
        commands: Vec::from_slice(alloc, commands)?,
        framing: framing_of(matches.get_str("seq")),
    })
}

impl<'a> Options<'a> {
    /// Why the arguments name no one script, if they do not.
    fn source_fault(&self) -> Option<(ErrorKind, &'static str)>
        ensures { option_map_or (λ fault. fault.0 ∷ []) result []
            ≡ source_faults self.now.file.now (option_map (λ s. s.now) self.now.script)
            (map (λ s. s.now) self.now.commands.items) }
    {
        match self.script {
            Some(_) if !self.commands.is_empty() => {
                Some((ErrorKind::ArgumentConflict, TWO_SCRIPTS))
            }
            None if self.commands.is_empty() && self.file == "-" => {
                Some((ErrorKind::MissingRequiredArgument, NO_SCRIPT))
            }
            _ => None,
        }
    }
}

/// What is said if `-c` is used with `--script`.
const TWO_SCRIPTS: &str =
    "the argument '--command <COMMAND>' cannot be used with '--script <FILE>'";

/// What is said where standard input would be both the collection and the script.
const NO_SCRIPT: &str =
    "with '-' standard input is the file to query, so the commands have to come from '--command <COMMAND>' or '--script <FILE>'";

/// `FILE`, which has to be there.
fn file_argument<'a>(alloc: Global) -> Arg<'a>
    ensures argument { IsArgument result file_rule (codes "file") }
    ensures value { TakesValue result }
{
    Arg::new(alloc, "file")
        .help("The file to query, with one JSON value per line; - is standard input")
        .value_name("FILE")
        .required(true)
        .action(ArgAction::Set)
}

/// `-c COMMAND`, as often as wanted.
fn command_argument<'a>(alloc: Global) -> Arg<'a>
    ensures { IsArgument result command_rule (codes "command") }
{
    Arg::new(alloc, "command")
        .help("Runs this command; may be given several times")
        .value_name("COMMAND")
        .short('c')
        .long("command")
        .action(ArgAction::Append)
}

/// `--script FILE`.
fn script_argument<'a>(alloc: Global) -> Arg<'a>
    ensures { IsArgument result script_rule (codes "script") }
{
    Arg::new(alloc, "script")
        .help("Reads commands from this file, one per line")
        .value_name("FILE")
        .long("script")
        .action(ArgAction::Set)
}

/// The flag `--seq`.
fn seq_argument<'a>(alloc: Global) -> Arg<'a>
    ensures { IsArgument result seq_rule (codes "seq") }
{
    Arg::new(alloc, "seq")
        .help("FILE is a JSON text sequence (RFC 7464)")
        .long("seq")
        .action(ArgAction::SetTrue)
}

/// The framing that the value of the flag `--seq` asks for.
fn framing_of(flag: Option<&str>) -> Framing
    ensures { result ≡ framing_of (option_map (λ s. s.now) flag.entry) }
{
    match flag {
        Some(value) if value == "true" => Framing::Sequence,
        _ => Framing::Lines,
    }
}
