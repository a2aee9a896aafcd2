//! The program's arguments, and what its help says of them.

ghost use Rattle.std.specs.Prelude.{◌≡◌, IfOk, codes, false};
ghost use Rattle.clap.specs.Words.{app_of, new_app, rule_of};
ghost use Rattle.jp_options.specs.Command.{asking_rules, context_rules, flag_rule, front_rules, general_rules, help_rule, list_rule, number_rule, option_rule, printing_rules, program, spelling_rules, survey_rules, value_rule, with_rules, with_settings, word_rule, words_rule};

use clap::{Arg, ArgAction, Command};
use std::alloc::{AllocError, Global};

/// The program's version.
const VERSION: &str = "0.3.0";

/// What follows the options in the program's help.
const AFTER_HELP: &str =
    "A line is selected if its value matches: every CONDITION holds, and some QUERY (RFC 9535) selects a node.
With --csv or --tsv each QUERY is a column, and a line matches if every CONDITION holds.
With --each QUERY the nodes that it selects are asked in place of lines, and a QUERY of -e may begin with @.
Lines that are blank or no JSON never match; those that are no JSON are told on standard error, ten of each file.
With -e, -w, --each, --in, --not-in, --refused or --paths every word is a FILE. With no FILE, or where FILE is -, standard input is read.
The exit status is 0 if a line is selected, 1 if none is, and 2 if anything is refused or fails.

Examples:
  jpgrep '$[?$.level==\"error\"]' log.jsonl
  jpgrep -w '@.level == \"error\" && @.ms > 200' log.jsonl
  jpgrep --csv --names time,ms -e '$.time' -e '$.ms' log.jsonl
  jpgrep --csv --each '$.items[*]' -e '$.id' -e '@.sku' -e '@.qty' orders.jsonl
  tail -f log.jsonl | jpgrep -or '$.msg'
  jpgrep -n -C 3 -w '@.level == \"error\"' log.jsonl
  jpgrep --refused -np log.jsonl
  jpgrep --paths log.jsonl
  jpgrep --elements -w '@.ms > 200' export.json";

/// The command whose arguments are the program's.
pub(crate) fn program_command<'a>(alloc: Global) -> Result<Command<'a>, AllocError>
    ensures { IfOk result (λ command. app_of command ≡ program) }
{
    let command = add_asking(alloc, bare_command(alloc))?;
    let command = add_survey(alloc, add_printing(alloc, command)?)?;
    let command = add_fronts(alloc, add_spelling(alloc, command)?)?;
    add_general(alloc, add_context(alloc, command)?)
}

/// The command without its arguments.
fn bare_command<'a>(alloc: Global) -> Command<'a>
    ensures { app_of result ≡ with_settings (new_app (codes "jpgrep")) }
{
    Command::new(alloc, "jpgrep")
        .version(VERSION)
        .about(
            "Prints the lines of JSON Lines files whose values match a JSONPath query (RFC 9535)",
        )
        .override_usage(
            "jpgrep [OPTIONS] <QUERY> [FILE]...\n       jpgrep [OPTIONS] (-e <QUERY> | -w <CONDITION> | --each <QUERY> | --in <QUERY> <FILE>)... [FILE]...\n       jpgrep [OPTIONS] (--refused | --paths) [FILE]...",
        )
        .after_help(AFTER_HELP)
        .disable_help_flag(true)
        .args_override_self(true)
}

/// A flag with a letter and a long name.
fn flag<'a>(alloc: Global, id: &'a str, short: char, long: &'a str, help: &'a str) -> Arg<'a>
    ensures rule { rule_of result ≡ flag_rule id.entry.now short long.entry.now }
    ensures local { result.global ≡ false }
{
    Arg::new(alloc, id)
        .short(short)
        .long(long)
        .action(ArgAction::SetTrue)
        .help(help)
}

/// `QUERY` and `FILE`, as many as there are.
fn words_argument<'a>(alloc: Global) -> Arg<'a>
    ensures rule { rule_of result ≡ words_rule }
    ensures local { result.global ≡ false }
{
    Arg::new(alloc, "words")
        .value_name("QUERY|FILE")
        .action(ArgAction::Append)
        .help(
            "The query, unless -e, -w, --each, --in, --not-in, --refused or --paths is given, and the files; - is standard input",
        )
}

/// `-e QUERY`, as often as wanted.
fn query_argument<'a>(alloc: Global) -> Arg<'a>
    ensures rule { rule_of result ≡ option_rule (codes "query") 0x65 (codes "query") }
    ensures local { result.global ≡ false }
{
    Arg::new(alloc, "query")
        .short('e')
        .long("query")
        .value_name("QUERY")
        .action(ArgAction::Append)
        .help("A query; a line matches if one of them selects a node of it")
}

/// `-w CONDITION`, as often as wanted.
fn where_argument<'a>(alloc: Global) -> Arg<'a>
    ensures rule { rule_of result ≡ option_rule (codes "where") 0x77 (codes "where") }
    ensures local { result.global ≡ false }
{
    Arg::new(alloc, "where")
        .short('w')
        .long("where")
        .value_name("CONDITION")
        .action(ArgAction::Append)
        .help(
            "A condition that has to hold; @ and $ are the line's value, with --each @ is the node",
        )
}

/// `--in QUERY FILE` or `--not-in QUERY FILE`, as often as wanted. Its name stands before each of the two (`pair_words`).
fn list_argument<'a>(alloc: Global, id: &'a str, help: &'a str) -> Arg<'a>
    ensures rule { rule_of result ≡ list_rule id.entry.now }
    ensures local { result.global ≡ false }
{
    Arg::new(alloc, id)
        .long(id)
        .value_name("QUERY> <FILE")
        .action(ArgAction::Append)
        .help(help)
}

/// `-m NUMBER`, `-A NUMBER`, `-B NUMBER` or `-C NUMBER`, whose last value counts.
fn number_argument<'a>(
    alloc: Global,
    id: &'a str,
    short: char,
    long: &'a str,
    help: &'a str,
) -> Arg<'a>
    ensures rule { rule_of result ≡ number_rule id.entry.now short long.entry.now }
    ensures local { result.global ≡ false }
{
    Arg::new(alloc, id)
        .short(short)
        .long(long)
        .value_name("NUMBER")
        .action(ArgAction::Set)
        .help(help)
}

/// `--names NAMES`, `--each QUERY`, `--fold NUMBER` or `--color=WHEN`, whose last value counts.
fn value_argument<'a>(alloc: Global, id: &'a str, value: &'a str, help: &'a str) -> Arg<'a>
    ensures rule { rule_of result ≡ value_rule id.entry.now }
    ensures local { result.global ≡ false }
{
    Arg::new(alloc, id)
        .long(id)
        .value_name(value)
        .action(ArgAction::Set)
        .help(help)
}

/// A flag with a long name alone.
fn word_flag<'a>(alloc: Global, id: &'a str, help: &'a str) -> Arg<'a>
    ensures rule { rule_of result ≡ word_rule id.entry.now }
    ensures local { result.global ≡ false }
{
    Arg::new(alloc, id)
        .long(id)
        .action(ArgAction::SetTrue)
        .help(help)
}

/// `--help`, which asks for the help.
fn help_argument<'a>(alloc: Global) -> Arg<'a>
    ensures rule { rule_of result ≡ help_rule }
    ensures local { result.global ≡ false }
{
    Arg::new(alloc, "help")
        .long("help")
        .action(ArgAction::Help)
        .help("Prints this help")
}

/// The options that say which lines are selected.
fn add_asking<'a>(alloc: Global, command: Command<'a>) -> Result<Command<'a>, AllocError>
    ensures { IfOk result (λ more. app_of more ≡ with_rules (app_of command.entry) asking_rules) }
{
    command
        .arg(words_argument(alloc))?
        .arg(query_argument(alloc))?
        .arg(where_argument(alloc))?
        .arg(value_argument(
            alloc,
            "each",
            "QUERY",
            "Asks the nodes of QUERY one by one: @ is the node, and $ the line's value",
        ))?
        .arg(list_argument(
            alloc,
            "in",
            "A condition: QUERY selects a value that is one of FILE's lines",
        ))?
        .arg(list_argument(
            alloc,
            "not-in",
            "A condition: QUERY selects none of them, or nothing",
        ))?
        .arg(flag(
            alloc,
            "invert",
            'v',
            "invert-match",
            "Selects the lines with a value that does not match",
        ))?
        .arg(word_flag(
            alloc,
            "refused",
            "Selects the lines that are no JSON, and asks no query; -p says why",
        ))
}

/// The options that say what is printed.
fn add_printing<'a>(alloc: Global, command: Command<'a>) -> Result<Command<'a>, AllocError>
    ensures { IfOk result (λ more. app_of more ≡ with_rules (app_of command.entry) printing_rules) }
{
    command
        .arg(flag(
            alloc,
            "only",
            'o',
            "only-matching",
            "Prints each selected value, and not the line",
        ))?
        .arg(flag(
            alloc,
            "path",
            'p',
            "path",
            "Prints the normalized path and a tab before each value; implies -o",
        ))?
        .arg(flag(
            alloc,
            "count",
            'c',
            "count",
            "Prints how many lines are selected in each file",
        ))?
        .arg(flag(
            alloc,
            "with",
            'l',
            "files-with-matches",
            "Prints the names of the files with a selected line",
        ))?
        .arg(flag(
            alloc,
            "without",
            'L',
            "files-without-match",
            "Prints the names of the files without one",
        ))?
        .arg(flag(
            alloc,
            "quiet",
            'q',
            "quiet",
            "Prints nothing, and ends at the first selected line",
        ))?
        .arg(word_flag(
            alloc,
            "tally",
            "Prints how often each selected value came, the most frequent first",
        ))
}

/// The arguments that ask for the paths of all values.
fn add_survey<'a>(alloc: Global, command: Command<'a>) -> Result<Command<'a>, AllocError>
    ensures { IfOk result (λ more. app_of more ≡ with_rules (app_of command.entry) survey_rules) }
{
    command
        .arg(word_flag(
            alloc,
            "paths",
            "Prints the paths of all values, with their kinds and how often each came",
        ))?
        .arg(value_argument(
            alloc,
            "fold",
            "NUMBER",
            "Joins the members of objects of --paths with more than NUMBER names (1000)",
        ))
}

/// The options that say how it is spelled.
fn add_spelling<'a>(alloc: Global, command: Command<'a>) -> Result<Command<'a>, AllocError>
    ensures { IfOk result (λ more. app_of more ≡ with_rules (app_of command.entry) spelling_rules) }
{
    command
        .arg(flag(
            alloc,
            "raw",
            'r',
            "raw",
            "Prints a string as its text, with what its escapes stand for",
        ))?
        .arg(flag(
            alloc,
            "canonical",
            'j',
            "canonical",
            "Prints values in canonical form: the same text for equal values",
        ))?
        .arg(word_flag(
            alloc,
            "tsv",
            "Prints a row for each selected line, a cell for each query, with tabs between them",
        ))?
        .arg(word_flag(
            alloc,
            "csv",
            "Prints such rows with commas in place of tabs (RFC 4180)",
        ))?
        .arg(word_flag(
            alloc,
            "header",
            "Prints the queries above the rows of --tsv or --csv",
        ))?
        .arg(value_argument(
            alloc,
            "names",
            "NAMES",
            "Prints NAMES above the rows, with commas between them, in place of the queries",
        ))
}

/// The options that say what stands in front, how many lines are wanted, and in which colours.
fn add_fronts<'a>(alloc: Global, command: Command<'a>) -> Result<Command<'a>, AllocError>
    ensures { IfOk result (λ more. app_of more ≡ with_rules (app_of command.entry) front_rules) }
{
    command
        .arg(flag(
            alloc,
            "number",
            'n',
            "line-number",
            "Prints the number of the line in front",
        ))?
        .arg(flag(
            alloc,
            "name",
            'H',
            "with-filename",
            "Prints the name of the file in front",
        ))?
        .arg(flag(
            alloc,
            "unnamed",
            'h',
            "no-filename",
            "Prints no name of a file in front",
        ))?
        .arg(flag(
            alloc,
            "null",
            'Z',
            "null",
            "Prints a NUL behind the name of a file, in place of what follows it",
        ))?
        .arg(number_argument(
            alloc,
            "most",
            'm',
            "max-count",
            "Stops after NUMBER selected lines of each file",
        ))?
        .arg(value_argument(
            alloc,
            "color",
            "WHEN",
            "Prints in colours: =auto, as without a value, where it is to a terminal, =always or =never",
        ))
}

/// The options that say how many lines around selected lines are shown.
fn add_context<'a>(alloc: Global, command: Command<'a>) -> Result<Command<'a>, AllocError>
    ensures { IfOk result (λ more. app_of more ≡ with_rules (app_of command.entry) context_rules) }
{
    command
        .arg(number_argument(
            alloc,
            "after",
            'A',
            "after-context",
            "Prints NUMBER lines after each selected line too",
        ))?
        .arg(number_argument(
            alloc,
            "before",
            'B',
            "before-context",
            "Prints NUMBER lines before each selected line too",
        ))?
        .arg(number_argument(
            alloc,
            "around",
            'C',
            "context",
            "Prints NUMBER lines before and after it, unless -B or -A says how many",
        ))
}

/// The others.
fn add_general<'a>(alloc: Global, command: Command<'a>) -> Result<Command<'a>, AllocError>
    ensures { IfOk result (λ more. app_of more ≡ with_rules (app_of command.entry) general_rules) }
{
    command
        .arg(flag(
            alloc,
            "silent",
            's',
            "no-messages",
            "Passes over refused lines, and suppresses messages about files",
        ))?
        .arg(word_flag(
            alloc,
            "check",
            "Reads no file, and says where a query or a condition goes wrong",
        ))?
        .arg(word_flag(
            alloc,
            "json",
            "Takes each JSON text for a line, however many lines it has",
        ))?
        .arg(word_flag(
            alloc,
            "elements",
            "Takes each element of a JSON text that is an array for a line",
        ))?
        .arg(word_flag(alloc, "seq", "The files are JSON text sequences (RFC 7464)"))?
        .arg(help_argument(alloc))
}
