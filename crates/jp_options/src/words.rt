//! The program's arguments.

ghost use Rattle.std.specs.Prelude.{◌≡◌, Some, IfOk, IsErr, IsOk, OkIff, codes, false, map, true};
ghost use Rattle.clap.specs.Words.{FailsBy, first_of, found_of, rows_of};
ghost use Rattle.jp_model.specs.Lines.{pieces};
ghost use Rattle.jp_options.specs.Colour.{colour_of};
ghost use Rattle.jp_options.specs.Command.{IsAskedBy, count_of, faults_in, found_in, has_values, is_count, is_given, names_of, reading_faults, values_in};

use crate::arguments::program_command;
use crate::colour::Colour;
use crate::options::Options;
use clap::error::ErrorKind;
use clap::{ArgMatches, Error};
use std::alloc::{AllocError, Global};
use std::num::ParseIntError;

/// Reads the program's arguments. The first is its own name.
///
/// # Errors
///
/// The arguments are refused, they ask for help or for the version, or memory runs out: the error's kind says which.
pub fn read_words<'a>(alloc: Global, words: &'a [&'a str]) -> Result<Options<'a>, Error>
    ensures asked { IfOk result (IsAskedBy (found_in (map (λ w. w.now) words.entry.now))) }
    ensures refused { FailsBy (faults_in (map (λ w. w.now) words.entry.now)) result }
{
    let options = parse(alloc, words)?;
    match options.conflict() {
        None => Ok(options),
        Some((kind, message)) => Err(program_command(alloc)?.error(kind, message)?),
    }
}

/// Reads the arguments one by one, whether or not they go together.
fn parse<'a>(alloc: Global, words: &'a [&'a str]) -> Result<Options<'a>, Error>
    ensures asked { IfOk result (IsAskedBy (found_in (map (λ w. w.now) words.entry.now))) }
    ensures refused { FailsBy (reading_faults (map (λ w. w.now) words.entry.now)) result }
{
    let command = program_command(alloc)?;
    let matches = command.try_get_matches_from(words)?;
    match read_values(&matches) {
        Ok(read) => Ok(read_matches(alloc, &matches, read)?),
        Err(message) => Err(program_command(alloc)?.error(ErrorKind::InvalidValue, message)?),
    }
}

/// The values of options that have to be read.
#[derive(Clone, Copy)]
struct ReadValues {
    /// `-m`.
    most: Option<u64>,
    /// `--fold`.
    fold: Option<u64>,
    /// `-A`.
    after: Option<u64>,
    /// `-B`.
    before: Option<u64>,
    /// `-C`.
    around: Option<u64>,
    /// `--color`.
    colour: Colour,
}

/// The numbers that the values of `-m`, `--fold`, `-A`, `-B` and `-C` write, and what that of `--color` says, or what is said of the
/// first value that writes or says nothing.
fn read_values(matches: &ArgMatches<'_>) -> Result<ReadValues, &'static str>
    ensures taken { IsOk result → has_values (rows_of (found_of matches.now)) ≡ true }
    ensures refused { IsErr result → has_values (rows_of (found_of matches.now)) ≡ false }
    ensures most { IfOk result (λ read. read.most ≡ count_of (first_of (codes "most") (rows_of (found_of matches.now)))) }
    ensures fold { IfOk result (λ read. read.fold ≡ count_of (first_of (codes "fold") (rows_of (found_of matches.now)))) }
    ensures after { IfOk result (λ read. read.after ≡ count_of (first_of (codes "after") (rows_of (found_of matches.now)))) }
    ensures before { IfOk result (λ read. read.before ≡ count_of (first_of (codes "before") (rows_of (found_of matches.now)))) }
    ensures colour { IfOk result (λ read. colour_of (first_of (codes "color") (rows_of (found_of matches.now))) ≡ Some read.colour) }
    ensures around { IfOk result (λ read. read.around ≡ count_of (first_of (codes "around") (rows_of (found_of matches.now)))) }
{
    let Ok(most) = read_count(matches, "most") else {
        return Err(NO_MOST);
    };
    let Ok(fold) = read_count(matches, "fold") else {
        return Err(NO_FOLD);
    };
    let Ok(after) = read_count(matches, "after") else {
        return Err(NO_AFTER);
    };
    let Ok(before) = read_count(matches, "before") else {
        return Err(NO_BEFORE);
    };
    let Ok(around) = read_count(matches, "around") else {
        return Err(NO_AROUND);
    };
    let Some(colour) = read_colour(matches) else {
        return Err(NO_COLOUR);
    };
    Ok(ReadValues {
        most,
        fold,
        after,
        before,
        around,
        colour,
    })
}

/// The number that the value of an option writes, if it is given.
fn read_count(matches: &ArgMatches<'_>, id: &str) -> Result<Option<u64>, ParseIntError>
    ensures { OkIff result (is_count (first_of id.now (rows_of (found_of matches.now))) ≡ true) (count_of (first_of id.now (rows_of (found_of matches.now)))) }
{
    match matches.get_str(id) {
        Some(word) => Ok(Some(word.parse()?)),
        None => Ok(None),
    }
}

/// What the value of `--color` says, if it says anything. Where it is not given there are no colours.
fn read_colour(matches: &ArgMatches<'_>) -> Option<Colour>
    ensures { result ≡ colour_of (first_of (codes "color") (rows_of (found_of matches.now))) }
{
    match matches.get_str("color") {
        Some(value) => Colour::read(value),
        None => Some(Colour::Never),
    }
}

/// What is said if the value of `-m` is no number.
const NO_MOST: &str =
    "the value of '--max-count <NUMBER>' is no number from 0 to 18446744073709551615";

/// What is said if the value of `--fold` is no number.
const NO_FOLD: &str = "the value of '--fold <NUMBER>' is no number from 0 to 18446744073709551615";

/// What is said if the value of `-A` is no number.
const NO_AFTER: &str =
    "the value of '--after-context <NUMBER>' is no number from 0 to 18446744073709551615";

/// What is said if the value of `-B` is no number.
const NO_BEFORE: &str =
    "the value of '--before-context <NUMBER>' is no number from 0 to 18446744073709551615";

/// What is said if the value of `-C` is no number.
const NO_AROUND: &str =
    "the value of '--context <NUMBER>' is no number from 0 to 18446744073709551615";

/// What is said if the value of `--color` says nothing.
const NO_COLOUR: &str = "the value of '--color=<WHEN>' is none of auto, always and never";

/// The values of an argument, in their order.
fn values<'a>(alloc: Global, matches: &ArgMatches<'a>, id: &str) -> Result<Vec<&'a str>, AllocError>
    ensures { IfOk result (λ found. map (λ s. s.now) found.items ≡ values_in id.now (rows_of (found_of matches.now))) }
{
    Vec::from_slice(alloc, matches.get_strs(id).unwrap_or(&[]))
}

/// The parts of a list, with a comma between two of them.
fn split_list<'a>(alloc: Global, list: &'a str) -> Result<Vec<&'a str>, AllocError>
    ensures { IfOk result (λ parts. map (λ s. s.now) parts.items ≡ pieces 0x2C list.entry.now) }
{
    list.split(',').collect(alloc)
}

/// The names of columns that `--names` lists, and none where it is not given.
fn read_names<'a>(alloc: Global, matches: &ArgMatches<'a>) -> Result<Vec<&'a str>, AllocError>
    ensures { IfOk result (λ names. map (λ s. s.now) names.items ≡ names_of (first_of (codes "names") (rows_of (found_of matches.now)))) }
{
    match matches.get_str("names") {
        Some(list) => split_list(alloc, list),
        None => Ok(Vec::new(alloc)),
    }
}

/// Whether a flag is given.
fn is_given(matches: &ArgMatches<'_>, id: &str) -> bool
    ensures { result ≡ is_given id.now (rows_of (found_of matches.now)) }
{
    match matches.get_str(id) {
        Some(value) => value == "true",
        None => false,
    }
}

/// What the matches ask for.
fn read_matches<'a>(
    alloc: Global,
    matches: &ArgMatches<'a>,
    read: ReadValues,
) -> Result<Options<'a>, AllocError>
    requires most { read.most ≡ count_of (first_of (codes "most") (rows_of (found_of matches.now))) }
    requires fold { read.fold ≡ count_of (first_of (codes "fold") (rows_of (found_of matches.now))) }
    requires after { read.after ≡ count_of (first_of (codes "after") (rows_of (found_of matches.now))) }
    requires before { read.before ≡ count_of (first_of (codes "before") (rows_of (found_of matches.now))) }
    requires colour { colour_of (first_of (codes "color") (rows_of (found_of matches.now))) ≡ Some read.colour }
    requires around { read.around ≡ count_of (first_of (codes "around") (rows_of (found_of matches.now))) }
    ensures { IfOk result (IsAskedBy (rows_of (found_of matches.now))) }
{
    Ok(Options {
        words: values(alloc, matches, "words")?,
        queries: values(alloc, matches, "query")?,
        conditions: values(alloc, matches, "where")?,
        each: values(alloc, matches, "each")?,
        lists: values(alloc, matches, "in")?,
        other_lists: values(alloc, matches, "not-in")?,
        most: read.most,
        inverted: is_given(matches, "invert"),
        refused: is_given(matches, "refused"),
        only_matching: is_given(matches, "only"),
        paths: is_given(matches, "path"),
        raw: is_given(matches, "raw"),
        canonical: is_given(matches, "canonical"),
        tabs: is_given(matches, "tsv"),
        commas: is_given(matches, "csv"),
        header: is_given(matches, "header"),
        names: read_names(alloc, matches)?,
        colour: read.colour,
        tally: is_given(matches, "tally"),
        survey: is_given(matches, "paths"),
        fold: read.fold,
        after: read.after,
        before: read.before,
        around: read.around,
        numbered: is_given(matches, "number"),
        counted: is_given(matches, "count"),
        quiet: is_given(matches, "quiet"),
        with_matches: is_given(matches, "with"),
        without_matches: is_given(matches, "without"),
        named: is_given(matches, "name"),
        unnamed: is_given(matches, "unnamed"),
        null: is_given(matches, "null"),
        silent: is_given(matches, "silent"),
        checks: is_given(matches, "check"),
        texts: is_given(matches, "json"),
        elements: is_given(matches, "elements"),
        sequence: is_given(matches, "seq"),
    })
}
