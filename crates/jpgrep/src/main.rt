//! jpgrep: prints the lines of JSON Lines streams whose values match a JSONPath query (RFC 9535).
#![tactic(auto)]

mod asked;
mod calls;
mod counted;
mod excerpt;
mod files;
mod foreign;
mod help;
mod lists;
mod note;
mod opening;
mod output;
mod patterns;
mod refusal;
mod shell;
mod surveyed;
mod tallied;
mod unknown;

use crate::asked::{Asked, read_question};
use crate::counted::count_files;
use crate::files::{CANNOT_WRITE, Searched, search_files};
use crate::lists::{Lists, read_lists};
use crate::note::Note;
use crate::refusal::Refusal;
use crate::unknown::find_foreign;
use clap::Error;
use clap::error::ErrorKind;
use jp_devices::refuse_word;
use jp_options::{Options, pair_words, read_words};
use jp_shown::{shown, shown_refusal};
use jp_survey::Survey;
use jp_tally::Tally;
use std::alloc::AllocError;
use std::process::ExitCode;
use std::{env, io};

/// The exit status where help, the version, or a check of good queries was asked for.
const TOLD: u8 = 0;

/// The exit status where a check of good queries warned of something.
const WARNED: u8 = 1;

/// The exit status where something was refused or failed.
const FAULT: u8 = 2;

/// The characters of an option that is not known, or of a query that is taken for a file, which are shown.
const MOST_SHOWN: usize = 80;

/// Says why the arguments are refused.
fn tell_refused(rt: &HostRuntime, error: &Error) {
    let told = format!(in rt.alloc(); "{error}").and_then(|text| shown_refusal(rt.alloc(), &text));
    let _ = match told {
        Ok(text) => eprint!(rt; "{text}"),
        Err(_) => error.print(rt),
    };
}

/// Prints the help or the version, or says why the arguments are refused, and gives the exit status. Of an option of grep or jq
/// it says what to do instead.
fn tell_words(rt: &HostRuntime, words: &[&str], error: &Error) -> u8 {
    if error.kind() == ErrorKind::UnknownArgument {
        if let Some((word, instead)) = find_foreign(words) {
            if let Ok(word) = shown(rt.alloc(), word, MOST_SHOWN) {
                let _ = eprintln!(rt; "jpgrep: no option '{word}': {instead}");
                return FAULT;
            }
        }
    }
    if error.use_stderr() {
        tell_refused(rt, error);
        return FAULT;
    }
    match error.print(rt) {
        Ok(()) => TOLD,
        Err(fault) if fault.kind() != io::ErrorKind::BrokenPipe => {
            let _ = eprintln!(rt; "jpgrep: {CANNOT_WRITE}");
            FAULT
        }
        _ => FAULT,
    }
}

/// Tells what was probably meant by a question that selected nothing, unless nothing is printed.
fn tell_meant(
    rt: &HostRuntime,
    options: &Options<'_>,
    notes: &[Note<'_>],
) -> Result<(), AllocError> {
    if options.quiet || options.inverted {
        return Ok(());
    }
    for note in notes {
        note.tell(rt)?;
    }
    Ok(())
}

/// Says of an argument that begins as a query does that it is taken for a file.
fn tell_other_queries(rt: &HostRuntime, options: &Options<'_>) -> Result<(), AllocError> {
    for word in options.files() {
        if word.starts_with(|c: char| c == '$' || c == '@') {
            let word = shown(rt.alloc(), word, MOST_SHOWN)?;
            let _ = eprintln!(rt;
                "jpgrep: note: '{word}' is taken for a file; another query is given by -e"
            );
        }
    }
    Ok(())
}

/// The exit status of a search. A pattern that is not valid is a fault, whatever was selected: nobody knows what it was to
/// select.
fn status_of(options: &Options<'_>, searched: Searched, has_warnings: bool) -> u8 {
    if has_warnings && !(options.quiet && searched.has_selected) {
        FAULT
    } else {
        searched.status
    }
}

/// Reads the question, searches the files, and gives the exit status.
fn answer<'a>(rt: &HostRuntime, options: &Options<'a>) -> Result<u8, Refusal<'a>> {
    let Asked {
        mut question,
        has_warnings,
        notes,
        lists,
    } = read_question(rt, options)?;
    if options.checks {
        tell_meant(rt, options, &notes)?;
        tell_other_queries(rt, options)?;
        return Ok(if has_warnings { WARNED } else { TOLD });
    }
    let lists = read_lists(rt, options, lists, &mut question)?;
    if lists == Lists::Unread {
        return Ok(FAULT);
    }
    let searched = if options.tally {
        count_files(rt, options, &question, lists, Tally::new(rt.alloc()))?
    } else if options.survey {
        let survey = Survey::new(rt.alloc(), options.names_before_fold())?;
        count_files(rt, options, &question, lists, survey)?
    } else {
        search_files(rt, options, &question, lists)?
    };
    if !searched.has_selected {
        tell_meant(rt, options, &notes)?;
    }
    Ok(status_of(options, searched, has_warnings))
}

/// Does what the arguments ask for, and gives the exit status.
fn run_options(rt: &HostRuntime, options: &Options<'_>) -> u8 {
    match answer(rt, options) {
        Ok(status) => status,
        Err(refusal) => {
            refusal.tell(rt);
            FAULT
        }
    }
}

/// Reads the program's arguments as options, and does what they ask for.
fn run_words(rt: &HostRuntime, words: &[&str]) -> u8 {
    match read_words(rt.alloc(), words) {
        Ok(options) => run_options(rt, &options),
        Err(error) if error.kind() == ErrorKind::OutOfMemory => {
            Refusal::Memory.tell(rt);
            FAULT
        }
        Err(error) => tell_words(rt, words, &error),
    }
}

/// Reads the program's arguments as texts, and does what they ask for.
fn run_arguments(rt: &HostRuntime) -> u8 {
    let words = match env::args(rt) {
        Ok(words) => words,
        Err(error) if error.kind() == io::ErrorKind::OutOfMemory => {
            Refusal::Memory.tell(rt);
            return FAULT;
        }
        Err(_) => {
            refuse_word(rt, "jpgrep");
            let _ = eprintln!(rt;
                "jpgrep: a file of such a name is read from standard input: jpgrep QUERY < NAME"
            );
            return FAULT;
        }
    };
    let Ok(words) = words.collect::<Vec<String>>(rt.alloc()) else {
        Refusal::Memory.tell(rt);
        return FAULT;
    };
    let mut texts = Vec::new(rt.alloc());
    for word in &words {
        if texts.push(word.as_str()).is_err() {
            Refusal::Memory.tell(rt);
            return FAULT;
        }
    }
    match pair_words(rt.alloc(), texts.as_slice()) {
        Ok(paired) => run_words(rt, paired.as_slice()),
        Err(_) => {
            Refusal::Memory.tell(rt);
            FAULT
        }
    }
}

/// Runs the program.
fn main(rt: HostRuntime) -> ExitCode {
    ExitCode::from(run_arguments(&rt))
}
