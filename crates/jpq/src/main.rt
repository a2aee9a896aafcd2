//! jpq: JSONPath (RFC 9535) over JSON Lines, one JSON value per line.
#![tactic(auto)]

use clap::Error;
use clap::error::ErrorKind;
use jp_cli::{CollectionSource, End, Options, ScriptSource, read_words};
use jp_devices::{StandardInput, refuse_word};
use jp_model::Watched;
use jp_shown::shown_refusal;
use std::alloc::AllocError;
use std::io::Read;
use std::process::ExitCode;
use std::{env, fs, io};

/// Runs the script over the collection, and writes to standard output.
fn run_files<C: Read + Drop, R: Read + Drop>(
    rt: &HostRuntime,
    options: &Options<'_>,
    collection: C,
    script: R,
) -> End {
    let mut collection = Watched::new(collection);
    let mut script = Watched::new(script);
    let out = Watched::new(rt.stdout());
    match options.run(rt.alloc(), &mut collection, &mut script, out) {
        Ok(finished) => finished.end,
        Err(AllocError) => End::Memory,
    }
}

/// Runs the script over the collection. A script that is a file is opened first.
fn run_script<C: Read + Drop>(
    rt: &HostRuntime,
    options: &Options<'_>,
    collection: C,
    input: StandardInput,
) -> End {
    match options.script_source(rt.alloc()) {
        Ok(ScriptSource::StandardInput) => run_files(rt, options, collection, input),
        Ok(ScriptSource::File(file)) => match fs::open(rt, file) {
            Ok(script) => run_files(rt, options, collection, script),
            Err(_) => End::NoScript,
        },
        Ok(ScriptSource::Commands(script)) => {
            run_files(rt, options, collection, script.as_bytes())
        }
        Err(AllocError) => End::Memory,
    }
}

/// Opens the collection and then the script, and runs it. Standard input is looked at before, since a file that is opened
/// gets its place where it is closed.
fn run_options(rt: &HostRuntime, options: &Options<'_>) -> End {
    let input = StandardInput::find(rt, options.reads_standard_input());
    match options.collection_source() {
        CollectionSource::StandardInput => run_script(rt, options, input, input),
        CollectionSource::File(file) => match fs::open(rt, file) {
            Ok(collection) => run_script(rt, options, collection, input),
            Err(_) => End::NoCollection,
        },
    }
}

/// Says why the arguments are refused.
fn tell_refused(rt: &HostRuntime, error: &Error) {
    let told = format!(in rt.alloc(); "{error}").and_then(|text| shown_refusal(rt.alloc(), &text));
    let _ = match told {
        Ok(text) => eprint!(rt; "{text}"),
        Err(_) => error.print(rt),
    };
}

/// Reads the program's arguments, and does what they ask for.
fn run_words(rt: &HostRuntime, words: &[&str]) -> End {
    match read_words(rt.alloc(), words) {
        Ok(options) => run_options(rt, &options),
        Err(error) if error.kind() == ErrorKind::OutOfMemory => End::Memory,
        Err(error) if error.use_stderr() => {
            tell_refused(rt, &error);
            End::Words
        }
        Err(error) => {
            let _ = error.print(rt);
            End::Done
        }
    }
}

/// Reads the program's words as texts, and does what they ask for.
fn run_arguments(rt: &HostRuntime) -> End {
    let words = match env::args(rt) {
        Ok(words) => words,
        Err(error) if error.kind() == io::ErrorKind::OutOfMemory => return End::Memory,
        Err(_) => {
            refuse_word(rt, "jpq");
            return End::Words;
        }
    };
    let Ok(words) = words.collect::<Vec<String>>(rt.alloc()) else {
        return End::Memory;
    };
    let mut texts = Vec::new(rt.alloc());
    for word in &words {
        if texts.push(word.as_str()).is_err() {
            return End::Memory;
        }
    }
    run_words(rt, texts.as_slice())
}

/// Runs the program, and says at its end what went wrong.
fn main(rt: HostRuntime) -> ExitCode {
    let end = run_arguments(&rt);
    let message = end.message();
    if !message.is_empty() {
        let _ = eprintln!(rt; "{message}");
    }
    ExitCode::from(end.status())
}
