//! The files in turn.

use crate::foreign::foreign_message;
use crate::lists::Lists;
use crate::opening::{Looking, Opening};
use crate::output::{Output, Printer, RegularFile};
use jp_context::Context;
use jp_devices::StandardInput;
use jp_grep::{
    Finished, Format, Framing, Input, Limit, Question, Run, SearchFault, Shown, Sink, Summary,
    TextSink, Units, Unread,
};
use jp_model::Watched;
use jp_options::Options;
use jp_shown::shown;
use std::alloc::AllocError;
use std::io::{ErrorKind, IsTerminal, Read, Stderr};
use std::{env, fs};

/// The search through the files in turn, which tells `S` what it finds.
#[derive(Drop)]
pub(crate) struct Searcher<'q, S: Sink + Drop> {
    pub(crate) rt: &'q HostRuntime,
    pub(crate) options: &'q Options<'q>,
    pub(crate) run: Run<'q, S, Stderr>,
    /// The file that rows may be added to while lines are read.
    pub(crate) output: Option<RegularFile>,
    /// Whether rows have colours.
    pub(crate) coloured: bool,
    /// Whether memory was refused, which it has reported.
    pub(crate) lacks_memory: bool,
}

/// How a search of all files ended.
#[derive(Clone, Copy)]
pub(crate) struct Searched {
    /// The exit status.
    pub(crate) status: u8,
    /// Whether a line was selected.
    pub(crate) has_selected: bool,
}

/// Whether the files that follow are to be searched.
#[derive(Clone, Copy, PartialEq, Eq)]
enum Next {
    GoOn,
    Stop,
}

/// What is said of a file that was not searched to its end.
pub(crate) fn message_of(fault: SearchFault) -> &'static str {
    match fault {
        SearchFault::Read => "cannot read",
        SearchFault::Framing => "bytes before first separator",
        SearchFault::Foreign(_) => "data of another format",
        SearchFault::Size => limit_message(Limit::Size),
        SearchFault::Write | SearchFault::Report => CANNOT_WRITE,
        SearchFault::Memory => limit_message(Limit::Memory),
    }
}

/// What is said of a line that there is no number or no memory for.
fn limit_message(limit: Limit) -> &'static str {
    match limit {
        Limit::Size => "line too long",
        Limit::Memory => "out of memory",
    }
}

/// What is said of rows or messages that were not written.
pub(crate) const CANNOT_WRITE: &str = "cannot write";

/// What is said of an argument whose file cannot be opened. One that looks like a query was hardly meant to be a file.
fn unopened_message(options: &Options<'_>, word: &str, error: ErrorKind) -> &'static str {
    if error != ErrorKind::NotFound || !word.starts_with('$') {
        open_message(error)
    } else if options.refused {
        "cannot open: no such file (--refused asks no query)"
    } else if options.survey {
        "cannot open: no such file (--paths takes no query; --each QUERY surveys its nodes)"
    } else {
        "cannot open: no such file (a query is given by -e)"
    }
}

/// What is said of a file that cannot be opened.
pub(crate) fn open_message(error: ErrorKind) -> &'static str {
    match error {
        ErrorKind::NotFound => "cannot open: no such file",
        ErrorKind::PermissionDenied => "cannot open: permission denied",
        _ => "cannot open",
    }
}

/// What is said of a directory, which has no lines.
pub(crate) const IS_DIRECTORY: &str = "cannot read: is a directory";

/// What is said of the file that the rows go to: it would be read without end.
const IS_OUTPUT: &str = "input file is also the output";

/// What is said of a file whose first line begins a JSON text that goes on in the next one.
const GOES_ON: &str =
    "a JSON text goes on in the next line; --json reads it whole, --elements each element of an array";

/// How the standard input is named.
pub(crate) const STANDARD_INPUT: &str = "(standard input)";

/// The name of a file.
#[derive(Clone, Copy)]
struct FileName<'n> {
    own: &'n str,
    /// As messages have it: no control character of it reaches a terminal.
    told: &'n str,
}

impl<'n> FileName<'n> {
    /// A name without control characters.
    fn same(name: &'n str) -> FileName<'n> {
        FileName {
            own: name,
            told: name,
        }
    }
}

impl<S: Sink + Drop> Searcher<'_, S> {
    /// Tells the header of a table.
    fn tell_header(&mut self) -> Next {
        if !self.run.is_open() {
            return Next::Stop;
        }
        let form = self
            .options
            .form(STANDARD_INPUT, STANDARD_INPUT, self.coloured);
        match self.run.tell_header(&form, self.options.columns()) {
            Ok(()) => Next::GoOn,
            Err(SearchFault::Memory) => self.stop_for_memory(),
            Err(_) => Next::Stop,
        }
    }

    /// Tells that memory was refused.
    fn stop_for_memory(&mut self) -> Next {
        self.run.refuse();
        self.lacks_memory = true;
        tell_memory(self.rt);
        Next::Stop
    }

    /// Tells of a file, where messages are wanted.
    fn tell(&mut self, name: FileName<'_>, message: &str) {
        self.run.refuse();
        if !self.options.silent {
            let told = name.told;
            let _ = eprintln!(self.rt; "jpgrep: {told}: {message}");
        }
    }

    /// Tells of a file that is data of another format, where messages are wanted.
    fn tell_foreign(&mut self, name: FileName<'_>, format: Format) -> Next {
        let file = if name.told == STANDARD_INPUT {
            None
        } else {
            Some(name.told)
        };
        match foreign_message(self.rt.alloc(), file, format) {
            Ok(message) => self.tell(name, &message),
            Err(_) => self.tell(name, message_of(SearchFault::Foreign(format))),
        }
        Next::GoOn
    }

    /// Tells where the rest of a file was passed over, whether messages are wanted or not, since answers may be missing.
    fn tell_unread(&mut self, name: FileName<'_>, unread: Unread) {
        if self.run.is_open() {
            self.run.hand_on();
            let (told, why) = (name.told, limit_message(unread.limit));
            let _ = eprintln!(self.rt;
                "jpgrep: {told}:{}: {why}; the rest is not searched",
                unread.line
            );
        }
    }

    /// Tells that the first line of a file begins a JSON text that goes on in the next one, unless nothing is printed.
    fn hint(&mut self, name: FileName<'_>) {
        if self.options.quiet || self.options.refused || !self.run.is_open() {
            return;
        }
        self.run.hand_on();
        let told = name.told;
        let _ = eprintln!(self.rt; "jpgrep: {told}: {GOES_ON}");
    }

    /// Searches an open file.
    fn search<R: Read + Drop>(&mut self, name: FileName<'_>, input: R) -> Next {
        if !self.run.is_open() {
            return Next::Stop;
        }
        let form = self.options.form(name.own, name.told, self.coloured);
        let opening = match form.units {
            Units::Lines(Framing::Lines) => Opening::new(),
            _ => Opening::unseen(),
        };
        let mut input = Input::new(Watched::new(Looking::new(input, opening)));
        let found = self.run.search(&form, &mut input);
        let opening = input.into_reader().into_inner().opening();
        match &found {
            // The line may have come and not be refused yet.
            Ok(found) if found.unread.is_some() => {}
            _ if opening.goes_on() => self.hint(name),
            _ => {}
        }
        match found {
            Ok(found) => {
                if let Some(unread) = found.unread {
                    self.tell_unread(name, unread);
                }
                if self.run.is_decided() {
                    Next::Stop
                } else {
                    Next::GoOn
                }
            }
            Err(SearchFault::Write | SearchFault::Report) => Next::Stop,
            Err(SearchFault::Foreign(format)) => self.tell_foreign(name, format),
            Err(fault) => {
                self.tell(name, message_of(fault));
                Next::GoOn
            }
        }
    }

    /// Searches an open file, unless the rows go to it.
    fn search_other<R: Read + Drop>(
        &mut self,
        name: FileName<'_>,
        input: R,
        file: Option<RegularFile>,
    ) -> Next {
        if file.is_some() && file == self.output {
            self.tell(name, IS_OUTPUT);
            return Next::GoOn;
        }
        self.search(name, input)
    }

    /// Searches a file that is to be opened.
    fn search_named(&mut self, name: FileName<'_>) -> Next {
        match fs::open(self.rt, name.own) {
            Ok(file) => {
                let metadata = file.metadata();
                if matches!(&metadata, Ok(found) if found.is_dir()) {
                    self.tell(name, IS_DIRECTORY);
                    return Next::GoOn;
                }
                self.search_other(name, file, RegularFile::of(metadata))
            }
            Err(error) => {
                self.tell(name, unopened_message(self.options, name.own, error.kind()));
                Next::GoOn
            }
        }
    }

    /// Searches the file that an argument names.
    fn search_word(&mut self, word: &str, stdin: StandardInput) -> Next {
        if word == "-" {
            let name = FileName::same(STANDARD_INPUT);
            return self.search_other(name, stdin, RegularFile::of_input(self.rt));
        }
        match shown(self.rt.alloc(), word, usize::MAX) {
            Ok(told) => self.search_named(FileName {
                own: word,
                told: &told,
            }),
            Err(_) => self.stop_for_memory(),
        }
    }

    /// Searches the files that the arguments name in turn, as far as they matter.
    pub(crate) fn search_all(&mut self, stdin: StandardInput) {
        if reads_nothing(self.options) {
            return;
        }
        let files = self.options.files();
        if files.is_empty() {
            self.search_word("-", stdin);
        }
        for file in files {
            if self.search_word(file, stdin) == Next::Stop {
                break;
            }
        }
    }
}

impl<P: Printer> Searcher<'_, P> {
    /// Ends the run, reports rows or messages that were not written, and gives the exit status. A pipe that nobody reads any
    /// more is no news.
    fn end(self) -> Searched {
        let rt = self.rt;
        let has_selected = self.run.has_selected();
        let Finished {
            status,
            sink,
            messages,
        } = self.run.finish();
        let unwritten = sink.has_failed() || messages.failed();
        if unwritten && !sink.into_output().is_unread() {
            let _ = eprintln!(rt; "jpgrep: {CANNOT_WRITE}");
        }
        Searched {
            status,
            has_selected,
        }
    }
}

/// Tells of a want of memory.
pub(crate) fn tell_memory(rt: &HostRuntime) {
    let _ = eprintln!(rt; "jpgrep: {}", message_of(SearchFault::Memory));
}

/// Standard input, which is looked at where it is to be read.
pub(crate) fn find_input(rt: &HostRuntime, options: &Options<'_>) -> StandardInput {
    let files = options.files();
    StandardInput::find(rt, files.is_empty() || files.contains(&"-"))
}

/// The file that rows may be added to while lines are read.
fn find_output(rt: &HostRuntime, options: &Options<'_>) -> Option<RegularFile> {
    let form = options.form(STANDARD_INPUT, STANDARD_INPUT, false);
    let reads_on = form.most > 1 || form.trailing > 0 || options.has_header();
    if form.shown != Shown::Nothing && reads_on {
        RegularFile::of_output(rt)
    } else {
        None
    }
}

/// Whether the environment asks for no colours at a terminal: `NO_COLOR` is there and not empty, or `TERM` is `dumb` or is not
/// there.
fn wants_no_colours(rt: &HostRuntime) -> bool {
    match env::var(rt, "NO_COLOR") {
        Ok(value) if !value.is_empty() => return true,
        _ => {}
    }
    match env::var(rt, "TERM") {
        Ok(name) => name.as_str() == "dumb",
        Err(_) => true,
    }
}

/// Whether what is printed has colours.
fn is_coloured(rt: &HostRuntime, options: &Options<'_>) -> bool {
    options.is_coloured(rt.stdout().is_terminal() && !wants_no_colours(rt))
}

/// Whether no file is looked at, since no line is wanted and no name of a file without one.
fn reads_nothing(options: &Options<'_>) -> bool {
    let form = options.form(STANDARD_INPUT, STANDARD_INPUT, false);
    form.most == 0 && form.summary != Summary::NameWithout
}

/// Searches the files that the arguments name in turn, and gives the exit status: 0 if a line was selected, 1 if none was, 2 if
/// something was refused or failed, in the lists or in the files. The header of a table stands above all rows, and lines around
/// selected lines are printed where they are asked for.
///
/// # Errors
///
/// There is no memory for what the outputs hold.
pub(crate) fn search_files(
    rt: &HostRuntime,
    options: &Options<'_>,
    question: &Question,
    lists: Lists,
) -> Result<Searched, AllocError> {
    let output = Output::new(rt);
    if options.shows_context() {
        let (before, after) = (options.lines_before(), options.lines_after());
        let coloured = is_coloured(rt, options);
        let context = Context::new(rt.alloc(), before, after, coloured, output);
        print_files(rt, options, question, lists, context)
    } else {
        let text = TextSink::new(rt.alloc(), output);
        print_files(rt, options, question, lists, text)
    }
}

/// Searches the files in turn, and prints the rows that they give by `printer`.
fn print_files<P: Printer>(
    rt: &HostRuntime,
    options: &Options<'_>,
    question: &Question,
    lists: Lists,
    printer: P,
) -> Result<Searched, AllocError> {
    let stdin = find_input(rt, options);
    let messages = Watched::new(rt.stderr());
    let run = Run::new(rt.alloc(), question, options.quiet, printer, messages)?;
    let output = find_output(rt, options);
    let mut searcher = Searcher {
        rt,
        options,
        run,
        output,
        coloured: is_coloured(rt, options),
        lacks_memory: false,
    };
    if lists != Lists::Read {
        searcher.run.refuse();
    }
    if !options.has_header() || searcher.tell_header() == Next::GoOn {
        searcher.search_all(stdin);
    }
    Ok(searcher.end())
}
