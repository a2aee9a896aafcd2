//! What is counted in the files, and written at the end.

ghost use Rattle.std.specs.Prelude.{◌≡◌, IfOk, false};

use crate::files::{CANNOT_WRITE, Searched, Searcher, find_input, tell_memory};
use crate::lists::Lists;
use crate::output::Output;
use jp_devices::flush_written;
use jp_grep::{Finished, Question, Run, Sink};
use jp_model::Watched;
use jp_options::Options;
use std::alloc::AllocError;
use std::io::Stderr;

/// The exit status where something was refused or failed.
const FAULT: u8 = 2;

/// Why rows were not written.
#[derive(Clone, Copy)]
pub(crate) enum Unwritten {
    /// Memory was refused: none was.
    Memory,
    /// A write failed.
    Write,
}

/// A sink that counts rows or nodes and writes a summary at the end. It fails for want of memory alone.
pub(crate) trait Counter: Sink + Drop {
    /// Writes what was counted.
    fn write_rows(self, options: &Options<'_>, out: &mut Watched<Output>) -> Result<(), Unwritten>
        requires { out.old.failed ≡ false }
        ensures { IfOk result (λ _. out.new.failed ≡ false) };
}

/// Writes what was counted, reports where rows were not written, and says whether all were. A pipe that nobody reads any more is
/// no news.
fn write_rows<C: Counter>(rt: &HostRuntime, options: &Options<'_>, counter: C) -> bool {
    let mut out = Watched::new(Output::new(rt));
    match counter.write_rows(options, &mut out) {
        Ok(()) => {
            if flush_written(&mut out).is_ok() {
                return true;
            }
        }
        Err(Unwritten::Memory) => {
            tell_memory(rt);
            return false;
        }
        Err(Unwritten::Write) => {}
    }
    if !out.into_inner().is_unread() {
        let _ = eprintln!(rt; "jpgrep: {CANNOT_WRITE}");
    }
    false
}

/// Ends the run, writes what was counted, and gives the exit status. Where memory was refused, no row is written.
fn end<C: Counter>(searcher: Searcher<'_, C>) -> Searched {
    let (rt, options) = (searcher.rt, searcher.options);
    let (has_selected, lacks_memory) = (searcher.run.has_selected(), searcher.lacks_memory);
    let Finished {
        status,
        sink: counter,
        messages,
    } = searcher.run.finish();
    if messages.failed() {
        let _ = eprintln!(rt; "jpgrep: {CANNOT_WRITE}");
    }
    if counter.has_failed() {
        tell_memory(rt);
    }
    let fault = Searched {
        status: FAULT,
        has_selected,
    };
    if lacks_memory || counter.has_failed() {
        return fault;
    }
    if write_rows(rt, options, counter) {
        Searched {
            status,
            has_selected,
        }
    } else {
        fault
    }
}

/// Searches the files that the arguments name in turn, counts what they give, writes what was counted, and gives the exit
/// status: 0 if a line was selected, 1 if none was, 2 if something was refused or failed, in the lists or in the files.
///
/// # Errors
///
/// There is no memory for what the outputs hold.
pub(crate) fn count_files<C: Counter>(
    rt: &HostRuntime,
    options: &Options<'_>,
    question: &Question,
    lists: Lists,
    counter: C,
) -> Result<Searched, AllocError> {
    let stdin = find_input(rt, options);
    let messages: Watched<Stderr> = Watched::new(rt.stderr());
    let run = Run::new(rt.alloc(), question, false, counter, messages)?;
    let mut searcher = Searcher {
        rt,
        options,
        run,
        output: None,
        coloured: false,
        lacks_memory: false,
    };
    if lists != Lists::Read {
        searcher.run.refuse();
    }
    searcher.search_all(stdin);
    Ok(end(searcher))
}
