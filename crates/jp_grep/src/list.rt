//! The list of a stream, to be asked of lines.

ghost use Rattle.std.specs.Prelude.{◌≡◌, ◌&&◌, ◌||◌, false, true, not, IfErr, IfOk};
ghost use Rattle.jp_devices.specs.Devices.{Came, GaveUpTo};
ghost use Rattle.jp_grep.specs.Faults.{IsToldOf, is_front_fault, is_read_fault, is_report_fault};
ghost use Rattle.jp_grep.specs.Fronts.{IsRefused};
ghost use Rattle.jp_grep.specs.Lists.{ReadsList, list_fault, list_form};
ghost use Rattle.jp_grep.specs.declared.fault.SearchFault.TheVariants as faults;
ghost use Rattle.jp_model.specs.declared.Framing.TheVariants as framings;

use crate::fault::SearchFault;
use crate::input::Input;
use crate::progress::Counts;
use crate::question::{Queries, Question, Wanted};
use crate::searching::search;
use jp_form::{Form, Shown, Spelling, Summary, Units};
use jp_listed::Listed;
use jp_model::{Framing, Watched};
use jp_sink::HeldText;
use std::alloc::Global;
use std::io::{Read, Write};

/// How a list is read: each line that has a value, in canonical form.
fn list_form<'a>(name: &'a str) -> Form<'a>
    ensures { result ≡ list_form name.entry }
{
    Form {
        units: Units::Lines(Framing::Lines),
        shown: Shown::Line { faults: false },
        spelling: Spelling::Canonical,
        summary: Summary::Nothing,
        name,
        told_name: name,
        named: false,
        numbered: false,
        coloured: false,
        marked: false,
        silent: false,
        null: false,
        most: u64::MAX,
        trailing: 0,
    }
}

/// What a fault of the search says of a list, the texts of which are written into memory.
fn fault_of_list(fault: SearchFault) -> SearchFault
    ensures { result ≡ list_fault fault }
{
    match fault {
        SearchFault::Write => SearchFault::Memory,
        other => other,
    }
}

/// Reads a list: the values of the lines of a stream (JSON Lines), and how many they are. There is a message for each of the
/// first ten refused lines, and after these how many more there are. A byte order mark at the front is dropped.
///
/// # Errors
///
/// `Read` if a read failed. `Foreign` if the stream begins with the mark of another format. `Report` if a message was not
/// written. `Memory` where memory is refused: for a line, for the rest of the stream, or for the list; and where a line or the
/// stream is larger than can be counted.
pub fn read_list<R: Read, E: Write>(
    alloc: Global,
    name: &str,
    input: &mut Input<R>,
    messages: &mut Watched<E>,
) -> Result<(Listed, Counts), SearchFault>
    requires reads { input.old.reader.failed ≡ false }
    requires unended { input.old.reader.ended ≡ false }
    requires reports { messages.old.failed ≡ false }
    ensures list { IfOk result (λ found. (came : Came) × GaveUpTo R.remaining input.old.reader input.new.reader came
        × ReadsList E.contents name.entry messages.old messages.new came found.0 found.1) }
    // Each device's fault is answered exactly where that device failed, and that of a message in place of that of a read.
    ensures read_fault { IsToldOf is_read_fault result (input.new.reader.failed && not messages.new.failed) }
    ensures report_fault { IsToldOf is_report_fault result messages.new.failed }
    ensures refused { IfErr result (λ fault. is_front_fault fault ≡ true → (came : Came) × GaveUpTo R.remaining input.old.reader input.new.reader came × IsRefused framings.Lines came fault) }
    ensures others { IfErr result (λ fault. (is_front_fault fault || (is_read_fault fault || is_report_fault fault)) ≡ false → fault ≡ faults.Memory) }
    // No call follows one that failed, and no read one that answered 0.
    ensures reader_after { input.new.reader.after ≡ input.old.reader.after }
    ensures after { messages.new.after ≡ messages.old.after }
{
    // Each value is other than one that is asked for, as none is.
    let question = Question::new(alloc, Wanted::Others, Queries::Filter);
    let mut texts = HeldText::new(alloc);
    let found = match search(
        alloc,
        &question,
        &list_form(name),
        input,
        &mut texts,
        messages,
    ) {
        Ok(found) => found,
        Err(fault) => return Err(fault_of_list(fault)),
    };
    if !found.is_whole() {
        return Err(SearchFault::Memory);
    }
    match Listed::of_lines(alloc, texts.text) {
        Ok(listed) => Ok((listed, found.counts)),
        Err(_) => Err(SearchFault::Memory),
    }
}
