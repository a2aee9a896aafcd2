//! The messages about the lines of a stream. No memory is asked for it.

ghost use Rattle.std.specs.Prelude.{◌≡◌, ◌&&◌, [], OnOk, false, is_err, codes, ltb, not};
ghost use Rattle.jp_devices.specs.Devices.{Writes};
ghost use Rattle.jp_grep.specs.Faults.{report_of};
ghost use Rattle.jp_grep.specs.Rows.{from_line_text, line_message, status_message};
ghost use Rattle.jp_grep.specs.Telling.{TellsOfMessages, WritesPart, WritesText};
ghost use Rattle.jp_grep.specs.Told.{more_message, more_refused, more_words};
ghost use Rattle.jp_model.specs.Json.Status.{refused};

use crate::fault::SearchFault;
use crate::progress::Progress;
use itoa::Buffer;
use jp_devices::flush_written;
use jp_form::Form;
use jp_model::{LineFault, Watched};
use jp_rows::{WriteFault, write_whole};
use std::io::Write;

/// The refused lines of a stream that are told one by one.
const MOST_TOLD: u64 = 10;

/// Whether a message was written.
fn told(written: Result<(), WriteFault>) -> Result<(), SearchFault>
    ensures { result ≡ report_of written }
{
    match written {
        Ok(()) => Ok(()),
        Err(_) => Err(SearchFault::Report),
    }
}

/// Writes a part after those before it, unless one of these was not written.
fn then_write<E: Write>(
    before: Result<(), WriteFault>,
    part: &[u8],
    messages: &mut Watched<E>,
) -> Result<(), WriteFault>
    requires working { messages.old.failed ≡ is_err before }
    ensures { WritesPart E.contents messages.old messages.new before result part.now }
{
    match before {
        Ok(()) => write_whole(part, messages),
        Err(fault) => Err(fault),
    }
}

/// Has the messages so far handed on.
fn flush_messages<E: Write>(messages: &mut Watched<E>) -> Result<(), WriteFault>
    requires working { messages.old.failed ≡ false }
    ensures text { Writes E.contents messages.old messages.new result [] }
    ensures flushed { OnOk result (messages.new.unflushed ≡ false) }
    ensures fault { messages.new.failed ≡ is_err result }
    ensures after { messages.new.after ≡ messages.old.after }
{
    match flush_written(messages) {
        Ok(()) => Ok(()),
        Err(_) => Err(WriteFault),
    }
}

/// Hands on a message, unless it was not written: so it stands before the rows of the lines after it.
fn then_flush<E: Write>(
    before: Result<(), WriteFault>,
    messages: &mut Watched<E>,
) -> Result<(), WriteFault>
    requires working { messages.old.failed ≡ is_err before }
    ensures text { WritesPart E.contents messages.old messages.new before result [] }
    ensures flushed { OnOk result (messages.new.unflushed ≡ false) }
{
    match before {
        Ok(()) => flush_messages(messages),
        Err(fault) => Err(fault),
    }
}

/// Writes the number of the line in which a text or an element begins, where it is told.
fn write_from_line<E: Write>(
    before: Result<(), WriteFault>,
    from_line: Option<u64>,
    messages: &mut Watched<E>,
) -> Result<(), WriteFault>
    requires working { messages.old.failed ≡ is_err before }
    ensures { WritesPart E.contents messages.old messages.new before result (from_line_text from_line) }
{
    let Some(line) = from_line else {
        return before;
    };
    let mut digits = Buffer::new();
    let written = then_write(before, b", from line ", messages);
    then_write(written, digits.format(line).as_bytes(), messages)
}

/// Writes what is said of a line of a stream, and hands it on: its number, from 1, and where it is told that of the line in which
/// it begins.
fn write_line_message<E: Write>(
    name: &str,
    number: u64,
    said: &str,
    from_line: Option<u64>,
    messages: &mut Watched<E>,
) -> Result<(), WriteFault>
    requires working { messages.old.failed ≡ false }
    ensures text { WritesText E.contents messages.old messages.new result (line_message name.now number said.now from_line) }
    ensures flushed { OnOk result (messages.new.unflushed ≡ false) }
{
    let mut digits = Buffer::new();
    let written = write_whole(b"jpgrep: ", messages);
    let written = then_write(written, name.as_bytes(), messages);
    let written = then_write(written, b":", messages);
    let written = then_write(written, digits.format(number).as_bytes(), messages);
    let written = then_write(written, b": ", messages);
    let written = then_write(written, said.as_bytes(), messages);
    let written = write_from_line(written, from_line, messages);
    let written = then_write(written, b"\n", messages);
    then_flush(written, messages)
}

/// Tells of a refused line, where messages are wanted and few were told.
///
/// # Errors
///
/// `Report` if it was not written: then a beginning of it was.
pub(crate) fn tell_refused<E: Write>(
    form: &Form<'_>,
    progress: Progress,
    fault: LineFault,
    from_line: Option<u64>,
    messages: &mut Watched<E>,
) -> Result<(), SearchFault>
    requires working { messages.old.failed ≡ false }
    ensures text { Writes E.contents messages.old messages.new result (status_message form.now progress.counts.refused progress.number from_line (refused fault)) }
    ensures tells { TellsOfMessages result messages.old messages.new }
{
    if !wants_refused(form, progress) {
        return Ok(());
    }
    told(write_line_message(
        form.told_name,
        progress.number,
        fault.word(),
        from_line,
        messages,
    ))
}

/// Tells of a line that is given up for want of memory.
///
/// # Errors
///
/// `Report` if it was not written: then a beginning of it was.
pub(crate) fn tell_given_up<E: Write>(
    form: &Form<'_>,
    number: u64,
    from_line: Option<u64>,
    messages: &mut Watched<E>,
) -> Result<(), SearchFault>
    requires working { messages.old.failed ≡ false }
    ensures text { Writes E.contents messages.old messages.new result (line_message form.now.told_name.now number (codes "out of memory") from_line) }
    ensures tells { TellsOfMessages result messages.old messages.new }
{
    told(write_line_message(form.told_name, number, "out of memory", from_line, messages))
}

/// Whether a refused line is told, as messages are wanted and few were told.
pub(crate) fn wants_refused(form: &Form<'_>, progress: Progress) -> bool
    ensures { result ≡ (not form.now.silent && ltb progress.counts.refused 10) }
{
    !form.silent && progress.counts.refused < MOST_TOLD
}

/// What is said of lines by their number.
fn more_words(count: u64) -> &'static [u8]
    ensures { result.now ≡ more_words count }
{
    if count == 1 {
        b" more line is refused; --refused lists them\n"
    } else {
        b" more lines are refused; --refused lists them\n"
    }
}

/// Writes the message on lines of a stream that are not told one by one.
fn write_more<E: Write>(name: &str, more: u64, messages: &mut Watched<E>) -> Result<(), WriteFault>
    requires working { messages.old.failed ≡ false }
    ensures { WritesText E.contents messages.old messages.new result (more_message name.now more) }
{
    let mut digits = Buffer::new();
    let written = write_whole(b"jpgrep: ", messages);
    let written = then_write(written, name.as_bytes(), messages);
    let written = then_write(written, b": ", messages);
    let written = then_write(written, digits.format(more).as_bytes(), messages);
    then_write(written, more_words(more), messages)
}

/// Tells how many of the refused lines of a stream were not told one by one, where there are any and messages are wanted.
///
/// # Errors
///
/// `Report` if it was not written: then a beginning of it was.
pub(crate) fn tell_more<E: Write>(
    form: &Form<'_>,
    refused: u64,
    messages: &mut Watched<E>,
) -> Result<(), SearchFault>
    requires working { messages.old.failed ≡ false }
    ensures text { Writes E.contents messages.old messages.new result (more_refused form.now refused) }
    ensures tells { TellsOfMessages result messages.old messages.new }
{
    if form.silent || refused <= MOST_TOLD {
        return Ok(());
    }
    told(write_more(form.told_name, refused - MOST_TOLD, messages))
}
