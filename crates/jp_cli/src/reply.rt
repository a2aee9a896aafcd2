//! Answers without rows: fixed words, a number after them, or a text that was made for it.

ghost use Rattle.std.specs.Prelude.{◌≡◌, ◌++◌, false, is_err, codes};
ghost use Rattle.jp_devices.specs.Devices.{Writes};
ghost use Rattle.jp_model.specs.Script.Machine.{error, query_fault_word};
ghost use Rattle.jp_cli.specs.Replies.{answered_text};
ghost use Rattle.jp_cli.specs.Refusals.{RepliesToRefusal};

use jp_model::{QueryFault, Watched};
use jp_query::Refusal;
use jp_rows::{WriteFault, write_numbered, write_whole};
use std::alloc::AllocError;
use std::io::Write;

/// What a command answers.
#[derive(Drop)]
pub(crate) enum Reply {
    /// A fixed line.
    Fixed(&'static [u8]),
    /// A line of words with a number after them.
    Numbered(&'static [u8], usize),
    /// Lines that were made for this answer.
    Lines(Vec<u8>),
}

/// The line that says why a query is refused.
fn refusal_line(fault: QueryFault) -> &'static [u8]
    ensures { result.now ≡ error (codes "query " ++ query_fault_word fault) }
{
    match fault {
        QueryFault::Size => b"error: query size\n".as_slice(),
        QueryFault::Syntax => b"error: query syntax\n".as_slice(),
        QueryFault::Integer => b"error: query integer\n".as_slice(),
        QueryFault::Number => b"error: query number\n".as_slice(),
        QueryFault::Function => b"error: query function\n".as_slice(),
        QueryFault::Types => b"error: query types\n".as_slice(),
    }
}

/// Reports why a text gives no query.
pub(crate) fn refuse_query(refusal: Refusal) -> Result<Reply, AllocError>
    ensures { RepliesToRefusal refusal result }
{
    match refusal {
        Refusal::Fault(found) => Ok(Reply::Fixed(refusal_line(found.fault))),
        Refusal::Memory => Err(AllocError),
    }
}

/// Says that a growth was refused.
pub(crate) fn write_refused_growth<W: Write>(out: &mut Watched<W>) -> Result<(), WriteFault>
    requires { out.old.failed ≡ false }
    ensures text { Writes W.contents out.old out.new result (error (codes "memory")) }
    ensures fault { out.new.failed ≡ is_err result }
    ensures after { out.new.after ≡ out.old.after }
{
    write_whole(b"error: memory\n", out)
}

/// Writes a reply, or that a growth was refused.
pub(crate) fn write_reply<W: Write>(
    reply: &Result<Reply, AllocError>,
    out: &mut Watched<W>,
) -> Result<(), WriteFault>
    requires { out.old.failed ≡ false }
    ensures text { Writes W.contents out.old out.new result (answered_text reply.now) }
    ensures fault { out.new.failed ≡ is_err result }
    ensures after { out.new.after ≡ out.old.after }
{
    match reply {
        Ok(Reply::Fixed(words)) => write_whole(words, out),
        Ok(Reply::Numbered(words, number)) => write_numbered(words, *number, out),
        Ok(Reply::Lines(lines)) => write_whole(lines.as_slice(), out),
        Err(_) => write_refused_growth(out),
    }
}
