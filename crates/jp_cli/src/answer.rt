//! The answer of a command: it is complete before its first byte is written.

ghost use Rattle.std.specs.Prelude.{◌≡◌, ◌+◌, ◌^◌, ◌<◌, ◌≤◌, false, is_err};
ghost use Rattle.jp_model.specs.Script.Commands.{without_final_cr as without_cr};
ghost use Rattle.jp_query.specs.Status.{query_of};
ghost use Rattle.jp_cli.specs.Commands.{command_view};
ghost use Rattle.jp_cli.specs.Runs.{AnswersOne, most_lines, progress_of, setup_of};

use crate::check::write_check;
use crate::command::Command;
use crate::listing::write_indexes;
use crate::reply::write_reply;
use crate::session::Session;
use jp_model::Watched;
use jp_rows::{WriteFault, write_whole};
use std::io::Write;

/// The line without one final CR.
pub(crate) fn without_final_cr(line: &[u8]) -> &[u8]
    ensures { result.now ≡ without_cr line.now }
{
    let Some((last, front)) = line.split_last() else {
        return line;
    };
    if *last == b'\r' {
        return front;
    }
    line
}

impl Session {
    /// Does what a command asks for, and writes its whole answer, or a beginning of it. A query opens the lines that its plan
    /// has to open, and they are counted; no other command opens a line.
    pub(crate) fn answer_command<W: Write>(
        &mut self,
        command: Command<'_>,
        out: &mut Watched<W>,
    ) -> Result<(), WriteFault>
        requires working { out.old.failed ≡ false }
        requires room { self.old.opened + most_lines < 2 ^ 64 }
        ensures ran { AnswersOne query_of W.contents out.old out.new result (setup_of self.old) (command_view command.entry)
            (progress_of self.old) (progress_of self.new) }
        ensures few { self.new.opened ≤ self.old.opened + most_lines }
        ensures setup { setup_of self.new ≡ setup_of self.old }
        ensures fault { out.new.failed ≡ is_err result }
        ensures after { out.new.after ≡ out.old.after }
    {
        match command {
            Command::Empty => Ok(()),
            Command::Query(text) => self.answer_query(text, out),
            Command::Explain(text) => write_reply(&self.explain_query(text), out),
            Command::Index(text) => write_reply(&self.make_index(text), out),
            Command::Drop(text) => write_reply(&self.take_index(text), out),
            Command::Indexes => write_indexes(&self.store, out),
            Command::Check => write_check(&self.store, out),
            Command::Append(text) => write_reply(&self.append_line(text), out),
            Command::Replace { number, text } => {
                write_reply(&self.replace_line(number, text), out)
            }
            Command::Unknown => write_whole(b"error: command\n", out),
        }
    }
}
