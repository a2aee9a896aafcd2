//! The run of a script: each command line is answered as its line feed comes.

ghost use Rattle.std.specs.Prelude.{◌≡◌, ℕ, ◌+◌, ◌*◌, ◌^◌, ◌<◌, ◌≤◌, ◌++◌, ◌||◌, [], ◌∷◌, true, false, length, take, List, OnOk, IfErr, is_err, MatchResult};
ghost use Rattle.std.specs.Io.{ReadsAtMost};
ghost use Rattle.std.specs.Io.KnownBytes.{ReadConsumes};
ghost use Rattle.jp_devices.specs.Devices.{Came, GaveUpTo, Grew, HasEnded, Writes, one_more, read_failed, read_ended};
ghost use Rattle.jp_model.specs.Lines.{HasNoSeparator, text_lines, closed_lines, lines_so_far, open_line};
ghost use Rattle.jp_model.specs.Script.Headline.{is_write_fault, OnlyReadScript};
ghost use Rattle.jp_cli.specs.Commands.{asked_in};
ghost use Rattle.jp_query.specs.Status.{query_of};
ghost use Rattle.jp_cli.specs.Runs.{MayAnswer, Ran, RanFirst, StoppedIn, ScriptStopped, most_lines, progress_of, setup_of};

use crate::answer::without_final_cr;
use crate::command::read_command;
use crate::session::Session;
use jp_devices::flush_written;
use jp_model::{RunFault, Watched};
use jp_rows::WriteFault;
use std::io;
use std::io::{Read, Write};

/// The bytes that one read asks for.
const PIECE: usize = 4096;

/// Reads the script into some room. Nothing that was answered is unflushed then.
fn read_script<R: Read, W: Write>(
    script: &mut Watched<R>,
    piece: &mut [u8],
    out: &Watched<W>,
) -> io::Result<usize>
    requires flushed { out.now.unflushed ≡ false }
    requires working { script.old.failed ≡ false }
    requires room { 0 < length piece.old }
    ensures bound { ReadsAtMost result piece.new }
    ensures bytes { ReadConsumes (R.remaining script.old.device) (R.remaining script.new.device) result piece.new }
    ensures given { Grew script.old.given script.new.given result piece.new }
    ensures failed { script.new.failed ≡ read_failed result }
    ensures ended { script.new.ended ≡ (script.old.ended || read_ended result piece.new) }
    ensures calls { script.new.calls ≡ one_more script.old.calls }
    ensures after { script.old.ended ≡ false → script.new.after ≡ script.old.after }
    ensures early { script.new.early ≡ script.old.early }
{
    script.read_after(out, piece)
}

impl Session {
    /// Answers one line of the script, and then writes its whole answer.
    fn answer_line<W: Write>(&mut self, line: &[u8], out: &mut Watched<W>) -> Result<(), WriteFault>
        requires working { out.old.failed ≡ false }
        requires room { self.old.opened + most_lines < 2 ^ 64 }
        ensures ran { (text : List ℕ)
            × MayAnswer query_of asked_in (setup_of self.old) (progress_of self.old) (line.now ∷ []) text (progress_of self.new)
            × Writes W.contents out.old out.new result text }
        ensures few { self.new.opened ≤ self.old.opened + most_lines }
        ensures setup { setup_of self.new ≡ setup_of self.old }
        ensures fault { out.new.failed ≡ is_err result }
        ensures after { out.new.after ≡ out.old.after }
    {
        self.answer_command(read_command(without_final_cr(line)), out)
    }

    /// Answers each line whose line feed comes with the piece, and holds what follows the last one.
    fn answer_lines<W: Write>(
        &mut self,
        held: &mut Vec<u8>,
        piece: &[u8],
        out: &mut Watched<W>,
    ) -> Result<(), RunFault>
        requires working { out.old.failed ≡ false }
        requires open { HasNoSeparator 0x0A held.old.items }
        requires room { self.old.opened + length piece.now * most_lines < 2 ^ 64 }
        ensures ok { OnOk result (Ran query_of asked_in W.contents out.old out.new (setup_of self.old) (progress_of self.old)
            (closed_lines (held.old.items ++ piece.now)) (progress_of self.new)
            × (held.new.items ≡ open_line (held.old.items ++ piece.now))) }
        ensures err { IfErr result (λ fault. StoppedIn query_of asked_in W.contents out.old out.new fault (setup_of self.old) self.old.store.state
            (closed_lines (held.old.items ++ piece.now))
            × RanFirst query_of asked_in W.contents out.old out.new (setup_of self.old) (progress_of self.old)
            (closed_lines (held.old.items ++ piece.now)) (progress_of self.new)) }
        ensures few { self.new.opened ≤ self.old.opened + length piece.now * most_lines }
        ensures setup { setup_of self.new ≡ setup_of self.old }
        ensures fault { MatchResult result
            (λ _. out.new.failed ≡ false)
            (λ fault. out.new.failed ≡ is_write_fault fault) }
        ensures after { out.new.after ≡ out.old.after }
    {
        for byte in piece {
            if *byte == b'\n' {
                match self.answer_line(held.as_slice(), out) {
                    Ok(()) => held.clear(),
                    Err(_) => return Err(RunFault::Write),
                }
            } else if held.push(*byte).is_err() {
                return Err(RunFault::Memory);
            }
        }
        Ok(())
    }

    /// What `Session::run` does, of a session whose count is at 0.
    pub(crate) fn run_lines<R: Read, W: Write>(
        &mut self,
        script: &mut Watched<R>,
        out: &mut Watched<W>,
    ) -> Result<(), RunFault>
        requires reads { script.old.failed ≡ false }
        requires writes { out.old.failed ≡ false }
        requires none_opened { self.old.opened ≡ 0 }
        // The count has what the plan of each query tells in turn, and nothing else; after a fault, that of the commands that
        // were run.
        ensures output { (came : Came) × GaveUpTo R.remaining script.old script.new came × MatchResult result
            (λ _. (came.ended ≡ true) × (length came.bytes ≤ self.old.script_most)
            × Ran query_of asked_in W.contents out.old out.new (setup_of self.old) (progress_of self.old)
            (text_lines came.bytes) (progress_of self.new))
            (λ fault. ScriptStopped query_of asked_in W.contents out.old out.new fault (setup_of self.old) self.old.store.state came
            × RanFirst query_of asked_in W.contents out.old out.new (setup_of self.old) (progress_of self.old)
            (lines_so_far came.ended (take self.old.script_most came.bytes)) (progress_of self.new)) }
        ensures ended { OnOk result (HasEnded R.remaining script.new) }
        ensures end { OnOk result (script.new.ended ≡ true) }
        ensures write_fault { MatchResult result
            (λ _. out.new.failed ≡ false)
            (λ fault. out.new.failed ≡ is_write_fault fault) }
        ensures read_fault { MatchResult result
            (λ _. script.new.failed ≡ false)
            (λ fault. OnlyReadScript fault script.new.failed) }
        ensures calls { script.new.calls ≤ script.old.calls + (self.old.script_most + 1) }
        ensures reads_after { script.old.ended ≡ false → script.new.after ≡ script.old.after }
        ensures writes_after { out.new.after ≡ out.old.after }
        ensures setup { setup_of self.new ≡ setup_of self.old }
        ensures early { script.new.early ≡ script.old.early }
    {
        let most = self.script_most as usize;
        let mut held = Vec::new(self.alloc);
        let mut buffer = [0; PIECE];
        let mut count = 0;
        loop {
            // Whoever waits for the answers has them before more is read.
            if flush_written(out).is_err() {
                return Err(RunFault::Write);
            }
            let left = most - count;
            // One byte more than is left, so that the byte past the limit is seen.
            let room = buffer.len().min(left + 1);
            let piece = &mut buffer[..room];
            let Ok(read) = read_script(script, piece, out) else {
                return Err(RunFault::ReadScript);
            };
            if read == 0 {
                break;
            }
            let allowed = &piece[..read.min(left)];
            if let Err(fault) = self.answer_lines(&mut held, allowed, out) {
                return Err(fault);
            }
            if read > left {
                return Err(RunFault::ReadScript);
            }
            count += read;
        }
        if held.is_empty() {
            return Ok(());
        }
        match self.answer_line(held.as_slice(), out) {
            Ok(()) => Ok(()),
            Err(_) => Err(RunFault::Write),
        }
    }
}
