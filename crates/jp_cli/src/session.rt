//! A collection that is held, over which scripts are run.

ghost use Rattle.std.specs.Prelude.{◌≡◌, ◌+◌, ◌≤◌, true, false, IfSome, OnOk, MatchResult};
ghost use Rattle.jp_devices.specs.Devices.{Came, GaveUpTo, HasEnded};
ghost use Rattle.jp_model.specs.Script.Commands.{command_lines, command_of};
ghost use Rattle.jp_model.specs.Script.Headline.{OnlyReadScript, is_write_fault, lines_within};
ghost use Rattle.jp_query.specs.Status.{query_of};
ghost use Rattle.jp_cli.specs.Runs.{setup_of, setup_with, state_of};
ghost use Rattle.jp_cli.specs.Sessions.{HasRun, HasRunFirst, HasStopped};

use jp_model::{RunFault, Watched};
use jp_store::{Opened, Store};
use std::alloc::Global;
use std::io::{Read, Write};

/// A collection that is held, over which scripts are run, one after another. Each begins with the lines and the indexes that
/// the ones before it left.
#[derive(Drop)]
pub struct Session {
    pub(crate) store: Store,
    /// The one count of the lines that the queries of a script open.
    pub(crate) opened: Opened,
    pub(crate) alloc: Global,
    /// The most bytes that a script may have.
    pub(crate) script_most: u32,
}

impl Session {
    /// A collection over which no command was run yet, and the most bytes that a script may have. The store's meter goes to
    /// the session.
    pub fn new(alloc: Global, script_most: u32, mut store: Store) -> Session
        requires { store.is_metered ≡ false }
        ensures state { state_of result ≡ store.state }
        ensures setup { setup_of result ≡ setup_with store script_most }
    {
        let opened = store.meter();
        Session {
            store,
            opened,
            alloc,
            script_most,
        }
    }

    /// Runs the commands of a script over the collection, and writes what they answer.
    ///
    /// Each command is answered as its line feed comes, and its answer is whole before its first byte is written. The writer is
    /// flushed before each read of the script where it took bytes since, or came with bytes that were unflushed. No read
    /// follows one that answered 0, one that failed, or the byte past the limit, and no write follows one that failed or took
    /// no byte.
    ///
    /// # Errors
    ///
    /// `ReadScript` if a read failed or the script has more bytes than it may have, `Write` if a write failed or took no byte,
    /// or a flush failed, and `Memory` if a growth was refused while a command line was held. Some first ones of the commands
    /// were run then, and what they changed stays.
    pub fn run<R: Read, W: Write>(
        &mut self,
        script: &mut Watched<R>,
        out: &mut Watched<W>,
    ) -> Result<(), RunFault>
        requires script { script.old.failed ≡ false }
        requires out { out.old.failed ≡ false }
        // The reader gave some bytes. At Ok it gave all, the writer received the answers to them, and the collection is what
        // they made of it; else what `HasStopped` says, and what some first commands made of it.
        ensures output { (came : Came) × GaveUpTo R.remaining script.old script.new came × MatchResult result
            (λ _. (came.ended ≡ true)
            × HasRun query_of command_of W.contents out.old out.new (setup_of self.old) (state_of self.old) came.bytes (state_of self.new))
            (λ fault. HasStopped query_of command_of W.contents out.old out.new (setup_of self.old) (state_of self.old) fault came
            × HasRunFirst query_of command_of W.contents out.old out.new (setup_of self.old) (state_of self.old) (lines_within (setup_of self.old) came) (state_of self.new)) }
        // In short: of a reader that tells its bytes, Ok means the answers to all of them, and an Err those of some first
        // commands.
        ensures told { MatchResult result
            (λ _. IfSome (R.remaining script.old.device) (λ s.
            HasRun query_of command_of W.contents out.old out.new (setup_of self.old) (state_of self.old) s (state_of self.new)))
            (λ _. IfSome (R.remaining script.old.device) (λ s.
            HasRunFirst query_of command_of W.contents out.old out.new (setup_of self.old) (state_of self.old) (command_lines s) (state_of self.new))) }
        ensures ended { OnOk result (HasEnded R.remaining script.new) }
        ensures end { OnOk result (script.new.ended ≡ true) }
        // Each device's fault is answered exactly where that device failed.
        ensures script_fault { MatchResult result (λ _. script.new.failed ≡ false) (λ fault. OnlyReadScript fault script.new.failed) }
        ensures write_fault { MatchResult result (λ _. out.new.failed ≡ false) (λ fault. out.new.failed ≡ is_write_fault fault) }
        // It reads at most once for each byte up to the limit, and once more.
        ensures calls { script.new.calls ≤ script.old.calls + ((setup_of self.old).script_most + 1) }
        // No call follows one that failed, and no read one that answered 0.
        ensures script_after { script.old.ended ≡ false → script.new.after ≡ script.old.after }
        ensures out_after { out.new.after ≡ out.old.after }
        // No read of the script comes while the writer has bytes unflushed.
        ensures early { script.new.early ≡ script.old.early }
        ensures setup { setup_of self.new ≡ setup_of self.old }
    {
        self.opened.restart();
        self.run_lines(script, out)
    }
}
