//! The run of a script over a collection.

ghost use Rattle.std.specs.Prelude.{◌≡◌, ◌+◌, ◌≤◌, true, false, OnOk, IfSome, MatchResult};
ghost use Rattle.jp_devices.specs.Devices.{GaveUpTo, HasEnded};
ghost use Rattle.jp_model.specs.Script.Headline.{GivenToRun, RunEnded, RunStopped, is_write_fault, is_read_collection, OnlyReadScript};
ghost use Rattle.jp_model.specs.Script.Commands.{command_of};
ghost use Rattle.jp_query.specs.Status.{query_of};
ghost use Rattle.jp_cli.specs.Passed.{given_since};

use crate::session::Session;
use jp_model::{RunFault, Setup, Watched};
use jp_store::{LoadFault, Store};
use std::alloc::Global;
use std::io::{Read, Write};

/// Runs the commands of a script over a collection, and writes what they answer.
///
/// The collection is read to its end before the script. Each command is answered as its line feed comes, and its answer is
/// whole before its first byte is written. The writer is flushed before each read of the script where it took bytes since, or
/// came with bytes that were unflushed. No read follows one that answered 0, one that failed, or the byte past a limit, and no
/// write follows one that failed or took no byte.
///
/// # Errors
///
/// `ReadCollection` and `ReadScript` if a read failed, `Size` if the collection has more than `most` bytes,
/// `Framing` if bytes other than white space come before the first separator of a sequence,
/// `ReadScript` also where the script has more than `script_most` bytes, `Write` if a write failed or took no byte, or a
/// flush failed, and `Memory` if a growth was refused while a command line was held, or while the collection was loaded:
/// then it shows no other fault.
pub fn run<C: Read, R: Read, W: Write>(
    alloc: Global,
    setup: Setup,
    collection: &mut Watched<C>,
    script: &mut Watched<R>,
    out: &mut Watched<W>,
) -> Result<(), RunFault>
    requires collection { collection.old.failed ≡ false }
    requires script { script.old.failed ≡ false }
    requires out { out.old.failed ≡ false }
    // The readers gave some bytes. At Ok they gave all, and the writer received the output for them; else what `RunStopped`
    // says.
    ensures output { (given : GivenToRun)
        × GaveUpTo C.remaining collection.old collection.new given.collection
        × GaveUpTo R.remaining script.old script.new given.script
        × MatchResult result
        (λ _. RunEnded query_of command_of W.contents out.old out.new setup given.collection.bytes given.script.bytes)
        (λ fault. RunStopped query_of command_of W.contents out.old out.new fault setup given) }
    // In short: where the readers tell their bytes, Ok means the output of all of them.
    ensures told { OnOk result (IfSome (C.remaining collection.old.device) (λ c. IfSome (R.remaining script.old.device) (λ s.
        RunEnded query_of command_of W.contents out.old out.new setup c s))) }
    // Of every device, files and pipes too: Ok means the output of what the reads gave, and the writes took it.
    ensures passed { OnOk result (RunEnded query_of command_of W.contents out.old out.new setup (given_since collection.old collection.new) (given_since script.old script.new)) }
    ensures ended { OnOk result (HasEnded C.remaining collection.new × HasEnded R.remaining script.new) }
    // Also of readers that do not tell their bytes, Ok means that both came to their ends.
    ensures ends { OnOk result ((collection.new.ended ≡ true) × (script.new.ended ≡ true)) }
    // Each device's fault is answered exactly where that device failed.
    ensures collection_fault { MatchResult result (λ _. collection.new.failed ≡ false) (λ fault. collection.new.failed ≡ is_read_collection fault) }
    ensures script_fault { MatchResult result (λ _. script.new.failed ≡ false) (λ fault. OnlyReadScript fault script.new.failed) }
    ensures write_fault { MatchResult result (λ _. out.new.failed ≡ false) (λ fault. out.new.failed ≡ is_write_fault fault) }
    // It reads at most once for each byte up to a limit, and once more.
    ensures collection_calls { collection.new.calls ≤ collection.old.calls + (setup.most + 1) }
    ensures script_calls { script.new.calls ≤ script.old.calls + (setup.script_most + 1) }
    // No call follows one that failed, and no read one that answered 0.
    ensures collection_after { collection.old.ended ≡ false → collection.new.after ≡ collection.old.after }
    ensures script_after { script.old.ended ≡ false → script.new.after ≡ script.old.after }
    ensures out_after { out.new.after ≡ out.old.after }
    // No read of the script comes while the writer has bytes unflushed.
    ensures script_early { script.new.early ≡ script.old.early }
{
    let store = match Store::load(alloc, setup.framing, setup.most, collection) {
        Ok(store) => store,
        Err(LoadFault::Read) => return Err(RunFault::ReadCollection),
        Err(LoadFault::Size) => return Err(RunFault::Size),
        Err(LoadFault::Framing) => return Err(RunFault::Framing),
        Err(LoadFault::Memory) => return Err(RunFault::Memory),
    };
    let mut session = Session::new(alloc, setup.script_most, store);
    session.run(script, out)
}
