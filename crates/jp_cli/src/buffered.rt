//! The run of the program: within its limits, through a buffer that is flushed at its end.

ghost use Rattle.std.specs.Prelude.{◌≡◌, true, false, IfOk, OnErr};
ghost use Rattle.jp_devices.specs.Buffered.{untold};
ghost use Rattle.jp_devices.specs.Devices.{GaveUpTo};
ghost use Rattle.jp_model.specs.Script.Commands.{command_of};
ghost use Rattle.jp_model.specs.Script.Headline.{GivenToRun, RunEnded};
ghost use Rattle.jp_query.specs.Status.{query_of};
ghost use Rattle.jp_cli.specs.Buffered.{HasReadScript, ProgramEnded, end_told, is_collection_fault, program_setup};
ghost use Rattle.jp_cli.specs.Passed.{given_since};
ghost use Rattle.jp_cli.specs.declared.end.End.TheVariants as ends;

use crate::engine::run;
use crate::{End, Options};
use jp_devices::write_out;
use jp_model::{RunFault, Setup, Watched};
use std::alloc::{AllocError, Global};
use std::io::{BufWriter, Read, Write};

/// How a run of the program ended.
#[derive(Drop)]
pub struct Finished<W> {
    /// The end that is told.
    pub end: End,
    /// The writer behind the buffer, as its last call left it.
    pub out: Watched<W>,
}

/// How the program ends, by how its run ended and whether a call of its writer failed.
fn end_told(ended: Result<(), RunFault>, is_failed: bool) -> End
    ensures { result ≡ end_told ended is_failed }
{
    match ended {
        Ok(()) if is_failed => End::Run(RunFault::Write),
        Ok(()) => End::Done,
        Err(fault) => End::Run(fault),
    }
}

impl Options<'_> {
    /// Runs the commands of a script over a collection, in the framing that the arguments ask for, and writes what they answer
    /// through a buffer of 8192 bytes. The collection and the script have at most 4,294,967,295 bytes each.
    ///
    /// When the run is over, what the buffer holds is written and the writer is flushed, after a fault too; a writer of which
    /// a call failed is not called again for that. If one failed in a run that came to its end, the end that is told is the
    /// fault `Write`, also where a write was only interrupted. A fault of the run is told as it is.
    ///
    /// # Errors
    ///
    /// There is no memory for the buffer. Then nothing was read and nothing was written.
    pub fn run<C: Read, R: Read, W: Write + Drop>(
        &self,
        alloc: Global,
        collection: &mut Watched<C>,
        script: &mut Watched<R>,
        out: Watched<W>,
    ) -> Result<Finished<W>, AllocError>
        requires collection { collection.old.failed ≡ false }
        requires script { script.old.failed ≡ false }
        // What the writer took, by the end: the output of what the readers gave, if the work is done; else what `run` says of
        // the fault; a beginning of it is enough where a call of the writer failed.
        ensures output { IfOk result (λ finished. (given : GivenToRun)
            × GaveUpTo C.remaining collection.old collection.new given.collection
            × GaveUpTo R.remaining script.old script.new given.script
            × ProgramEnded query_of command_of out finished.out (program_setup self.now.framing) given finished.end) }
        // In short: if the work is done, the writes of the writer took the output of what the reads gave.
        ensures done { IfOk result (λ finished. finished.end ≡ ends.Done
            → RunEnded query_of command_of untold out finished.out (program_setup self.now.framing)
            (given_since collection.old collection.new) (given_since script.old script.new)) }
        // If the work is done, both readers came to their ends.
        ensures ends { IfOk result (λ finished. finished.end ≡ ends.Done
            → (collection.new.ended ≡ true) × (script.new.ended ≡ true)) }
        // Each reader's fault is told exactly where that reader failed.
        ensures collection_fault { IfOk result (λ finished. collection.new.failed ≡ is_collection_fault finished.end) }
        ensures script_fault { IfOk result (λ finished. HasReadScript finished.end script.new.failed) }
        // No read follows one that failed or answered 0, and none of the script comes while the buffer has bytes unflushed.
        ensures collection_after { collection.old.ended ≡ false → collection.new.after ≡ collection.old.after }
        ensures script_after { script.old.ended ≡ false → script.new.after ≡ script.old.after }
        ensures script_early { script.new.early ≡ script.old.early }
        ensures refused { OnErr result ((collection.new ≡ collection.old) × (script.new ≡ script.old)) }
    {
        let setup = Setup {
            framing: self.framing,
            most: u32::MAX,
            script_most: u32::MAX,
        };
        let Ok(out) = BufWriter::new(alloc, out) else {
            return Err(AllocError);
        };
        let mut out = Watched::new(out);
        let ended = run(alloc, setup, collection, script, &mut out);
        let out = write_out(out.into_inner());
        let end = end_told(ended, out.failed());
        Ok(Finished { end, out })
    }
}
