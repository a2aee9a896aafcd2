//! Answers commands over JSON Lines that are held in memory, and prints the answers.
#![tactic(auto)]

ghost use Rattle.std.specs.Prelude.{◌≡◌, List, Bool, IfOk};
ghost use Rattle.jp_model.specs.Script.Commands.{command_lines, command_of};
ghost use Rattle.jp_model.specs.Script.Headline.{output};
ghost use Rattle.jp_model.specs.Script.Machine.{OnlyForMemory};
ghost use Rattle.jp_query.specs.Status.{query_of};

use jp_cli::run;
use jp_model::{Framing, RunFault, Setup, Watched};
use std::alloc::Global;
use std::io::{self, Write};

/// Three lines; the second is not a JSON text.
const COLLECTION: &[u8] =
    b"{\"title\":\"Moby Dick\",\"price\":8.99}\n{\"title\":\n{\"title\":\"Emma\"}\n";

/// Two commands, one in a line.
const SCRIPT: &[u8] = b"query $.title\ncheck\n";

/// What the commands of a script answer over a collection. For each command a flag tells whether a growth was refused in it,
/// which only some commands may say.
///
/// # Errors
///
/// The fault of the run.
fn answers(
    alloc: Global,
    setup: Setup,
    collection: &[u8],
    script: &[u8],
) -> Result<Vec<u8>, RunFault>
    ensures { IfOk result (λ answers. (flags : List Bool) × OnlyForMemory command_of (command_lines script.now) flags
        × (answers.items ≡ output query_of command_of setup collection.now script.now flags)) }
{
    let mut collection = Watched::new(collection);
    let mut script = Watched::new(script);
    let mut answers = Watched::new(Vec::new(alloc));
    match run(alloc, setup, &mut collection, &mut script, &mut answers) {
        Ok(()) => Ok(answers.into_inner()),
        Err(fault) => Err(fault),
    }
}

/// Writes the answers to the standard output, or, if the run stops, says why and ends in an error.
fn main(rt: HostRuntime) -> io::Result<()> {
    let setup = Setup {
        framing: Framing::Lines,
        most: 1_000_000,
        script_most: 1_000_000,
    };
    match answers(rt.alloc(), setup, COLLECTION, SCRIPT) {
        Ok(answers) => rt.stdout().write_all(answers.as_slice()),
        Err(fault) => {
            println!(rt; "the run stopped: {fault:?}")?;
            Err(io::ErrorKind::Other.into())
        }
    }
}
