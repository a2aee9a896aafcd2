//! What `indexes` answers: the paths of the indexes, in the order in which they were made.

ghost use Rattle.std.specs.Prelude.{◌≡◌, false, is_err};
ghost use Rattle.jp_devices.specs.Devices.{Writes};
ghost use Rattle.jp_model.specs.Meaning.Paths.{path_text};
ghost use Rattle.jp_model.specs.Script.Machine.{indexes_answer, said};
ghost use Rattle.jp_syntax.specs.SingularPaths.{path_steps};
ghost use Rattle.jp_cli.specs.Listed.{listed};

use jp_model::Watched;
use jp_rows::{QueryPart, WriteFault, write_count, write_whole};
use jp_store::Store;
use jp_syntax::SingularPath;
use std::io::Write;

/// Writes a path as a line.
fn write_path_line<W: Write>(path: &SingularPath, out: &mut Watched<W>) -> Result<(), WriteFault>
    requires { out.old.failed ≡ false }
    ensures text { Writes W.contents out.old out.new result (said (path_text (path_steps path.now))) }
    ensures fault { out.new.failed ≡ is_err result }
    ensures after { out.new.after ≡ out.old.after }
{
    QueryPart::Path(path).write(out)?;
    write_whole(b"\n", out)
}

/// Writes the path of each index as a line.
fn write_paths<W: Write>(store: &Store, out: &mut Watched<W>) -> Result<(), WriteFault>
    requires { out.old.failed ≡ false }
    ensures text { Writes W.contents out.old out.new result (listed store.now.state.paths) }
    ensures fault { out.new.failed ≡ is_err result }
    ensures after { out.new.after ≡ out.old.after }
{
    for number in 0..store.index_count() {
        if let Err(fault) = write_path_line(store.path_at(number), out) {
            return Err(fault);
        }
    }
    Ok(())
}

/// Writes the path of each index as a line, and how many there are.
pub(crate) fn write_indexes<W: Write>(store: &Store, out: &mut Watched<W>) -> Result<(), WriteFault>
    requires { out.old.failed ≡ false }
    ensures text { Writes W.contents out.old out.new result (indexes_answer store.now.state) }
    ensures fault { out.new.failed ≡ is_err result }
    ensures after { out.new.after ≡ out.old.after }
{
    match write_paths(store, out) {
        Ok(()) => write_count(store.index_count() as usize, out),
        Err(fault) => Err(fault),
    }
}
