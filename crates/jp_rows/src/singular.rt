//! Parts of a singular query's text: written, and appended to a text.

ghost use Rattle.std.specs.Prelude.{◌≡◌, ◌++◌, chars, false, is_err, encode_utf8_all, take, IsOk, IsErr, OnOk, OnErr};
ghost use Rattle.jp_devices.specs.Devices.{Writes};
ghost use Rattle.jp_model.specs.Meaning.Paths.{path_text, quoted, step_text};
ghost use Rattle.jp_model.specs.Steps.{index_step, name_step};
ghost use Rattle.jp_syntax.specs.SingularPaths.{path_steps, step_view};
ghost use Rattle.jp_rows.specs.Parts.{part_text};

use crate::names::{Name, write_between, write_index_step};
use jp_devices::{WriteFault, write_whole};
use jp_model::Watched;
use jp_syntax::{SingularPath, Step};
use std::alloc::AllocError;
use std::io::Write;
use std::mem;

/// A part of a singular query, spelled as in a normalized path (RFC 9535, section 2.7).
#[derive(Clone, Copy)]
pub enum QueryPart<'a> {
    /// A whole path. Its indexes may be negative.
    Path(&'a SingularPath),
    /// The step to the member of a name.
    Name(&'a str),
    /// The step to the element of an index. Below 0 it counts from the end.
    Index(i64),
    /// A name or a string between single quotes (normal-name-selector).
    Quoted(&'a str),
}

/// Writes a name or a string between single quotes (RFC 9535, section 2.7: normal-name-selector).
fn write_quoted<W: Write>(text: &str, out: &mut Watched<W>) -> Result<(), WriteFault>
    requires { out.old.failed ≡ false }
    ensures text { Writes W.contents out.old out.new result (encode_utf8_all (quoted (chars text.now))) }
    ensures fault { out.new.failed ≡ is_err result }
    ensures after { out.new.after ≡ out.old.after }
{
    write_between(b"'", Name::Scalars(text), b"'", out)
}

/// Writes the step to the member of a name.
fn write_named_step<W: Write>(name: &str, out: &mut Watched<W>) -> Result<(), WriteFault>
    requires { out.old.failed ≡ false }
    ensures text { Writes W.contents out.old out.new result (encode_utf8_all (step_text (name_step (chars name.now)))) }
    ensures fault { out.new.failed ≡ is_err result }
    ensures after { out.new.after ≡ out.old.after }
{
    write_between(b"['", Name::Scalars(name), b"']", out)
}

/// Writes a step.
fn write_singular_step<W: Write>(step: &Step, out: &mut Watched<W>) -> Result<(), WriteFault>
    requires { out.old.failed ≡ false }
    ensures text { Writes W.contents out.old out.new result (encode_utf8_all (step_text (step_view step.now))) }
    ensures fault { out.new.failed ≡ is_err result }
    ensures after { out.new.after ≡ out.old.after }
{
    match step {
        Step::Name(name) => write_named_step(name, out),
        Step::Index(index) => write_index_step(*index, out),
    }
}

/// Writes the path of an index as a normalized path is written (RFC 9535, section 2.7); its indexes may be negative.
///
/// After an `Err` the writer received a beginning of the path: no write follows one that failed or took no byte.
pub fn write_steps<W: Write>(path: &SingularPath, out: &mut Watched<W>) -> Result<(), WriteFault>
    requires { out.old.failed ≡ false }
    ensures text { Writes W.contents out.old out.new result (path_text (path_steps path.now)) }
    ensures fault { out.new.failed ≡ is_err result }
    ensures after { out.new.after ≡ out.old.after }
{
    write_whole(b"$", out)?;
    for step in path.steps() {
        write_singular_step(step, out)?;
    }
    Ok(())
}

/// Removes what was written after the first bytes of a text, where not all could be written.
pub(crate) fn settle(
    held: usize,
    written: Result<(), WriteFault>,
    out: &mut Vec<u8>,
) -> Result<(), AllocError>
    ensures ok { OnOk result (IsOk written × (out.new.items ≡ out.old.items)) }
    ensures err { OnErr result (IsErr written × (out.new.items ≡ take held out.old.items)) }
{
    if written.is_ok() {
        return Ok(());
    }
    out.truncate(held);
    Err(AllocError)
}

/// Appends to a text what `write_steps` writes.
///
/// # Errors
///
/// Memory ran out. The text is as before.
pub fn push_steps(path: &SingularPath, out: &mut Vec<u8>) -> Result<(), AllocError>
    ensures text { OnOk result (out.new.items ≡ out.old.items ++ path_text (path_steps path.now)) }
    ensures kept { OnErr result (out.new.items ≡ out.old.items) }
{
    QueryPart::Path(path).push_to(out)
}

impl QueryPart<'_> {
    /// Writes the part.
    ///
    /// After an `Err` the writer received a beginning of it: no write follows one that failed or took no byte.
    pub fn write<W: Write>(self, out: &mut Watched<W>) -> Result<(), WriteFault>
        requires { out.old.failed ≡ false }
        ensures text { Writes W.contents out.old out.new result (part_text self.entry) }
        ensures fault { out.new.failed ≡ is_err result }
        ensures after { out.new.after ≡ out.old.after }
    {
        match self {
            QueryPart::Path(path) => write_steps(path, out),
            QueryPart::Name(name) => write_named_step(name, out),
            QueryPart::Index(index) => write_index_step(index, out),
            QueryPart::Quoted(text) => write_quoted(text, out),
        }
    }

    /// Appends to a text what `write` writes.
    ///
    /// # Errors
    ///
    /// Memory ran out. The text is as before.
    pub fn push_to(self, out: &mut Vec<u8>) -> Result<(), AllocError>
        ensures text { OnOk result (out.new.items ≡ out.old.items ++ part_text self.entry) }
        ensures kept { OnErr result (out.new.items ≡ out.old.items) }
    {
        let held = out.len();
        let mut writer = Watched::new(mem::try_take(out)?);
        let written = self.write(&mut writer);
        *out = writer.into_inner();
        settle(held, written, out)
    }
}
