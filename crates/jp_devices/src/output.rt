//! Writers that are flushed before something is waited for, and those behind a buffer.

ghost use Rattle.std.specs.Prelude.{◌≡◌, OnOk, false, is_err};
ghost use Rattle.std.specs.Io.Buffered.{writer_inner};
ghost use Rattle.std.specs.Io.KnownBytes.{Keeps};
ghost use Rattle.jp_devices.specs.Buffered.{Took, filled};

use crate::watched::Watched;
use crate::whole::write_whole;
use std::io;
use std::io::{BufWriter, Write};

/// Flushes a writer where it took bytes that are unflushed.
///
/// # Errors
///
/// The flush failed.
pub fn flush_written<W: Write>(out: &mut Watched<W>) -> io::Result<()>
    requires working { out.old.failed ≡ false }
    ensures bytes { Keeps (W.contents out.old.device) (W.contents out.new.device) }
    ensures taken { out.new.taken ≡ out.old.taken }
    ensures flushed { OnOk result (out.new.unflushed ≡ false) }
    ensures fault { out.new.failed ≡ is_err result }
    ensures after { out.new.after ≡ out.old.after }
{
    if out.unflushed() {
        return out.flush();
    }
    Ok(())
}

/// Writes what the buffer holds, and flushes the writer behind it. A writer that failed a call is left as it is.
pub fn write_out<W: Write + Drop>(out: BufWriter<Watched<W>>) -> Watched<W>
    ensures took { Took result (filled out) }
    ensures flushed { result.failed ≡ false → result.unflushed ≡ false }
    ensures after { result.after ≡ (writer_inner out).after }
{
    let (mut out, left) = out.into_parts();
    if !out.failed() && write_whole(left.as_slice(), &mut out).is_ok() {
        let _ = out.flush();
    }
    out
}
