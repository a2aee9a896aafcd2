//! Lines that end with numbers: what a change answers, and what sums up a collection.

ghost use Rattle.std.specs.Prelude.{◌≡◌, ◌++◌, false, is_err, decimal, codes};
ghost use Rattle.jp_devices.specs.Devices.{Writes};
ghost use Rattle.jp_model.specs.Script.Machine.{said};

use itoa::Buffer;
use jp_devices::{WriteFault, write_whole};
use jp_model::Watched;
use std::io::Write;

/// Writes some words and a number after them.
fn write_counted<W: Write>(
    words: &[u8],
    count: usize,
    out: &mut Watched<W>,
) -> Result<(), WriteFault>
    requires { out.old.failed ≡ false }
    ensures text { Writes W.contents out.old out.new result (words.now ++ decimal count) }
    ensures fault { out.new.failed ≡ is_err result }
    ensures after { out.new.after ≡ out.old.after }
{
    let mut digits = Buffer::new();
    write_whole(words, out)?;
    write_whole(digits.format(count).as_bytes(), out)
}

/// Writes a line of some words and a number after them, in decimal.
///
/// After an `Err` the writer received a beginning of the line: no write follows one that failed or took no byte.
pub fn write_numbered<W: Write>(
    words: &[u8],
    number: usize,
    out: &mut Watched<W>,
) -> Result<(), WriteFault>
    requires { out.old.failed ≡ false }
    ensures text { Writes W.contents out.old out.new result (said (words.now ++ decimal number)) }
    ensures fault { out.new.failed ≡ is_err result }
    ensures after { out.new.after ≡ out.old.after }
{
    write_counted(words, number, out)?;
    write_whole(b"\n", out)
}

/// Writes the line that sums up a whole collection: how many lines it has, how many of them are refused, and
/// how many are blank (profile).
///
/// After an `Err` the writer received a beginning of the line: no write follows one that failed or took no byte.
pub fn write_summary<W: Write>(
    lines: usize,
    refused: usize,
    blank: usize,
    out: &mut Watched<W>,
) -> Result<(), WriteFault>
    requires { out.old.failed ≡ false }
    ensures text { Writes W.contents out.old out.new result (said (codes "= " ++ decimal lines ++ codes " lines, " ++ decimal refused ++ codes " refused, " ++ decimal blank ++ codes " blank")) }
    ensures fault { out.new.failed ≡ is_err result }
    ensures after { out.new.after ≡ out.old.after }
{
    write_counted(b"= ", lines, out)?;
    write_counted(b" lines, ", refused, out)?;
    write_counted(b" refused, ", blank, out)?;
    write_whole(b" blank\n", out)
}
