//! Texts that are written whole, or up to the first failure.

ghost use Rattle.std.specs.Prelude.{◌≡◌, false, is_err};
ghost use Rattle.jp_devices.specs.Devices.{Writes};

use crate::watched::Watched;
use std::io::Write;

/// A write failed, or took no byte.
#[derive(Debug, Drop)]
pub struct WriteFault;

/// Writes all of these bytes, in as many writes as the writer needs.
///
/// After an `Err` the writer received a beginning of them: no write follows one that failed or took no byte.
pub fn write_whole<W: Write>(text: &[u8], out: &mut Watched<W>) -> Result<(), WriteFault>
    requires { out.old.failed ≡ false }
    ensures text { Writes W.contents out.old out.new result text.now }
    ensures fault { out.new.failed ≡ is_err result }
    ensures after { out.new.after ≡ out.old.after }
{
    let mut at = 0;
    while at < text.len() {
        let Ok(taken) = out.write(&text[at..]) else {
            return Err(WriteFault);
        };
        if taken == 0 {
            return Err(WriteFault);
        }
        at += taken;
    }
    Ok(())
}
