//! What `check` answers: the refused lines, and how many lines there are.

ghost use Rattle.std.specs.Prelude.{◌≡◌, ◌≤◌, [], ◌∷◌, false, is_err, length};
ghost use Rattle.jp_devices.specs.Devices.{Writes};
ghost use Rattle.jp_model.specs.Script.Machine.{check_answer, refusals_from};
ghost use Rattle.jp_store.specs.Collections.{line_status, statuses_in};

use jp_model::Watched;
use jp_rows::{WriteFault, write_refusal, write_summary};
use jp_store::{Status, Store};
use std::io::Write;

/// Writes the row of line `number` where it is refused, and nothing for any other.
fn write_if_refused<W: Write>(
    store: &Store,
    number: u32,
    out: &mut Watched<W>,
) -> Result<(), WriteFault>
    requires working { out.old.failed ≡ false }
    requires first { 1 ≤ number }
    requires last { number ≤ length store.now.state.lines }
    ensures text { Writes W.contents out.old out.new result (refusals_from store.now.framing number (line_status number store.now ∷ [])) }
    ensures fault { out.new.failed ≡ is_err result }
    ensures after { out.new.after ≡ out.old.after }
{
    match store.line_status(number) {
        Status::Refused(fault) => write_refusal(number, fault, store.framing(), out),
        Status::Blank => Ok(()),
        Status::Tree => Ok(()),
    }
}

/// Writes a row for each refused line. No other line is asked.
fn write_refusals<W: Write>(store: &Store, out: &mut Watched<W>) -> Result<(), WriteFault>
    requires working { out.old.failed ≡ false }
    ensures text { Writes W.contents out.old out.new result (refusals_from store.now.framing 1 (statuses_in store.now)) }
    ensures fault { out.new.failed ≡ is_err result }
    ensures after { out.new.after ≡ out.old.after }
{
    let mut last = 0;
    while let Some(number) = store.refused_behind(last) {
        if let Err(fault) = write_if_refused(store, number, out) {
            return Err(fault);
        }
        last = number;
    }
    Ok(())
}

/// Writes the refused lines, and then how many lines there are, how many of them are refused and how many are blank.
pub(crate) fn write_check<W: Write>(store: &Store, out: &mut Watched<W>) -> Result<(), WriteFault>
    requires working { out.old.failed ≡ false }
    ensures text { Writes W.contents out.old out.new result (check_answer store.now.framing store.now.state) }
    ensures fault { out.new.failed ≡ is_err result }
    ensures after { out.new.after ≡ out.old.after }
{
    match write_refusals(store, out) {
        Ok(()) => {
            let lines = store.line_count() as usize;
            let refused = store.refused_count();
            let blank = lines - store.tree_count() as usize - refused;
            write_summary(lines, refused, blank, out)
        }
        Err(fault) => Err(fault),
    }
}
