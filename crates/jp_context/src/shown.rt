//! What was shown.

ghost use Rattle.std.specs.Prelude.{◌≡◌, ◌++◌, false, is_err};
ghost use Rattle.jp_context.specs.Groups.{parted, separator};
ghost use Rattle.jp_context.specs.declared.shown.Shown.TheVariants as showing;
ghost use Rattle.jp_sink.specs.Texts.{WritesOn};

use jp_sink::{TextSink, Untold};
use std::io::Write;

/// What was shown before a row.
#[derive(Clone, Copy, Debug)]
pub(crate) enum Shown {
    /// Nothing.
    Nothing,
    /// The row before it, of its stream.
    Neighbour,
    /// Other rows.
    Others,
}

impl Shown {
    /// What was shown, as it stands after a row that is not shown, and where a stream begins.
    pub(crate) fn parted(self) -> Shown
        ensures { result ≡ parted self }
    {
        match self {
            Shown::Nothing => Shown::Nothing,
            Shown::Neighbour | Shown::Others => Shown::Others,
        }
    }

    /// Writes what parts a row from what was shown.
    pub(crate) fn part<W: Write>(self, coloured: bool, text: &mut TextSink<W>) -> Result<(), Untold>
        requires working { text.old.out.failed ≡ false }
        ensures written { WritesOn text.old text.new result (separator coloured self) }
        ensures failed { text.new.out.failed ≡ is_err result }
        ensures after { text.new.out.after ≡ text.old.out.after }
    {
        match self {
            Shown::Nothing | Shown::Neighbour => Ok(()),
            Shown::Others => text.put(hyphens(coloured)),
        }
    }

    /// Writes a row, and before it what parts it from what was shown.
    pub(crate) fn show<W: Write>(
        self,
        coloured: bool,
        row: &[u8],
        text: &mut TextSink<W>,
    ) -> Result<(), Untold>
        requires working { text.old.out.failed ≡ false }
        ensures written { WritesOn text.old text.new result (separator coloured self ++ row.now) }
        ensures failed { text.new.out.failed ≡ is_err result }
        ensures after { text.new.out.after ≡ text.old.out.after }
    {
        self.part(coloured, text)?;
        text.put(row)
    }
}

/// Two hyphens, in the colour of a sign where rows have colours.
fn hyphens(coloured: bool) -> &'static [u8]
    ensures { result.now ≡ separator coloured showing.Others }
{
    if coloured {
        b"\x1b[36m\x1b[K--\x1b[m\x1b[K\n"
    } else {
        b"--\n"
    }
}
