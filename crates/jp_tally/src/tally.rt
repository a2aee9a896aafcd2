//! A sink that counts the rows that it is told.

ghost use Rattle.std.specs.Prelude.{◌≡◌, [], List, IfOk, OnErr, OnOk, false, map, option_map, true};
ghost use Rattle.std.specs.List.{list_all};
ghost use Rattle.jp_sink.specs.Events.{Event};
ghost use Rattle.jp_sink.specs.Telling.{has_failed};
ghost use Rattle.jp_tally.specs.Counting.{entries_of, is_entry};
ghost use Rattle.jp_tally.specs.Rows.{row_of, rows_told};
ghost use Rattle.jp_tally.specs.Tallies.{Entry, IsTally};
ghost use Rattle.jp_tally.specs.Texts.{WritesTally, is_write_fault, tally_text};

use crate::counting::count_rows;
use crate::fault::TallyFault;
use crate::ranked::rank_rows;
use crate::rows::Rows;
use crate::text::text_of;
use jp_devices::{Watched, write_whole};
use jp_form::Table;
use jp_nodes::Cursor;
use jp_sink::{Sink, Untold};
use std::alloc::{AllocError, Global};
use std::io::Write;

/// How many bytes are counted together at least.
const LEAST: usize = 1 << 16;

/// The rows that were told, and how often each was. A row is what a row's text has before the line feed that ends it, and a node's
/// row is the node.
///
/// Rows are counted once those that came since are twice as many bytes as those that are kept, so that n rows take the time to
/// sort n rows, whichever they are.
#[derive(Drop)]
pub struct Tally {
    alloc: Global,
    kept: Rows,
    /// The rows that came since rows were counted.
    fresh: Rows,
    is_full: bool,
    ghost kept_came: { list_all is_entry (entries_of kept) ≡ true },
    ghost fresh_came: { list_all is_entry (entries_of fresh) ≡ true },
}

impl Tally {
    ghost use Rattle.jp_tally.specs.Standing.{CountsRow, SameCounts, Stands};

    /// A tally of no row yet.
    pub fn new(alloc: Global) -> Tally
        ensures stands { Stands result [] }
        ensures full { result.is_full ≡ false }
    {
        Tally {
            alloc,
            kept: Rows::new(alloc),
            fresh: Rows::new(alloc),
            is_full: false,
        }
    }

    /// Counts the rows that came since.
    ///
    /// If memory is refused, the tally is as before.
    fn count(&mut self) -> Result<(), AllocError>
        ensures counts { SameCounts self.old self.new }
        ensures full { self.new.is_full ≡ self.old.is_full }
    {
        let kept = count_rows(self.alloc, &self.kept, &self.fresh)?;
        self.kept = kept;
        self.fresh.clear();
        Ok(())
    }

    /// Makes room for more: once much came since rows were counted, they are counted.
    fn make_room(&mut self) -> Result<(), AllocError>
        ensures counts { SameCounts self.old self.new }
        ensures full { self.new.is_full ≡ self.old.is_full }
    {
        let fresh = self.fresh.size();
        if fresh >= LEAST && fresh / 2 >= self.kept.size() {
            return self.count();
        }
        Ok(())
    }

    /// Adds a row to those that came since rows were counted.
    fn add(&mut self, row: &[u8]) -> Result<(), AllocError>
        ensures counts { OnOk result (CountsRow self.old self.new row.now) }
        ensures full { self.new.is_full ≡ self.old.is_full }
    {
        self.make_room()?;
        self.fresh.push(row, 1)
    }

    /// Takes a row.
    fn take(&mut self, row: &[u8]) -> Result<(), Untold>
        requires { self.old.is_full ≡ false }
        ensures counts { OnOk result (CountsRow self.old self.new row.now) }
        ensures fault { OnErr result (has_failed result ≡ true) }
        ensures full { self.new.is_full ≡ has_failed result }
    {
        if self.add(row).is_ok() {
            return Ok(());
        }
        self.is_full = true;
        Err(Untold::Sink)
    }
}

impl Tally {
    ghost use Rattle.jp_tally.specs.Standing.{Stands};

    /// The text of the tally of the rows that were told.
    fn text(&self, table: Table, names: Option<&[&str]>) -> Result<Vec<u8>, AllocError>
        ensures { (told : List Event) → Stands self.now told → IfOk result (λ text. (tally : List Entry) × IsTally (rows_told told) tally
            × (text.items ≡ tally_text table (option_map (λ given. map (λ name. name.now) given.now) names.entry) tally)) }
    {
        let kept = count_rows(self.alloc, &self.kept, &self.fresh)?;
        let ranked = rank_rows(self.alloc, &kept)?;
        text_of(self.alloc, table, names, &ranked)
    }

    /// Writes the tally of the rows that were told, a row for each that is not the same as another: how often it came, and its
    /// cells, which tabs part, as the table shows them. The row is to have the canonical texts of values for its cells. Above all
    /// rows stand the names of the columns, where there are any.
    ///
    /// # Errors
    ///
    /// `Write` if it was not written: then a beginning of it was. `Memory` if a growth was refused: then nothing was.
    pub fn write_rows<W: Write>(
        &self,
        table: Table,
        names: Option<&[&str]>,
        out: &mut Watched<W>,
    ) -> Result<(), TallyFault>
        requires { out.old.failed ≡ false }
        ensures rows { (told : List Event) → Stands self.now told → WritesTally W.contents out.old out.new result (rows_told told) table (option_map (λ given. map (λ name. name.now) given.now) names.entry) }
        ensures fault { out.new.failed ≡ is_write_fault result }
    {
        let Ok(text) = self.text(table, names) else {
            return Err(TallyFault::Memory);
        };
        match write_whole(&text, out) {
            Ok(()) => Ok(()),
            Err(_) => Err(TallyFault::Write),
        }
    }
}

/// The text without the line feed that ends it, if one does.
fn without_feed(text: &[u8]) -> &[u8]
    ensures { result.now ≡ row_of text.now }
{
    let Some(end) = text.len().checked_sub(1) else {
        return text;
    };
    if text[end] == b'\n' {
        &text[..end]
    } else {
        text
    }
}

/// It fails where memory is refused, and is then of no use.
impl Sink for Tally {
    ghost use Rattle.jp_tally.specs.Standing.{Stands};

    ghost stands = { λ tally told. Stands tally told };

    ghost stopped = { λ tally told. Unit {0} };

    ghost state = { λ tally. record { failed = tally.is_full; unflushed = false; after = 0; settings = [] } };

    fn gap(&mut self) {}

    fn row(&mut self, _is_selected: bool, text: &[u8]) -> Result<(), Untold> {
        self.take(without_feed(text))
    }

    fn node(&mut self, _number: u64, node: Cursor<'_>) -> Result<(), Untold> {
        self.take(node.source())
    }

    fn flush(&mut self) -> Result<(), Untold> {
        Ok(())
    }

    fn is_unflushed(&self) -> bool {
        false
    }

    fn has_failed(&self) -> bool {
        self.is_full
    }
}
