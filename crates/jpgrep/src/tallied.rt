//! How often each value came in the files.

use crate::counted::{Counter, Unwritten};
use crate::output::Output;
use jp_model::Watched;
use jp_options::Options;
use jp_tally::{Tally, TallyFault};

impl Counter for Tally {
    fn write_rows(self, options: &Options<'_>, out: &mut Watched<Output>) -> Result<(), Unwritten> {
        let names = if options.has_header() {
            Some(options.columns())
        } else {
            None
        };
        match Tally::write_rows(&self, options.counted_table(), names, out) {
            Ok(()) => Ok(()),
            Err(TallyFault::Memory) => Err(Unwritten::Memory),
            Err(TallyFault::Write) => Err(Unwritten::Write),
        }
    }
}
