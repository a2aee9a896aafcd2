//! The values of a text, one on each line.

ghost use Rattle.std.specs.Prelude.{◌≡◌, [], IfErr, IfOk, OnErr};
ghost use Rattle.jp_c.specs.Asked.{TellsNumberFirst};
ghost use Rattle.jp_c.specs.Sessions.{left_in};
ghost use Rattle.jp_c.specs.Values.{AreValues, TellsValuesFault, units_of as units_at};

use crate::filter::line_rows;
use crate::question::{FilterFault, question_of};
use crate::searching::{find_rows, form_of};
use crate::session::Session;
use jp_grep::{Framing, Pieces, Units};
use std::alloc::Global;

/// The units of a number.
fn units_of(number: u32) -> Option<Units>
    ensures { result ≡ units_at number }
{
    match number {
        0 => Some(Units::Lines(Framing::Lines)),
        1 => Some(Units::Pieces(Pieces::Texts)),
        2 => Some(Units::Pieces(Pieces::Elements)),
        _ => None,
    }
}

impl Session {
    /// Keeps the values of a text to be read, one on each line, and gives how many of its units are refused.
    pub(crate) fn values(
        &mut self,
        alloc: Global,
        text: &[u8],
        units: u32,
    ) -> Result<u64, FilterFault>
        ensures found { IfOk result (λ refused. AreValues text.now (units_at units) (left_in self.new) refused) }
        ensures fault { IfErr result (λ fault. TellsValuesFault fault text.now (units_at units)) }
        ensures number { TellsNumberFirst result (units_at units) }
        ensures nothing { OnErr result (left_in self.new ≡ []) }
        ensures collection { self.new.collection ≡ self.old.collection }
    {
        self.keep(Vec::new(alloc));
        let Some(units) = units_of(units) else {
            return Err(FilterFault::Number);
        };
        let question = question_of(alloc, b"", b"", line_rows().queries)?;
        let form = form_of("", units, line_rows(), false);
        let (found, refused) = find_rows(alloc, &question, &form, text)?;
        self.keep(found);
        Ok(refused)
    }
}
