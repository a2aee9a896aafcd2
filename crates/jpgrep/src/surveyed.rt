//! What is in the files.

use crate::counted::{Counter, Unwritten};
use crate::output::Output;
use jp_model::Watched;
use jp_options::Options;
use jp_survey::{Survey, SurveyFault};

impl Counter for Survey {
    fn write_rows(self, options: &Options<'_>, out: &mut Watched<Output>) -> Result<(), Unwritten> {
        match Survey::write_rows(self, options.counted_table(), options.has_header(), out) {
            Ok(()) => Ok(()),
            Err(SurveyFault::Memory) => Err(Unwritten::Memory),
            Err(SurveyFault::Write) => Err(Unwritten::Write),
        }
    }
}
