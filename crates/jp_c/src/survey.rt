//! What is in the lines of a text.

ghost use Rattle.std.specs.Prelude.{◌≡◌, [], IfErr, IfOk, List, OnErr, OnOk};
ghost use Rattle.jp_c.specs.Asked.{TellsUnread};
ghost use Rattle.jp_c.specs.Sessions.{left_in};
ghost use Rattle.jp_c.specs.Surveyed.{IsSurveyed, IsSurveyOf, IsSurveyOfFound, TellsSurveyFault};
ghost use Rattle.jp_sink.specs.Events.{Event};
ghost use Rattle.jp_survey.specs.Held.{HasSurveyed};
ghost use Rattle.jp_survey.specs.Told.{lines_told};

use crate::filter::node_rows;
use crate::question::{FilterFault, question_of};
use crate::searching::{form_of, search_text};
use crate::session::Session;
use jp_grep::{Framing, Queries, Question, Table, Units};
use jp_model::Watched;
use jp_survey::Survey;
use std::alloc::{AllocError, Global};

/// The text of what was surveyed.
fn text_of(alloc: Global, survey: Survey) -> Result<Vec<u8>, AllocError>
    ensures { (told : List Event) → HasSurveyed survey told → IfOk result (λ text. IsSurveyOf (lines_told told) survey.fold text.items) }
{
    let mut text = Watched::new(Vec::new(alloc));
    match survey.write_rows(Table::Canonical, false, &mut text) {
        Ok(()) => Ok(text.into_inner()),
        Err(_) => Err(AllocError),
    }
}

/// The survey of the lines of a text that answer a question.
fn survey_text(
    alloc: Global,
    question: &Question,
    text: &[u8],
    fold: u64,
) -> Result<Vec<u8>, FilterFault>
    ensures found { IfOk result (λ found. IsSurveyOfFound question.now text.now fold found.items) }
    ensures fault { IfErr result (λ fault. TellsUnread fault text.now) }
{
    let form = form_of("", Units::Lines(Framing::Lines), node_rows(), false);
    let mut survey = Survey::new(alloc, fold)?;
    search_text(alloc, question, &form, text, &mut survey)?;
    Ok(text_of(alloc, survey)?)
}

impl Session {
    /// Surveys the lines of a text for which a condition holds, and keeps what is in them to be read.
    pub(crate) fn survey(
        &mut self,
        alloc: Global,
        text: &[u8],
        condition: &[u8],
        fold: u64,
    ) -> Result<(), FilterFault>
        ensures found { OnOk result (IsSurveyed text.now condition.now fold (left_in self.new)) }
        ensures fault { IfErr result (λ fault. TellsSurveyFault fault text.now condition.now) }
        ensures nothing { OnErr result (left_in self.new ≡ []) }
        ensures collection { self.new.collection ≡ self.old.collection }
    {
        self.keep(Vec::new(alloc));
        let question = question_of(alloc, condition, b"", Queries::Filter)?;
        let found = survey_text(alloc, &question, text, fold)?;
        self.keep(found);
        Ok(())
    }
}
