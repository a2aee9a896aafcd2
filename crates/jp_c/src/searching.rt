//! A text that is searched.

ghost use Rattle.std.specs.Prelude.{◌≡◌, IfErr, IfOk, false, true};
ghost use Rattle.jp_form.specs.declared.form.Summary.TheVariants.{Nothing};
ghost use Rattle.jp_grep.specs.Items.{items_come};
ghost use Rattle.jp_grep.specs.Rows.{refused_count};
ghost use Rattle.jp_c.specs.Asked.{TellsUnread, events_by, form_of as form_with, found_by};
ghost use Rattle.jp_sink.specs.Telling.{Takes};

use crate::filter::Rows;
use crate::question::FilterFault;
use jp_grep::{Form, HeldText, Input, Question, SearchFault, Sink, Summary, Units, search};
use jp_model::Watched;
use std::alloc::Global;

/// How such rows are written of the units of a text, with their numbers or without.
pub(crate) fn form_of<'a>(name: &'a str, units: Units, rows: Rows, numbered: bool) -> Form<'a>
    ensures { result ≡ form_with name.entry units rows numbered }
{
    Form {
        units,
        shown: rows.shown,
        spelling: rows.spelling,
        summary: Summary::Nothing,
        name,
        told_name: name,
        named: false,
        null: false,
        numbered,
        coloured: false,
        marked: false,
        silent: true,
        most: u64::MAX,
        trailing: 0,
    }
}

/// Tells a sink what of a text answers a question, and gives how many of its units are refused. The sink fails for want of memory
/// alone.
pub(crate) fn search_text<S: Sink>(
    alloc: Global,
    question: &Question,
    form: &Form<'_>,
    text: &[u8],
    sink: &mut S,
) -> Result<u64, FilterFault>
    requires writes { (S.state sink.old).failed ≡ false }
    requires summary { form.now.summary ≡ Nothing }
    ensures found { IfOk result (λ refused. Takes S.stands sink.old sink.new (events_by question.now form.now text.now)) }
    ensures settings { (S.state sink.new).settings ≡ (S.state sink.old).settings }
    ensures refused { IfOk result (λ refused. refused ≡ refused_count (items_come form.now.units true text.now)) }
    ensures fault { IfErr result (λ fault. TellsUnread fault text.now) }
{
    let mut input = Input::new(Watched::new(text));
    let mut messages = Watched::new(Vec::new(alloc));
    match search(alloc, question, form, &mut input, sink, &mut messages) {
        Ok(came) => {
            // The search ends before the text does only where as many lines are selected as are wanted.
            if !came.is_whole() || came.counts.selected == form.most {
                return Err(FilterFault::Memory);
            }
            Ok(came.counts.refused)
        }
        Err(SearchFault::Foreign(_)) => Err(FilterFault::Format),
        // Bytes in memory are read, and no read of them fails.
        Err(_) => Err(FilterFault::Memory),
    }
}

/// The rows of a text that answer a question, and how many of its units are refused.
pub(crate) fn find_rows(
    alloc: Global,
    question: &Question,
    form: &Form<'_>,
    text: &[u8],
) -> Result<(Vec<u8>, u64), FilterFault>
    requires { form.now.summary ≡ Nothing }
    ensures found { IfOk result (λ found. found.0.items ≡ found_by question.now form.now text.now) }
    ensures refused { IfOk result (λ found. found.1 ≡ refused_count (items_come form.now.units true text.now)) }
    ensures fault { IfErr result (λ fault. TellsUnread fault text.now) }
{
    let mut rows = HeldText::new(alloc);
    let refused = search_text(alloc, question, form, text, &mut rows)?;
    Ok((rows.text, refused))
}
