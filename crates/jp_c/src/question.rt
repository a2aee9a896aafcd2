//! What the lines of a text are asked.

ghost use Rattle.std.specs.Prelude.{◌≡◌, [], ◌∷◌, IfErr, IfOk, OnOk, map};
ghost use Rattle.jp_model.specs.Lines.{pieces, without_empty};
ghost use Rattle.jp_c.specs.Asked.{AddsQueries, AreConditions, Asks, TellsRefusedCondition, TellsRefusedQueries, TellsRefusedQuery, TellsRefusedQuestion, query_texts};
ghost use Rattle.jp_grep.specs.Matching.{conditions_of, each_of, queries_of};

use jp_grep::{Origin, Queries, Question, Wanted};
use jp_query::{Refusal, is_singular, read_condition, read_query};
use std::alloc::{AllocError, Global};

/// Why a text is not searched.
#[derive(Clone, Copy, Debug, PartialEq, Eq)]
pub enum FilterFault {
    /// The number of what is to be shown, or of the units, is not one of those listed.
    Number,
    /// The condition or a query is refused.
    Question,
    /// The text begins with the mark of another format.
    Format,
    /// A growth was refused.
    Memory,
}

impl From<AllocError> for FilterFault {
    ghost use Rattle.jp_c.specs.declared.question.FilterFault.TheVariants.{Memory};

    ghost from_gives = { λ _ e. e ≡ Memory };

    fn from(_error: AllocError) -> FilterFault {
        FilterFault::Memory
    }
}

impl From<Refusal> for FilterFault {
    ghost use Rattle.jp_c.specs.Asked.{fault_of};

    ghost from_gives = { λ refusal e. e ≡ fault_of refusal };

    fn from(refusal: Refusal) -> FilterFault {
        match refusal {
            Refusal::Fault(_) => FilterFault::Question,
            Refusal::Memory => FilterFault::Memory,
        }
    }
}

/// The lines of a text that are not empty.
fn filled_lines<'a>(alloc: Global, text: &'a [u8]) -> Result<Vec<&'a [u8]>, AllocError>
    ensures { IfOk result (λ lines. map (λ line. line.now) lines.items ≡ without_empty (pieces 0x0A text.now)) }
{
    let mut lines = Vec::new(alloc);
    for line in text.split(|byte| *byte == b'\n') {
        if !line.is_empty() {
            lines.push(line)?;
        }
    }
    Ok(lines)
}

/// The texts of the queries: one on each line that is not empty, or `$` where there is none.
fn query_texts<'a>(alloc: Global, lines: &'a [u8]) -> Result<Vec<&'a [u8]>, AllocError>
    ensures { IfOk result (λ texts. map (λ text. text.now) texts.items ≡ query_texts lines.now) }
{
    let mut texts = filled_lines(alloc, lines)?;
    if texts.is_empty() {
        texts.push(b"$")?;
    }
    Ok(texts)
}

/// Adds the query that a text spells. A column is singular.
fn add_query(
    alloc: Global,
    question: &mut Question,
    text: &[u8],
    purpose: Queries,
) -> Result<(), FilterFault>
    ensures added { OnOk result (AddsQueries purpose (text.now ∷ []) question.old question.new) }
    ensures refused { IfErr result (λ fault. TellsRefusedQuery fault purpose text.now) }
    ensures conditions { conditions_of question.new ≡ conditions_of question.old }
    ensures each { each_of question.new ≡ each_of question.old }
    ensures wanted { question.new.wanted ≡ question.old.wanted }
    ensures purpose { question.new.purpose ≡ question.old.purpose }
{
    let query = read_query(alloc, text)?;
    if purpose == Queries::Columns && !is_singular(query.segments()) {
        return Err(FilterFault::Question);
    }
    question.add_query(alloc, Origin::Root, &query)?;
    Ok(())
}

/// Adds the queries that some texts spell.
fn add_queries(
    alloc: Global,
    question: &mut Question,
    texts: &[&[u8]],
    purpose: Queries,
) -> Result<(), FilterFault>
    ensures added { OnOk result (AddsQueries purpose (map (λ text. text.now) texts.now) question.old question.new) }
    ensures refused { IfErr result (λ fault. TellsRefusedQueries fault purpose (map (λ text. text.now) texts.now)) }
    ensures conditions { conditions_of question.new ≡ conditions_of question.old }
    ensures each { each_of question.new ≡ each_of question.old }
    ensures wanted { question.new.wanted ≡ question.old.wanted }
    ensures purpose { question.new.purpose ≡ question.old.purpose }
{
    for text in texts {
        add_query(alloc, question, text, purpose)?;
    }
    Ok(())
}

/// Adds the condition that a text spells, unless it is empty, to a question that has none.
fn add_condition(alloc: Global, question: &mut Question, text: &[u8]) -> Result<(), FilterFault>
    requires { conditions_of question.old ≡ [] }
    ensures added { OnOk result (AreConditions text.now (conditions_of question.new)) }
    ensures refused { IfErr result (λ fault. TellsRefusedCondition fault text.now) }
    ensures queries { queries_of question.new ≡ queries_of question.old }
    ensures each { each_of question.new ≡ each_of question.old }
    ensures wanted { question.new.wanted ≡ question.old.wanted }
    ensures purpose { question.new.purpose ≡ question.old.purpose }
{
    if text.is_empty() {
        return Ok(());
    }
    let condition = read_condition(alloc, text)?;
    question.add_condition(alloc, &condition)?;
    Ok(())
}

/// The question of a condition, unless it is empty, and of queries, one on each line that is not empty; where there is none, of
/// `$`.
pub(crate) fn question_of(
    alloc: Global,
    condition: &[u8],
    queries: &[u8],
    purpose: Queries,
) -> Result<Question, FilterFault>
    ensures asks { IfOk result (λ question. Asks condition.now queries.now purpose question) }
    ensures refused { IfErr result (λ fault. TellsRefusedQuestion fault condition.now queries.now purpose) }
{
    let mut question = Question::new(alloc, Wanted::Matching, purpose);
    add_condition(alloc, &mut question, condition)?;
    let texts = query_texts(alloc, queries)?;
    add_queries(alloc, &mut question, &texts, purpose)?;
    question.gather_columns(alloc)?;
    Ok(question)
}
